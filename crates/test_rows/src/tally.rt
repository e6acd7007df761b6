use std::fmt;

/// How many rows there were, and how many of them had another answer.
#[derive(Clone, Copy)]
pub struct Tally {
    rows: u64,
    differ: u64,
}

impl Tally {
    pub fn new() -> Tally {
        Tally { rows: 0, differ: 0 }
    }

    /// Counts a row, and says whether the answer that was found is another than the row's.
    pub fn differs(&mut self, wanted: &str, found: &str) -> bool {
        let differs = wanted != found;
        self.rows = self.rows.saturating_add(1);
        if differs {
            self.differ = self.differ.saturating_add(1);
        }
        differs
    }
}

impl fmt::Display for Tally {
    fn fmt<W: fmt::Write>(&self, f: &mut fmt::Formatter<W>) -> fmt::Result {
        let rows = self.rows;
        let differ = self.differ;
        write!(f, "{rows} rows, {differ} differ")
    }
}
