//! Where the labels of a function stand.

/// By the numbers of labels: their places, in words from the function's start.
#[derive(Drop)]
pub struct Labels {
    /// None where no label has the number.
    pub places: Vec<Option<u32>>,
    /// Where what comes behind the items stands.
    pub end: u32,
    /// Whether a branch on a register may not reach each of them.
    pub long: bool,
}

impl Labels {
    ghost use Rattle.std.specs.Prelude.{◌≡◌};
    ghost use Rattle.gen_unit.specs.Appended.{targets_of};

    /// Where a label stands, or what comes behind the items.
    pub fn place_of(&self, label: u32) -> u32
        ensures { result ≡ (targets_of self.now).label label }
    {
        let places = self.places.as_slice();
        if label as usize >= places.len() {
            return self.end;
        }
        match places[label as usize] {
            None => self.end,
            Some(place) => place,
        }
    }
}
