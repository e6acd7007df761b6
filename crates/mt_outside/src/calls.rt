// The numbered calls of an object in memory, of which some fail.
ghost use Rattle.std.specs.Prelude.{◌≡◌, ◌↔◌, Contains, IsTrue};
ghost use Rattle.mt_outside.specs.Counts.{one_more};

/// How many calls were made, and the numbers of those that fail. Calls are numbered from 0. The number stops at the
/// last one of 64 bits.
#[derive(Drop)]
pub(crate) struct Calls {
    pub(crate) made: u64,
    pub(crate) failing: Vec<u64>,
}

impl Calls {
    pub(crate) fn new(failing: Vec<u64>) -> Calls
        ensures made { result.made ≡ 0 }
        ensures failing { result.failing.items ≡ failing.items }
    {
        Calls { made: 0, failing }
    }

    /// Makes the next call, and tells whether it fails.
    pub(crate) fn next_fails(&mut self) -> bool
        ensures fails { IsTrue result ↔ Contains self.old.failing.items self.old.made }
        ensures made { self.new.made ≡ one_more self.old.made }
        ensures failing { self.new.failing.items ≡ self.old.failing.items }
    {
        let number = self.made;
        self.made = one_more(number);
        self.failing.contains(&number)
    }
}

/// The number after this one. The last number of 64 bits stays.
pub(crate) fn one_more(number: u64) -> u64
    ensures { result ≡ one_more number }
{
    number.saturating_add(1)
}
