ghost use Rattle.std.specs.Prelude.{◌≡◌, ◌+◌, ◌<◌, ◌^◌, ◌↔◌, IsTrue, SomeIff};
ghost use Rattle.a64_code.specs.Field.{AllFit, placed};
ghost use Rattle.a64_code.specs.Line.{by_width};
ghost use Rattle.a64_code.specs.Listed.{filled, base_of, are_narrow, has_room};

use crate::place::Place;

/// The values of four fields, with zeros where an instruction has fewer.
pub type Values = (u32, u32, u32, u32);

/// A line of the table: the words with all fields zero on 64 and on 32 bits, which are the same where there is one form, and
/// the places of the fields from the highest down.
pub struct TableLine {
    pub base: u32,
    pub narrow: u32,
    pub places: (Place, Place, Place, Place),
}

impl TableLine {
    /// The word of a form with values in the fields; None exactly where one is too wide.
    pub fn word(&self, wide: bool, values: Values) -> Option<u32>
        requires { IsTrue (has_room (base_of self.now wide) (filled self.now wide values)) }
        ensures { SomeIff result (AllFit (filled self.now wide values)) (base_of self.now wide + placed (filled self.now wide values)) }
    {
        if self.holds(wide, values) {
            Some(self.placed(wide, values))
        } else {
            None
        }
    }

    /// Whether each value is within its field's width.
    fn holds(&self, wide: bool, values: Values) -> bool
        requires { IsTrue (are_narrow (filled self.now wide values)) }
        ensures { IsTrue result ↔ AllFit (filled self.now wide values) }
    {
        let (a, b, c, d) = self.places;
        a.holds(wide, values.0)
            && b.holds(wide, values.1)
            && c.holds(wide, values.2)
            && d.holds(wide, values.3)
    }

    /// The base word of a form with each value at its place.
    fn placed(&self, wide: bool, values: Values) -> u32
        requires narrow { IsTrue (are_narrow (filled self.now wide values)) }
        requires room { base_of self.now wide + placed (filled self.now wide values) < 2 ^ 32 }
        ensures { result ≡ base_of self.now wide + placed (filled self.now wide values) }
    {
        let (a, b, c, d) = self.places;
        let base = if wide { self.base } else { self.narrow };
        base + (a.with(values.0) + (b.with(values.1) + (c.with(values.2) + d.with(values.3))))
    }
}
