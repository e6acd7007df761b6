ghost use Rattle.std.specs.Prelude.{◌≡◌};

use crate::instr::Instr;
use crate::line::{TableLine, Values};
use crate::place::*;
use crate::table::table;

/// An instruction as the table has it: its line, its form, and the values of its fields in the order of the line.
#[derive(Clone, Copy)]
pub struct Parts {
    pub line: &'static TableLine,
    pub wide: bool,
    pub values: Values,
}

/// An arm for each line.
macro_rules! parts {
    (
        ($instr:ident)
        both { $($both:ident $wide:literal $narrow:literal { $($field:ident: $type:ident = $place:ident),* })* }
        one { $($one:ident $base:literal { $($one_field:ident: $one_type:ident = $one_place:ident),* })* }
    ) => {
        match $instr {
            $(Instr::$both { wide, $($field),* } => Parts {
                line: &TableLine { base: $wide, narrow: $narrow, places: four!(NONE; $($place),*) },
                wide,
                values: four!(0; $(value!($type $field)),*),
            },)*
            $(Instr::$one { $($one_field),* } => Parts {
                line: &TableLine { base: $base, narrow: $base, places: four!(NONE; $($one_place),*) },
                wide: true,
                values: four!(0; $(value!($one_type $one_field)),*),
            },)*
        }
    };
}

macro_rules! value {
    (Reg $field:ident) => { $field.0 as u32 };
    ($type:ident $field:ident) => { $field as u32 };
}

macro_rules! four {
    ($none:expr;) => { ($none, $none, $none, $none) };
    ($none:expr; $a:expr) => { ($a, $none, $none, $none) };
    ($none:expr; $a:expr, $b:expr) => { ($a, $b, $none, $none) };
    ($none:expr; $a:expr, $b:expr, $c:expr) => { ($a, $b, $c, $none) };
    ($none:expr; $a:expr, $b:expr, $c:expr, $d:expr) => { ($a, $b, $c, $d) };
}

impl Instr {
    ghost use Rattle.a64_code.specs.Table.{entry};
    ghost use Rattle.a64_code.specs.Listed.{listed_line, four_values};

    /// The parts of this instruction.
    pub(crate) fn parts(self) -> Parts
        ensures line { result.line.now ≡ listed_line (entry self).form.line }
        ensures wide { result.wide ≡ (entry self).form.wide }
        ensures values { result.values ≡ four_values (entry self).values }
    {
        table!(parts self)
    }
}
