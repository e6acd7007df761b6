ghost use Rattle.std.specs.Prelude.{◌≡◌};

use crate::instr::Instr;
use crate::place::*;
use crate::table::table;

/// An arm for each line.
macro_rules! reading {
    (
        ($instr:ident $word:ident)
        both { $($both:ident $wide:literal $narrow:literal { $($field:ident: $type:ident = $place:ident),* })* }
        one { $($one:ident $base:literal { $($one_field:ident: $one_type:ident = $one_place:ident),* })* }
    ) => {
        match $instr {
            $(Instr::$both { wide, .. } => Instr::$both { wide, $($field: read!($type $place wide $word)),* },)*
            $(Instr::$one { .. } => Instr::$one { $($one_field: read!($one_type $one_place true $word)),* },)*
        }
    };
}

macro_rules! read {
    (u8 $place:ident $wide:tt $word:ident) => { $place.byte($wide, $word) };
    (u16 $place:ident $wide:tt $word:ident) => { $place.half($wide, $word) };
    (u32 $place:ident $wide:tt $word:ident) => { $place.word($wide, $word) };
    (Reg $place:ident $wide:tt $word:ident) => { $place.register($wide, $word) };
}

impl Instr {
    ghost use Rattle.a64_code.specs.Field.{fields_of};
    ghost use Rattle.a64_code.specs.Table.{entry, encoding};

    /// The instruction of the same row with its fields as a word has them.
    pub(crate) fn reading(self, word: u32) -> Instr
        ensures form { (entry result).form ≡ (entry self).form }
        ensures fields { (encoding result).fields ≡ fields_of word (encoding self).fields }
    {
        table!(reading self word)
    }
}
