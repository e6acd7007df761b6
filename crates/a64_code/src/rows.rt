use crate::instr::{Instr, Reg};
use crate::place::*;
use crate::table::table;

/// A row of the table as a search wants it: the word with all fields zero, the bits where no field stands, and the
/// instruction of that word.
pub struct TableRow {
    pub base: u32,
    pub fixed: u32,
    pub blank: Instr,
}

/// The rows of all instructions on 64 bits, or of their one form, and then those on 32 bits.
macro_rules! rows {
    (
        ()
        both { $($both:ident $wide:literal $narrow:literal $fields:tt)* }
        one { $($one:ident $base:literal $one_fields:tt)* }
    ) => {
        [
            $(row!($wide wide $both { wide: true, } $fields),)*
            $(row!($base wide $one {} $one_fields),)*
            $(row!($narrow narrow $both { wide: false, } $fields),)*
        ]
    };
}

macro_rules! row {
    ($base:literal $width:ident $name:ident { $($form:tt)* } { $($field:ident: $type:ident = $place:ident),* }) => {
        TableRow {
            base: $base,
            fixed: !(0 $(| ((1 << $place.$width) - 1) << $place.low)*),
            blank: Instr::$name { $($form)* $($field: zero!($type)),* },
        }
    };
}

macro_rules! zero {
    (Reg) => { Reg(0) };
    ($type:ident) => { 0 };
}

macro_rules! count {
    (
        ()
        both { $($both:ident $wide:literal $narrow:literal $fields:tt)* }
        one { $($one:ident $base:literal $one_fields:tt)* }
    ) => {
        0 $(+ rows_of!($wide $narrow))* $(+ rows_of!($base))*
    };
}

macro_rules! rows_of {
    ($wide:literal $narrow:literal) => { 2 };
    ($base:literal) => { 1 };
}

/// The number of rows.
const ROW_COUNT: usize = table!(count);

/// The table: each form on 64 bits in the order of the lines, and then those on 32 bits.
pub static ROWS: [TableRow; ROW_COUNT] = table!(rows);
