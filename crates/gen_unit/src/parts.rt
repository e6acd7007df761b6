//! What the code of a translation unit is made of.

use c_ast::Name;

/// The code of a translation unit.
#[derive(Drop)]
pub struct UnitCode {
    /// The instructions of its functions, one function behind the other, with zeros in the fields that wait for addresses.
    pub words: Vec<u32>,
    /// Where each function that it defines stands, in their order.
    pub functions: Vec<Place>,
    /// The words that wait for addresses, by increasing places.
    pub relocs: Vec<CodeReloc>,
}

/// Where the words of a function stand.
#[derive(Drop)]
pub struct Place {
    pub name: Name,
    /// Whether other files do not see it.
    pub local: bool,
    /// Of its first word, in bytes from that of the unit.
    pub start: u64,
    pub bytes: u64,
}

/// A word that waits for the address of a symbol (ELF for the Arm 64-bit architecture).
#[derive(Clone, Copy)]
pub struct CodeReloc {
    /// Of the word, in bytes from the unit's first one.
    pub offset: u64,
    /// What is put there, as `R_AARCH64_CALL26`.
    pub kind: u32,
    pub target: CodeTarget,
    /// What is added to the symbol's address.
    pub addend: i64,
}

/// A symbol that a word waits for.
#[derive(Clone, Copy)]
pub enum CodeTarget {
    /// A function that the unit defines, by its number.
    Function(u32),
    /// What another file defines, by its number among the externs.
    Extern(u32),
    /// An object that the unit defines, by its number.
    Global(u32),
    /// A text, by its number.
    Text(u32),
}
