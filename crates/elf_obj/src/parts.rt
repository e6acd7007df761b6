use elf_base::{Bytes, Name};

/// The section in which a symbol lies.
#[derive(Clone, Copy, Drop)]
pub enum Home {
    /// In none of this object: another one defines it.
    Undef,
    /// The instructions.
    Text,
    /// The data that is only read.
    Rodata,
    /// The data that begins with bytes of the file.
    Init,
    /// The data that begins with zeros.
    Zero,
}

/// A name for a place of a section.
#[derive(Drop)]
pub struct Symbol {
    pub name: Name,
    pub home: Home,
    /// The place in the section.
    pub value: u64,
    /// How many bytes from there belong to it.
    pub size: u64,
    /// Other objects do not see it.
    pub local: bool,
    /// It is a function, and otherwise an object.
    pub function: bool,
}

/// A place that waits for the address of a symbol (ELF for the Arm 64-bit architecture).
#[derive(Clone, Copy)]
pub struct Reloc {
    /// The place in its section.
    pub offset: u64,
    /// What is put there, as `R_AARCH64_CALL26`.
    pub kind: u32,
    /// The number of the symbol among those of the parts, from 0.
    pub symbol: u32,
    /// What is added to the symbol's address.
    pub addend: i64,
}

/// The parts of an object.
#[derive(Drop)]
pub struct ObjectParts {
    /// The instructions.
    pub words: Vec<u32>,
    /// The data that is only read.
    pub rodata: Bytes,
    /// The data that begins with these bytes.
    pub init_bytes: Bytes,
    /// How many bytes of data begin with zeros.
    pub zero_bytes: u64,
    /// The symbols, the local ones first.
    pub symbols: Vec<Symbol>,
    /// The places of the instructions that wait for addresses.
    pub text_relocs: Vec<Reloc>,
    /// The places of the filled data that wait for addresses.
    pub init_relocs: Vec<Reloc>,
    /// The numbers of the tagged objects among the symbols (Memtag ABI).
    pub tagged: Vec<u32>,
}
