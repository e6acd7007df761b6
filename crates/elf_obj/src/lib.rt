//! Object files: what the compiler writes and the linker reads, as one ELF64 file for each list of parts.
#![tactic(auto)]

mod apart;
mod claim;
mod file;
mod headers;
mod parts;
mod put;
mod read;
mod refusal;
mod relocs;
mod repeats;
mod section;
mod sections;
mod sizes;
mod start;
mod symbols;
mod write;

pub use parts::{Home, ObjectParts, Reloc, Symbol};
pub use read::read_object;
pub use refusal::ObjectRefusal;
pub use section::Section;
pub use sizes::Sizes;
pub use write::write_object;
