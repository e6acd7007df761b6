//! The records of ELF64 files, read and written at their fields' widths, the pieces that a file is laid out in, and the texts that
//! the file crates hold.
#![tactic(auto)]

mod dynamic;
mod header;
mod laying;
mod place;
mod relocation;
mod section;
mod segment;
mod symbol;
mod text;
mod zeros;

pub use dynamic::{DYN_BYTES, Dyn, read_dyn, write_dyn};
pub use header::{EHDR_BYTES, Ehdr, IDENTIFICATION, read_ehdr, write_ehdr};
pub use laying::{pad_to, push_u64, put_bytes, put_words};
pub use place::{Short, u8_at, u16_at, u32_at, u64_at};
pub use relocation::{RELA_BYTES, Rela, read_rela, write_rela};
pub use section::{SHDR_BYTES, Shdr, read_shdr, write_shdr};
pub use segment::{PHDR_BYTES, Phdr, read_phdr, write_phdr};
pub use symbol::{SYM_BYTES, Sym, read_sym, write_sym};
pub use text::{Bytes, Name};
pub use zeros::is_zero_between;
