//! Image files: what the linker writes and the start-up loads, as one ELF64 file for each list of parts.
#![tactic(auto)]

mod bytes;
mod entries;
mod heads;
mod judge;
mod layout;
mod memtag;
mod parts;
mod put;
mod read;
mod records;
mod refusal;
mod same;
mod segments;
mod write;

pub use memtag::{MemtagInfo, read_memtag};
pub use parts::{ImageParts, RelativeReloc};
pub use read::read_image;
pub use refusal::ImageRefusal;
pub use write::{push_code, push_writable, read_only_bytes, write_image};
