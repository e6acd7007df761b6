//! What an ELF file of any producer says of memory tagging (Memtag ABI), as lines of text.
#![tactic(auto)]

mod lines;
mod refusal;

pub use lines::dump;
pub use refusal::DumpRefusal;
