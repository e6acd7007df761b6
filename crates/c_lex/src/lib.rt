//! From the bytes of a C text to its tokens, or to its first fault and the byte where it stands.
#![tactic(auto)]

mod bytes;
mod digits;
mod directive;
mod escape;
mod fault;
mod gap;
mod numeral;
mod quoted;
mod reading;
mod tokens;
mod word;

pub use fault::{Fault, LexRefusal};
pub use tokens::{lex, reads_one_way, tokens_are_in_text};
