//! The numbers that everything above stands on: tags and tagged pointers of the Memory Tagging Extension, rounding to
//! granules, and extension by sign and by zero.
#![tactic(auto)]

mod extend;
mod pointer;
mod tag;

pub use extend::{sext, zext};
pub use pointer::{address_of, round16, tag_of, with_tag};
pub use tag::{Exclude, Tag, next_tag};
