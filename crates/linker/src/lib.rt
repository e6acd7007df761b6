//! The linker: the image of objects, with their names bound, their fields relocated and their tagged objects described.
#![tactic(auto)]

mod bases;
mod code;
mod data;
mod descriptors;
mod fields;
mod image;
mod layout;
mod lengths;
mod linking;
mod names;
mod plan;
mod records;
mod refusal;
mod relocate;
mod rodata;
mod spans;
mod table;
mod totals;

pub use bases::Bases;
pub use fields::Site;
pub use linking::link;
pub use refusal::LinkRefusal;
