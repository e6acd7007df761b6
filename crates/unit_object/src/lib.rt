//! The object of a file: its code, its texts and objects, its symbols, and the places that wait for addresses.
#![tactic(auto)]

mod counted;
mod data;
mod names;
mod numbers;
mod object;
mod objects;
mod order;
mod relocs;
mod symbols;
mod texts;

pub use object::object_parts;
