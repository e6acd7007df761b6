//! Memory of bytes with a tag for each granule, in regions with their rights: what a machine's accesses find there.
#![tactic(auto)]

mod access;
mod chunk;
mod copy;
mod fetch;
mod flat;
mod index;
mod judge;
mod region;
mod tags;

pub use access::{Access, TagMemory};
pub use flat::FlatMemory;
pub use region::{Region, Span64};
