//! Memory of bytes with a tag for each granule, in pages of 4,096 bytes that are found by their numbers.
#![tactic(auto)]

mod bounds;
mod copy;
mod fetch;
mod fill;
mod judge;
mod numbers;
mod page;
mod paged;
mod part;
mod table;
mod tags;

pub use bounds::Bounds;
pub use page::Page;
pub use paged::PagedMemory;
