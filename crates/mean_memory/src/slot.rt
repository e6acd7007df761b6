//! The blocks that are alive.

use block_meaning::{Cell, Kind};

/// A block that is alive, by its number.
#[derive(Drop)]
pub struct Slot {
    pub number: u64,
    pub kind: Kind,
    pub cells: Vec<Cell>,
}
