//! What a frame is.

use slot_safety::Kind;
use sqlite_items::Items;

/// Where a parameter or local stands in its frame.
#[derive(Clone, Copy)]
pub struct Slot {
    /// In bytes from the frame's lowest address.
    pub start: u64,
    /// Its own bytes; those of a tagged slot are rounded up to whole granules.
    pub bytes: u64,
    pub kind: Kind,
    /// Of a tagged slot, from 0 to 14: tells its tag from those of its neighbours. Of a safe one 0.
    pub index: u8,
    /// Whether it is a local of an inner scope, and lives no longer than that.
    pub inner: bool,
}

/// The frame of a function.
#[derive(Drop)]
pub struct Frame {
    /// In order of declaration, parameters first.
    pub slots: Items<Slot>,
    /// How many words of 8 bytes it has for values in between.
    pub temps: u64,
    pub bytes: u64,
}

/// Some slots of a frame, by their numbers.
#[derive(Drop)]
pub struct Slots(pub Items<u32>);

/// Why a function has no frame.
#[derive(Clone, Copy)]
pub enum LayoutRefusal {
    /// Its frame would have more than 262,144 bytes: so many, or the greatest number if they are more.
    FrameTooLarge { bytes: u64 },
    NoMemory,
}
