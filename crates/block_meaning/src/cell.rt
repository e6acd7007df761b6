// What memory is made of.

/// What a byte of a block holds.
#[derive(Clone, Copy)]
pub enum Cell {
    Nothing,
    Byte(u8),
    /// A byte of a pointer, from 0 to 7, and the pointer's block and offset.
    Part(u8, u64, u64),
}
