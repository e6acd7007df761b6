/// The bytes of a tagged object: image addresses from `start` on.
#[derive(Clone, Copy, Debug, PartialEq, Eq)]
pub struct Interval {
    /// The address of the first byte, a multiple of 16.
    pub start: u64,
    /// How many bytes there are, a positive multiple of 16.
    pub bytes: u64,
}
