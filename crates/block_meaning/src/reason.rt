// Why a step of a program has no meaning.

/// Why a step is undefined. Of an access the first that applies, in this order, is the one.
#[derive(Clone, Copy)]
pub enum Reason {
    /// The offset is no multiple of the alignment.
    Misaligned,
    /// It is in the null block.
    Null,
    /// The block's life has ended.
    Dead,
    /// Not all bytes are in the block.
    Outside,
    /// It writes to a text.
    ReadOnly,
    /// It reads a byte that was never written.
    Indeterminate,
    /// What it reads is no number, or no whole pointer.
    Part,
    /// A struct is copied to a place that it shares in part.
    Overlap,
    /// Pointers are compared that have no order, or no known difference.
    Compare,
    /// A function is called by another type than its own, or what is called is none.
    Signature,
}
