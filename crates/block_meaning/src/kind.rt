// What blocks are.

/// What a block is. Objects, texts and functions of a file have its number and their own there. A parameter or local has the
/// number of its call, which is how many calls were made before, and its own in the function.
#[derive(Clone, Copy)]
pub enum Kind {
    NullBlock,
    Global(u32, u32),
    Text(u32, u32),
    Code(u32, u32),
    Local(u64, u32),
}
