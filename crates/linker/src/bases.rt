/// Where the parts of an image that hold the objects' sections begin.
#[derive(Clone, Copy)]
pub struct Bases {
    /// The data that is only read.
    pub rodata: u64,
    /// The instructions.
    pub code: u64,
    /// The filled data, which the global offset table begins.
    pub filled: u64,
    /// The zero bytes.
    pub zeros: u64,
}
