use elf_base::Bytes;

/// A place of the image that holds an address: at the start, the load address plus `addend` is put there.
#[derive(Clone, Copy)]
pub struct RelativeReloc {
    /// The image address of the place.
    pub place: u64,
    /// What is added to the load address.
    pub addend: i64,
}

/// The parts of an image.
#[derive(Drop)]
pub struct ImageParts {
    /// The image address of the first instruction.
    pub entry: u64,
    /// The places that hold addresses.
    pub relocs: Vec<RelativeReloc>,
    /// The descriptors of the tagged objects (Memtag ABI).
    pub descriptors: Bytes,
    /// The data that is only read.
    pub rodata: Bytes,
    /// The instructions.
    pub words: Vec<u32>,
    /// The bytes that the writable data begins with.
    pub filled: Bytes,
    /// How many zero bytes follow them in memory.
    pub zero_bytes: u64,
}
