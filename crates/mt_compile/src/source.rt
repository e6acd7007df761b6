// The text of a source.

/// The text of a source file, which may hold any bytes.
#[derive(Drop)]
pub struct SourceText {
    pub bytes: Vec<u8>,
}
