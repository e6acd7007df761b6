//! The integer types of the profile.

/// An integer type on the LP64 sizes of AArch64 (C11 6.2.5). The three char types differ; plain `char` is unsigned.
#[derive(Clone, Copy, Debug, PartialEq, Eq)]
pub enum IntType {
    Char,
    SignedChar,
    UnsignedChar,
    Short,
    UShort,
    Int,
    UInt,
    Long,
    ULong,
}
