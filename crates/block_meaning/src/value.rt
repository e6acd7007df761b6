// The values of expressions, and where pointers point to.

/// A place in a block, by the block's number and an offset in bytes.
#[derive(Clone, Copy)]
pub struct Pointer {
    pub block: u64,
    pub offset: u64,
}

/// The value of an expression.
#[derive(Clone, Copy)]
pub enum Value {
    /// An integer modulo 2^64: a negative number n is 2^64 + n.
    Number(u64),
    Address(Pointer),
    /// A struct, by where it stands: it is read where it is assigned or is an initialiser, and nowhere else.
    Struct(Pointer),
    /// That of a void call.
    NoValue,
}
