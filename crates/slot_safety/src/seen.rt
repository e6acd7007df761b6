//! What the walk over an expression tells the expression around it.

use c_type_base::Constancy;

/// Where an expression stands in a local, if that is known.
#[derive(Clone, Copy)]
pub enum Path {
    Nowhere,
    /// It designates the local of this number, or a part of it by a path that stays in it.
    Object(u32),
    /// It is the pointer to the first of so many elements of an array that stands so in this local.
    Elements(u32, u64),
}

/// What is known of an expression.
#[derive(Clone, Copy)]
pub struct Seen {
    pub constant: Constancy,
    pub path: Path,
}
