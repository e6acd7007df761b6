//! What is known of an expression whose type can be told, and of a type as it is written.

use crate::expr::TExpr;
use crate::ty::Ty;
use crate::typed::Target;

/// Whether an expression is an integer constant expression (C11 6.6 paragraph 6).
#[derive(Clone, Copy)]
pub enum Constancy {
    Varies,
    /// One whose evaluation divides by 0 is none.
    DividesByZero,
    /// Its value modulo 2^64.
    Is(u64),
}

/// An address that is known before the run (C11 6.6 paragraph 9).
#[derive(Clone, Copy)]
pub struct Fixed {
    /// The object, or none for the null block.
    pub target: Option<Target>,
    /// How many bytes behind its start, modulo 2^64.
    pub offset: u64,
}

/// What is known of an expression.
#[derive(Drop)]
pub struct Known {
    pub tree: TExpr,
    /// Whether it designates an object (C11 6.3.2.1 paragraph 1).
    pub lvalue: bool,
    pub constant: Constancy,
    /// Of an lvalue its address, of a pointer the address that it is, where that is an address constant.
    pub fixed: Option<Fixed>,
    /// Whether it is an element or member of an array or object that is fixed, by a path; then it may be taken further.
    pub path: bool,
}

/// A type as it is written.
#[derive(Drop)]
pub enum Written {
    Whole(Ty),
    /// An array of such elements whose length is left out.
    Open(Ty),
}
