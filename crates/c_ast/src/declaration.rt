//! Declarations of objects, members and parameters, and struct declarations.

use crate::expr::{CType, Expr};
use crate::names::Name;
use crate::token::Span;
use sqlite_items::Items;

/// The storage class that is written at file scope (C11 6.7.1).
#[derive(Clone, Copy)]
pub enum Storage {
    None,
    Static,
    Extern,
}

/// What an object is initialised with (C11 6.7.9).
#[derive(Drop)]
pub enum Init {
    One(Expr),
    /// A list in braces, and where it stands.
    List(Items<Init>, Span),
}

/// The declaration of one object, member or parameter (C11 6.7, 6.7.2.1, 6.7.6.3).
#[derive(Drop)]
pub struct Decl {
    /// Empty for a parameter without a name.
    pub name: Name,
    pub ty: CType,
    pub init: Option<Init>,
    /// Its declarator with the initialiser; a parameter's whole declaration.
    pub span: Span,
}

/// The declaration of a struct's tag, with the members where it has a body (C11 6.7.2.1).
#[derive(Drop)]
pub struct StructDecl {
    pub name: Name,
    pub members: Option<Items<Decl>>,
    /// From `struct` to the end of the body, or of the tag where there is no body.
    pub span: Span,
}
