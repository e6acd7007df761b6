//! A whole program with its types.

use crate::statement::TStmt;
use crate::ty::Ty;
use c_ast::{Bytes, Name, Span};
use sqlite_items::Items;

/// A translation unit (C11 6.9) whose names are resolved.
#[derive(Drop)]
pub struct Typed {
    /// In the order in which their tags are first declared.
    pub structs: Items<StructInfo>,
    /// The objects that it defines, in the order in which their names are first declared. By their
    /// spans they stand in the order of their definitions.
    pub globals: Items<GlobalInfo>,
    /// The functions that it defines, in the same order, and with the same use of their spans.
    pub functions: Items<TFunction>,
    /// What it declares and another file defines, in order of first declarations.
    pub externs: Items<ExternInfo>,
    /// Every text with its final zero, in order of first tokens.
    pub texts: Items<Bytes>,
}

/// A struct and its layout. One without a body has no members and no bytes, and the alignment 1.
#[derive(Drop)]
pub struct StructInfo {
    pub name: Name,
    pub members: Items<MemberInfo>,
    /// A multiple of the alignment.
    pub bytes: u64,
    pub align: u64,
}

/// A member, and how many bytes behind the struct's start it stands.
#[derive(Drop)]
pub struct MemberInfo {
    pub name: Name,
    pub ty: Ty,
    pub offset: u64,
}

/// An object of the whole run that the program defines.
#[derive(Drop)]
pub struct GlobalInfo {
    pub name: Name,
    pub ty: Ty,
    /// Whether it is `static`.
    pub local: bool,
    /// What its bytes begin with, by increasing offsets; all others are zero.
    pub init: Items<InitPiece>,
    /// Of its definition.
    pub span: Span,
}

/// A scalar among the first bytes of an object.
#[derive(Drop)]
pub struct InitPiece {
    /// In bytes from the object's start.
    pub offset: u64,
    pub value: InitValue,
}

/// What a scalar is at first.
#[derive(Clone, Copy)]
pub enum InitValue {
    /// A number and in how many bytes it stands.
    Number(u64, u8),
    /// A pointer so many bytes from the start of its target.
    Address(Target, i64),
}

/// What an address is of.
#[derive(Clone, Copy)]
pub enum Target {
    /// By its number among the program's objects.
    Global(u32),
    /// By its number among the externs.
    Extern(u32),
    /// By its number among the texts.
    Text(u32),
}

/// A function that the program defines.
#[derive(Drop)]
pub struct TFunction {
    pub name: Name,
    /// Whether it is `static`.
    pub local: bool,
    /// How many of the locals are parameters. They come first.
    pub params: u32,
    pub result: Ty,
    pub locals: Items<LocalInfo>,
    pub body: TStmt,
    /// Of its definition.
    pub span: Span,
}

/// A parameter or a local.
#[derive(Drop)]
pub struct LocalInfo {
    pub name: Name,
    pub ty: Ty,
    pub span: Span,
}

/// What another file defines: an object by its type, or else a function.
#[derive(Drop)]
pub struct ExternInfo {
    pub name: Name,
    /// None for a function.
    pub object: Option<Ty>,
    /// A function's result; of an object, void.
    pub result: Ty,
    /// Empty for an object.
    pub params: Items<Ty>,
}
