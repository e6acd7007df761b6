//! Expressions with their types.

use crate::ty::Ty;
use c_ast::{AssignOperator, BinaryOperator, IntType, Span, Step, UnaryOperator};
use sqlite_items::{Boxed, Items};

/// An expression, where it stands, and its type.
#[cycle(texpr)]
#[derive(Drop)]
pub struct TExpr {
    /// That of the expression in the text; an implicit step has that of its operand.
    pub span: Span,
    pub ty: Ty,
    pub node: Boxed<TNode>,
}

/// What an expression is (C11 6.5), with its names resolved and each implicit step as a node.
#[cycle(texpr)]
#[derive(Drop)]
pub enum TNode {
    /// An integer constant: its value modulo 2^64, and its type.
    Constant(u64, IntType),
    /// By its number among the texts of the program.
    Text(u32),
    /// A parameter or local of the function, by its number there.
    Local(u32),
    /// An object of the program that it defines, by its number.
    Global(u32),
    /// An object that another file defines, by its number among the program's externs.
    Extern(u32),
    /// `( e )`
    Paren(TExpr),
    Unary(UnaryOperator, TExpr),
    Binary(BinaryOperator, TExpr, TExpr),
    /// `left = right`, or a compound assignment.
    Assign(Option<AssignOperator>, TExpr, TExpr),
    /// `condition ? then : else`
    Cond(TExpr, TExpr, TExpr),
    /// `( type ) e`
    Cast(Ty, TExpr),
    /// `sizeof e`
    SizeofExpr(TExpr),
    /// `sizeof ( type )`
    SizeofName(Ty),
    /// What is called, and the arguments.
    Call(Callee, Items<TExpr>),
    /// `e [ e ]`
    Index(TExpr, TExpr),
    /// `e . member`, by the member's number in its struct.
    Member(TExpr, u32),
    /// `e -> member`, likewise.
    Arrow(TExpr, u32),
    /// `++` or `--`
    Step(Step, TExpr),
    /// The value of an object (C11 6.3.2.1 paragraph 2).
    Read(TExpr),
    /// The pointer to an array's first element (C11 6.3.2.1 paragraph 3).
    Decay(TExpr),
    /// The operand in the type of this expression (C11 6.3.1, 6.3.2.3).
    Convert(TExpr),
}

/// What is called.
#[derive(Clone, Copy)]
pub enum Callee {
    /// A function that the program defines, by its number.
    Function(u32),
    /// One that another file defines, by its number among the program's externs.
    Extern(u32),
    /// The one that the include line declares.
    Putchar,
    /// Likewise.
    Getchar,
}
