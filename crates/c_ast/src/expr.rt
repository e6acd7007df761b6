//! Expressions, and the types that they and declarations name.

ghost use Rattle.std.specs.Prelude.{◌≡◌, IfOk};
ghost use Rattle.c_ast.specs.Tree.{expr};

use crate::int_type::IntType;
use crate::names::{Bytes, Name};
use crate::operator::{AssignOperator, BinaryOperator, Step, UnaryOperator};
use crate::token::Span;
use sqlite_items::{Boxed, Items};
use std::alloc::{AllocError, Global};

/// A type as it is written (C11 6.7.6): around what `*` and `[ ]` stand on.
#[cycle(expr)]
#[derive(Drop)]
pub enum CType {
    Void,
    Int(IntType),
    /// A struct by its tag.
    Struct(Name),
    Pointer(Boxed<CType>),
    /// The type of an element, and the length where one stands between the brackets.
    Array(Boxed<CType>, Option<Expr>),
}

/// An expression, and where it stands.
#[cycle(expr)]
#[derive(Drop)]
pub struct Expr {
    /// From the first byte of its first token to the end of its last one.
    pub span: Span,
    pub node: Boxed<Node>,
}

impl Expr {
    /// Puts the node on the heap.
    pub fn new(alloc: Global, span: Span, node: Node) -> Result<Expr, AllocError>
        ensures { IfOk result (λ made. made ≡ expr span node) }
    {
        let node = Boxed::new(alloc, node)?;
        Ok(Expr { span, node })
    }
}

/// What an expression is (C11 6.5).
#[cycle(expr)]
#[derive(Drop)]
pub enum Node {
    /// An integer or character constant: its value and its type.
    Constant(u64, IntType),
    /// Adjacent string literals as one, without the final zero.
    Text(Bytes),
    Variable(Name),
    /// `( e )`
    Paren(Expr),
    Unary(UnaryOperator, Expr),
    Binary(BinaryOperator, Expr, Expr),
    /// `left = right`, or a compound assignment.
    Assign(Option<AssignOperator>, Expr, Expr),
    /// `condition ? then : else`
    Cond(Expr, Expr, Expr),
    /// `( type ) e`
    Cast(CType, Expr),
    /// `sizeof e`
    SizeofExpr(Expr),
    /// `sizeof ( type )`
    SizeofName(CType),
    /// What is called, and the arguments.
    Call(Expr, Items<Expr>),
    /// `e [ e ]`
    Index(Expr, Expr),
    /// `e . name`
    Member(Expr, Name),
    /// `e -> name`
    Arrow(Expr, Name),
    /// `++` or `--`
    Step(Step, Expr),
}
