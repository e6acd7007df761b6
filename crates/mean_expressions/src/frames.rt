//! What a run does next, and what waits for that on its stack.

use block_meaning::{Pointer, Value};
use c_ast::{AssignOperator, BinaryOperator, Span, Step, UnaryOperator};
use c_type_base::{Callee, MemberInfo, TDecl, TExpr, TInit, TItem, TStmt, Ty};
use mean_effects::{Here, Object};

/// What stands in the parentheses of a `for`.
#[derive(Clone, Copy)]
pub struct Heading<'a> {
    pub declared: &'a [TDecl],
    pub first: Option<&'a TExpr>,
    pub condition: Option<&'a TExpr>,
    pub next: Option<&'a TExpr>,
}

/// A loop: its condition or its heading, and its body.
#[derive(Clone, Copy)]
pub enum Loop<'a> {
    While(&'a TExpr, &'a TStmt),
    DoWhile(&'a TStmt, &'a TExpr),
    For(Heading<'a>, &'a TStmt),
}

/// How a statement is left.
#[derive(Clone, Copy)]
pub enum Flow {
    /// To what follows it.
    Next,
    Broke,
    Continued,
    Returned(Value),
}

/// What is done next, or what was done.
#[derive(Drop)]
pub enum Control<'a> {
    /// The value of an expression, where it stands in parentheses of this span.
    Evaluate(Span, &'a TExpr),
    /// The place of what an expression designates.
    Locate(&'a TExpr),
    Execute(&'a TStmt),
    Declare(&'a [TDecl]),
    Fill(Object<'a>, &'a TInit),
    GivesValue(Value),
    GivesPlace(Pointer),
    GivesFlow(Flow),
    Finished,
    /// A call, whose unit of work was spent, of an expression of this span with the values of its arguments.
    Call(Span, Callee, Vec<Value>),
}

/// A part of an expression that waits for the value of an operand.
#[derive(Drop)]
pub enum OperandFrame<'a> {
    Unary(UnaryOperator, &'a TExpr),
    LogicalFirst(bool, &'a TExpr, &'a TExpr),
    LogicalSecond(&'a TExpr),
    BinaryLeft(Span, BinaryOperator, &'a TExpr, &'a TExpr),
    BinaryRight(Span, BinaryOperator, &'a TExpr, &'a TExpr, Value),
    AssignRight(Span, Option<AssignOperator>, &'a TExpr, &'a TExpr, Pointer),
    Condition(&'a TExpr, &'a TExpr, &'a TExpr),
    CastTo(&'a Ty),
    ConvertTo(&'a Ty),
    /// The arguments that were evaluated, and those that are left.
    Argument(Span, Callee, Vec<Value>, &'a [TExpr]),
    PointerIn,
    Dereferenced,
    IndexLeft(&'a Ty, &'a TExpr),
    IndexRight(&'a Ty, Value),
    ArrowTo(&'a TExpr, u32),
}

/// A part of an expression that waits for a place.
#[derive(Clone, Copy)]
pub enum PlaceFrame<'a> {
    Addressed,
    AssignLeft(Span, Option<AssignOperator>, &'a TExpr, &'a TExpr),
    Stepped(Step, &'a TExpr),
    ReadFrom(&'a TExpr),
    Decayed,
    MemberAt(&'a TExpr, u32),
    /// By the span of the parentheses round it, and its type.
    MemberRead(&'a TExpr, u32, Span, &'a Ty),
}

/// A part of a statement or of an initialiser that waits for a value.
#[derive(Clone, Copy)]
pub enum ValueFrame<'a> {
    Effect,
    Drop,
    IfTest(&'a TExpr, &'a TStmt, Option<&'a TStmt>),
    Test(Loop<'a>, &'a TExpr),
    ThenTurn(Loop<'a>),
    Return,
    FillStruct(Object<'a>, &'a TExpr),
    FillScalar(Object<'a>, &'a TExpr),
}

/// What declares the locals of a scope.
#[derive(Clone, Copy)]
pub enum Declarations<'a> {
    Block(&'a [TItem]),
    For(&'a [TDecl]),
}

/// What waits for the end of a statement.
#[derive(Clone, Copy)]
pub enum FlowFrame<'a> {
    Items(&'a [TItem]),
    /// The locals that end with the scope.
    Scope(Declarations<'a>),
    Body(Loop<'a>),
    /// What was outside the call, and the result's type.
    Called(Here<'a>, &'a Ty),
}

/// What waits for the end of a declaration or of an initialiser.
#[derive(Clone, Copy)]
pub enum DoneFrame<'a> {
    Declared(&'a [TDecl]),
    AfterDeclarations,
    ForDeclared(Heading<'a>, &'a TStmt),
    /// The first element, the number of the next, and the initialisers that are left.
    Elements(Object<'a>, u64, &'a [TInit]),
    Members(Pointer, &'a [MemberInfo], &'a [TInit]),
}

/// What waits.
#[derive(Drop)]
pub enum Frame<'a> {
    OnOperand(OperandFrame<'a>),
    OnPlace(PlaceFrame<'a>),
    OnValue(ValueFrame<'a>),
    OnFlow(FlowFrame<'a>),
    OnDone(DoneFrame<'a>),
}
