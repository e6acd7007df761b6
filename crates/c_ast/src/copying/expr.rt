//! Copies of expressions and of types.

ghost use Rattle.std.specs.Prelude.{◌≡◌, IfOk};

use crate::expr::{CType, Expr, Node};
use sqlite_items::{Boxed, Items};
use std::alloc::{AllocError, Global};

#[cycle(expr)]
pub fn copy_expr(alloc: Global, expr: &Expr) -> Result<Expr, AllocError>
    ensures { IfOk result (λ copied. copied ≡ expr.now) }
{
    let node = copy_node(alloc, expr.node.get())?;
    Expr::new(alloc, expr.span, node)
}

#[cycle(expr)]
fn copy_exprs(alloc: Global, exprs: &[Expr]) -> Result<Items<Expr>, AllocError>
    ensures { IfOk result (λ copied. copied ≡ exprs.now) }
{
    let mut copied = Items::new(alloc);
    for expr in exprs {
        copied.push(copy_expr(alloc, expr)?)?;
    }
    Ok(copied)
}

/// An equal type in memory of its own. The error is want of memory.
#[cycle(expr)]
pub fn copy_type(alloc: Global, ty: &CType) -> Result<CType, AllocError>
    ensures { IfOk result (λ copied. copied ≡ ty.now) }
{
    match ty {
        CType::Void => Ok(CType::Void),
        CType::Int(int) => Ok(CType::Int(*int)),
        CType::Struct(tag) => Ok(CType::Struct(tag.copy(alloc)?)),
        CType::Pointer(target) => {
            let target = copy_type(alloc, target.get())?;
            Ok(CType::Pointer(Boxed::new(alloc, target)?))
        }
        CType::Array(element, length) => {
            let element = copy_type(alloc, element.get())?;
            let element = Boxed::new(alloc, element)?;
            match length {
                None => Ok(CType::Array(element, None)),
                Some(length) => Ok(CType::Array(element, Some(copy_expr(alloc, length)?))),
            }
        }
    }
}

#[cycle(expr)]
fn copy_node(alloc: Global, node: &Node) -> Result<Node, AllocError>
    ensures { IfOk result (λ copied. copied ≡ node.now) }
{
    match node {
        Node::Constant(value, ty) => Ok(Node::Constant(*value, *ty)),
        Node::Text(bytes) => Ok(Node::Text(bytes.copy(alloc)?)),
        Node::Variable(name) => Ok(Node::Variable(name.copy(alloc)?)),
        Node::Paren(inner) => Ok(Node::Paren(copy_expr(alloc, inner)?)),
        Node::Unary(operator, operand) => Ok(Node::Unary(*operator, copy_expr(alloc, operand)?)),
        Node::Binary(operator, left, right) => Ok(Node::Binary(
            *operator,
            copy_expr(alloc, left)?,
            copy_expr(alloc, right)?,
        )),
        Node::Assign(operator, left, right) => Ok(Node::Assign(
            *operator,
            copy_expr(alloc, left)?,
            copy_expr(alloc, right)?,
        )),
        Node::Cond(condition, then, other) => Ok(Node::Cond(
            copy_expr(alloc, condition)?,
            copy_expr(alloc, then)?,
            copy_expr(alloc, other)?,
        )),
        Node::Cast(ty, operand) => Ok(Node::Cast(
            copy_type(alloc, ty)?,
            copy_expr(alloc, operand)?,
        )),
        Node::SizeofExpr(operand) => Ok(Node::SizeofExpr(copy_expr(alloc, operand)?)),
        Node::SizeofName(ty) => Ok(Node::SizeofName(copy_type(alloc, ty)?)),
        Node::Call(function, arguments) => Ok(Node::Call(
            copy_expr(alloc, function)?,
            copy_exprs(alloc, arguments.as_slice())?,
        )),
        Node::Index(array, index) => Ok(Node::Index(
            copy_expr(alloc, array)?,
            copy_expr(alloc, index)?,
        )),
        Node::Member(object, member) => Ok(Node::Member(
            copy_expr(alloc, object)?,
            member.copy(alloc)?,
        )),
        Node::Arrow(pointer, member) => Ok(Node::Arrow(
            copy_expr(alloc, pointer)?,
            member.copy(alloc)?,
        )),
        Node::Step(step, operand) => Ok(Node::Step(*step, copy_expr(alloc, operand)?)),
    }
}
