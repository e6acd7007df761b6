//! Expressions made of their parts.

ghost use Rattle.std.specs.Prelude.{◌≡◌, ◌<◌, ◌+◌, ◌^◌, IfOk};
ghost use Rattle.c_parse_expr.specs.Reading.Nodes as spec;

use crate::measured::Measured;
use crate::suffix::Suffix;
use c_ast::{AssignOperator, BinaryOperator, Bytes, Expr, Node, Span, Step, UnaryOperator};
use c_parse_base::TypeRead;
use std::alloc::{AllocError, Global};

/// The bytes of adjacent texts.
pub fn text(alloc: Global, place: Span, bytes: Vec<u8>) -> Result<Measured, AllocError>
    ensures { IfOk result (λ made. made ≡ spec.text_of (bytes.items, place)) }
{
    Ok(Measured {
        tree: Expr::new(alloc, place, Node::Text(Bytes::from_vec(bytes)))?,
        height: 0,
    })
}

/// `( inner )`
pub fn paren(
    alloc: Global,
    left: Span,
    inner: Measured,
    right: Span,
) -> Result<Measured, AllocError>
    requires { inner.height + 1 < 2 ^ 32 }
    ensures { IfOk result (λ made. made ≡ spec.paren_of left (inner, right)) }
{
    let span = Span {
        start: left.start,
        end: right.end,
    };
    Ok(Measured {
        tree: Expr::new(alloc, span, Node::Paren(inner.tree))?,
        height: inner.height + 1,
    })
}

/// `++` or `--`, before an operand.
pub fn step(
    alloc: Global,
    place: Span,
    step: Step,
    operand: Measured,
) -> Result<Measured, AllocError>
    requires { operand.height + 1 < 2 ^ 32 }
    ensures { IfOk result (λ made. made ≡ spec.step_of ((step, place), operand)) }
{
    let span = Span {
        start: place.start,
        end: operand.tree.span.end,
    };
    Ok(Measured {
        tree: Expr::new(alloc, span, Node::Step(step, operand.tree))?,
        height: operand.height + 1,
    })
}

/// `operator operand`
pub fn unary(
    alloc: Global,
    place: Span,
    operator: UnaryOperator,
    operand: Measured,
) -> Result<Measured, AllocError>
    requires { operand.height + 1 < 2 ^ 32 }
    ensures { IfOk result (λ made. made ≡ spec.unary_of ((operator, place), operand)) }
{
    let span = Span {
        start: place.start,
        end: operand.tree.span.end,
    };
    Ok(Measured {
        tree: Expr::new(alloc, span, Node::Unary(operator, operand.tree))?,
        height: operand.height + 1,
    })
}

/// `sizeof operand`
pub fn size_of(alloc: Global, place: Span, operand: Measured) -> Result<Measured, AllocError>
    requires { operand.height + 1 < 2 ^ 32 }
    ensures { IfOk result (λ made. made ≡ spec.size_of place operand) }
{
    let span = Span {
        start: place.start,
        end: operand.tree.span.end,
    };
    Ok(Measured {
        tree: Expr::new(alloc, span, Node::SizeofExpr(operand.tree))?,
        height: operand.height + 1,
    })
}

/// `sizeof ( type )`
pub fn size_name(
    alloc: Global,
    place: Span,
    read: TypeRead,
    right: Span,
) -> Result<Measured, AllocError>
    ensures { IfOk result (λ made. made ≡ spec.size_name_of place (read, right)) }
{
    let span = Span {
        start: place.start,
        end: right.end,
    };
    Ok(Measured {
        tree: Expr::new(alloc, span, Node::SizeofName(read.ty))?,
        height: read.height,
    })
}

/// `( type ) operand`
pub fn cast(
    alloc: Global,
    left: Span,
    parts: (TypeRead, (Span, Measured)),
) -> Result<Measured, AllocError>
    requires { parts.1.1.height + 1 < 2 ^ 32 }
    ensures { IfOk result (λ made. made ≡ spec.cast_of left parts) }
{
    let (read, (_, operand)) = parts;
    let span = Span {
        start: left.start,
        end: operand.tree.span.end,
    };
    let height = read.height.max(operand.height + 1);
    Ok(Measured {
        tree: Expr::new(alloc, span, Node::Cast(read.ty, operand.tree))?,
        height,
    })
}

/// `left operator right`
pub fn binary(
    alloc: Global,
    left: Measured,
    operator: BinaryOperator,
    right: Measured,
) -> Result<Measured, AllocError>
    requires left { left.height + 1 < 2 ^ 32 }
    requires right { right.height + 1 < 2 ^ 32 }
    ensures { IfOk result (λ made. made ≡ spec.binary_of left (operator, right)) }
{
    let span = Span {
        start: left.tree.span.start,
        end: right.tree.span.end,
    };
    let height = left.height.max(right.height) + 1;
    let node = Node::Binary(operator, left.tree, right.tree);
    Ok(Measured {
        tree: Expr::new(alloc, span, node)?,
        height,
    })
}

/// The node of an operand with what follows it, where that ends, and the levels in it.
fn followed(operand: Expr, suffix: Suffix) -> (Node, u32, u32)
    ensures node { result.0 ≡ spec.node_behind operand suffix }
    ensures end { result.1 ≡ spec.end_behind suffix }
    ensures height { result.2 ≡ spec.height_behind suffix }
{
    match suffix {
        Suffix::Index(index, place) => (Node::Index(operand, index.tree), place.end, index.height),
        Suffix::Call(read, place) => (Node::Call(operand, read.trees), place.end, read.height),
        Suffix::Member(member) => (Node::Member(operand, member.name), member.place.end, 0),
        Suffix::Arrow(member) => (Node::Arrow(operand, member.name), member.place.end, 0),
        Suffix::Step(step, place) => (Node::Step(step, operand), place.end, 0),
    }
}

/// An operand with what follows it.
pub fn apply(alloc: Global, operand: Measured, suffix: Suffix) -> Result<Measured, AllocError>
    requires operand { operand.height + 1 < 2 ^ 32 }
    requires suffix { spec.height_behind suffix + 1 < 2 ^ 32 }
    ensures { IfOk result (λ made. made ≡ spec.applied operand suffix) }
{
    let start = operand.tree.span.start;
    let (node, end, height) = followed(operand.tree, suffix);
    let height = operand.height.max(height) + 1;
    Ok(Measured {
        tree: Expr::new(alloc, Span { start, end }, node)?,
        height,
    })
}

/// `condition ? chosen : other`
pub fn choice(
    alloc: Global,
    condition: Measured,
    branches: (Measured, (Span, Measured)),
) -> Result<Measured, AllocError>
    requires condition { condition.height + 1 < 2 ^ 32 }
    requires chosen { branches.0.height + 1 < 2 ^ 32 }
    requires other { branches.1.1.height + 1 < 2 ^ 32 }
    ensures { IfOk result (λ made. made ≡ spec.choice_of condition branches) }
{
    let (chosen, (_, other)) = branches;
    let span = Span {
        start: condition.tree.span.start,
        end: other.tree.span.end,
    };
    let height = condition.height.max(chosen.height.max(other.height)) + 1;
    let node = Node::Cond(condition.tree, chosen.tree, other.tree);
    Ok(Measured {
        tree: Expr::new(alloc, span, node)?,
        height,
    })
}

/// `left operator right`, where `=` is no operator.
pub fn assign(
    alloc: Global,
    left: Measured,
    operator: Option<AssignOperator>,
    right: Measured,
) -> Result<Measured, AllocError>
    requires left { left.height + 1 < 2 ^ 32 }
    requires right { right.height + 1 < 2 ^ 32 }
    ensures { IfOk result (λ made. made ≡ spec.assign_of left (operator, right)) }
{
    let span = Span {
        start: left.tree.span.start,
        end: right.tree.span.end,
    };
    let height = left.height.max(right.height) + 1;
    let node = Node::Assign(operator, left.tree, right.tree);
    Ok(Measured {
        tree: Expr::new(alloc, span, node)?,
        height,
    })
}
