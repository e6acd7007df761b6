//! Operators of assignment, and what may be assigned to.

ghost use Rattle.std.specs.Prelude.{◌≡◌};
ghost use Rattle.c_parse_expr.specs.Reading.Expressions.{assign_word};
ghost use Rattle.c_parse_expr.specs.Reading.Nodes as spec;
ghost use Rattle.c_parse_expr.specs.Laws.WordCode.{next_word};

use crate::measured::Measured;
use c_ast::{AssignOperator, Node, Punctuator};
use c_parse_base::Cursor;

/// The operator of assignment that comes next, if one does; `=` has none of its own (C11 6.5.16).
pub fn next_assign(cursor: &Cursor<'_, '_>) -> Option<Option<AssignOperator>>
    ensures { result ≡ next_word assign_word cursor.now }
{
    if cursor.sees(Punctuator::Equal) {
        return Some(None);
    }
    if cursor.sees(Punctuator::PlusEqual) {
        return Some(Some(AssignOperator::Add));
    }
    if cursor.sees(Punctuator::MinusEqual) {
        return Some(Some(AssignOperator::Subtract));
    }
    if cursor.sees(Punctuator::StarEqual) {
        return Some(Some(AssignOperator::Multiply));
    }
    if cursor.sees(Punctuator::SlashEqual) {
        return Some(Some(AssignOperator::Divide));
    }
    if cursor.sees(Punctuator::PercentEqual) {
        return Some(Some(AssignOperator::Remainder));
    }
    if cursor.sees(Punctuator::ShiftLeftEqual) {
        return Some(Some(AssignOperator::ShiftLeft));
    }
    if cursor.sees(Punctuator::ShiftRightEqual) {
        return Some(Some(AssignOperator::ShiftRight));
    }
    if cursor.sees(Punctuator::AmpersandEqual) {
        return Some(Some(AssignOperator::BitAnd));
    }
    if cursor.sees(Punctuator::CaretEqual) {
        return Some(Some(AssignOperator::BitXor));
    }
    if cursor.sees(Punctuator::BarEqual) {
        return Some(Some(AssignOperator::BitOr));
    }
    None
}

/// Whether an expression is one that stands before an assignment: no cast, operation, choice or assignment.
pub fn is_assignable(read: &Measured) -> bool
    ensures { result ≡ spec.assignable read.now }
{
    !matches!(
        read.tree.node.get(),
        Node::Binary(_, _, _) | Node::Assign(_, _, _) | Node::Cond(_, _, _) | Node::Cast(_, _)
    )
}
