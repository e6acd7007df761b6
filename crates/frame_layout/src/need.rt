//! How many words for values in between an expression needs.

ghost use Rattle.std.specs.Prelude.{◌≡◌, map};
ghost use Rattle.frame_layout.specs.Needs as spec;

use c_ast::BinaryOperator;
use c_type_base::{TExpr, TNode};

/// The words while one value waits for a second part.
fn waiting(first: u64, second: u64) -> u64
    ensures { result ≡ spec.waiting first second }
{
    first.max(second.saturating_add(1))
}

/// The words that an expression needs.
#[cycle(need)]
pub fn need(expr: &TExpr) -> u64
    ensures { result ≡ spec.need expr.now }
{
    need_of(expr.node.get())
}

/// The words of two parts of which the first may be all that is evaluated, or waits for the second.
fn need_both(operator: BinaryOperator, first: u64, second: u64) -> u64
    ensures { result ≡ spec.both operator first second }
{
    match operator {
        BinaryOperator::And | BinaryOperator::Or => first.max(second),
        _ => waiting(first, second),
    }
}

/// The words that a call needs: each argument waits for those behind it.
#[cycle(need)]
#[tactic(auto, using(crate::proofs::NeedTurns::arguments_turn))]
fn need_call(arguments: &[TExpr]) -> u64
    ensures { result ≡ spec.arguments (map spec.need arguments.now) }
{
    let mut most = arguments.len() as u64;
    let mut waits: u64 = 0;
    for argument in arguments {
        most = most.max(need(argument).saturating_add(waits));
        waits = waits.saturating_add(1);
    }
    most
}

#[cycle(need)]
fn need_of(node: &TNode) -> u64
    ensures { result ≡ spec.node_need node.now }
{
    match node {
        TNode::Constant(_, _)
        | TNode::Text(_)
        | TNode::Local(_)
        | TNode::Global(_)
        | TNode::Extern(_)
        | TNode::SizeofExpr(_)
        | TNode::SizeofName(_) => 0,
        TNode::Paren(operand) => need(operand),
        TNode::Unary(_, operand) => need(operand),
        TNode::Binary(operator, left, right) => need_both(*operator, need(left), need(right)),
        TNode::Assign(_, left, right) => waiting(need(left), need(right)),
        TNode::Cond(condition, then, other) => need(condition).max(need(then).max(need(other))),
        TNode::Cast(_, operand) => need(operand),
        TNode::Call(_, arguments) => need_call(arguments.as_slice()),
        TNode::Index(array, index) => waiting(need(array), need(index)),
        TNode::Member(object, _) => need(object),
        TNode::Arrow(pointer, _) => need(pointer),
        TNode::Step(_, operand) => need(operand),
        TNode::Read(object) => need(object),
        TNode::Decay(array) => need(array),
        TNode::Convert(operand) => need(operand),
    }
}
