//! The walk over expressions.

ghost use Rattle.std.specs.Prelude.{◌≡◌, flat_map, map};
ghost use Rattle.slot_safety.specs.Kinds.{marked};
ghost use Rattle.slot_safety.specs.Occurrences as spec;

use crate::constant::{binary_constant, unary_constant};
use crate::kind::Kind;
use crate::mark::{decayed, element, go_on, mark_misused, mark_start, member};
use crate::seen::{Path, Seen};
use c_type_base::{Constancy, StructInfo, TExpr, TNode, Ty, chosen, int_of, wrapped, wrapped_size};

/// An expression that is no path.
fn computes(constant: Constancy) -> Seen
    ensures { result ≡ record { constant = constant; path = Path.Nowhere } }
{
    Seen {
        constant,
        path: Path::Nowhere,
    }
}

/// Tags the locals with an occurrence in an expression that is not harmless, that at the start of
/// its own path aside.
#[cycle(expr)]
fn look(expr: &TExpr, structs: &[StructInfo], kinds: &mut [Kind]) -> Seen
    ensures seen { result ≡ (spec.uses structs.now expr.now).seen }
    ensures kinds { kinds.new ≡ marked kinds.old (spec.uses structs.now expr.now).harmed }
{
    look_at(expr.node.get(), &expr.ty, structs, kinds)
}

/// Tags the locals that are harmed where the value of an expression is used.
#[cycle(expr)]
#[tactic(auto, using(crate::specs::Laws::MarkedLaws::marked_append))]
pub fn spread(expr: &TExpr, structs: &[StructInfo], kinds: &mut [Kind]) -> Constancy
    ensures constant { result ≡ (spec.uses structs.now expr.now).seen.constant }
    ensures kinds { kinds.new ≡ marked kinds.old (spec.harmed_in structs.now expr.now) }
{
    let seen = look(expr, structs, kinds);
    mark_start(seen.path, kinds);
    seen.constant
}

/// Tags the locals that are harmed where an expression is read, written or changed.
#[cycle(expr)]
#[tactic(auto, using(crate::specs::Laws::MarkedLaws::marked_append))]
fn touch(expr: &TExpr, structs: &[StructInfo], kinds: &mut [Kind]) -> Seen
    ensures seen { result ≡ record { constant = Constancy.Varies; path = Path.Nowhere } }
    ensures kinds { kinds.new ≡ marked kinds.old (spec.touched (spec.uses structs.now expr.now)) }
{
    let seen = look(expr, structs, kinds);
    mark_misused(&expr.ty, seen.path, kinds);
    computes(Constancy::Varies)
}

/// Tags the locals that are harmed by the arguments of a call.
#[cycle(expr)]
fn spread_all(arguments: &[TExpr], structs: &[StructInfo], kinds: &mut [Kind]) -> Seen
    ensures seen { result ≡ record { constant = Constancy.Varies; path = Path.Nowhere } }
    ensures kinds { kinds.new ≡ marked kinds.old (flat_map spec.all (map (spec.uses structs.now) arguments.now)) }
{
    for argument in arguments {
        spread(argument, structs, kinds);
    }
    computes(Constancy::Varies)
}

/// The same of a node, by the type of its expression.
#[cycle(expr)]
#[tactic(auto, using(crate::specs::Laws::MarkedLaws::marked_append))]
fn look_at(node: &TNode, ty: &Ty, structs: &[StructInfo], kinds: &mut [Kind]) -> Seen
    ensures seen { result ≡ (spec.node_uses structs.now node.now ty.now).seen }
    ensures kinds { kinds.new ≡ marked kinds.old (spec.node_uses structs.now node.now ty.now).harmed }
{
    match node {
        TNode::Constant(value, _) => computes(Constancy::Is(*value)),
        TNode::Local(local) => Seen {
            constant: Constancy::Varies,
            path: Path::Object(*local),
        },
        TNode::Text(_) | TNode::Global(_) | TNode::Extern(_) => computes(Constancy::Varies),
        TNode::Paren(inner) => look(inner, structs, kinds),
        TNode::Unary(operator, operand) => {
            let constant = spread(operand, structs, kinds);
            computes(unary_constant(*operator, &operand.ty, constant))
        }
        TNode::Binary(operator, left, right) => {
            let first = spread(left, structs, kinds);
            let second = spread(right, structs, kinds);
            computes(binary_constant(*operator, &left.ty, first, second))
        }
        TNode::Assign(_, left, right) => {
            touch(left, structs, kinds);
            spread(right, structs, kinds);
            computes(Constancy::Varies)
        }
        TNode::Cond(condition, then, other) => {
            let condition = spread(condition, structs, kinds);
            let then = spread(then, structs, kinds);
            let other = spread(other, structs, kinds);
            computes(chosen(condition, then, other))
        }
        TNode::Cast(target, operand) => {
            let constant = spread(operand, structs, kinds);
            computes(wrapped(int_of(target), constant))
        }
        TNode::Convert(operand) => {
            let constant = spread(operand, structs, kinds);
            computes(wrapped(int_of(ty), constant))
        }
        TNode::SizeofExpr(operand) => computes(Constancy::Is(wrapped_size(&operand.ty, structs))),
        TNode::SizeofName(target) => computes(Constancy::Is(wrapped_size(target, structs))),
        TNode::Call(_, arguments) => spread_all(arguments.as_slice(), structs, kinds),
        TNode::Index(array, at) => {
            let before = look(array, structs, kinds).path;
            let constant = spread(at, structs, kinds);
            go_on(before, element(before, constant), kinds)
        }
        TNode::Member(object, _) => {
            let before = look(object, structs, kinds).path;
            go_on(before, member(before), kinds)
        }
        TNode::Arrow(pointer, _) => {
            spread(pointer, structs, kinds);
            computes(Constancy::Varies)
        }
        TNode::Step(_, operand) => touch(operand, structs, kinds),
        TNode::Read(object) => touch(object, structs, kinds),
        TNode::Decay(array) => {
            let before = look(array, structs, kinds).path;
            go_on(before, decayed(&array.ty, before), kinds)
        }
    }
}
