//! The length of an array (C11 6.7.6.2 paragraph 1), and what may stand in an integer constant expression (C11 6.6 paragraph 6).

ghost use Rattle.std.specs.Prelude.{◌≡◌, ◌∷◌, [], IfSome, IfNone, true, false};
ghost use Rattle.c_type_expr.specs.Said as said;
ghost use Rattle.c_type_expr.specs.Expressions as spec;
ghost use Rattle.c_type_expr.specs.Faults.{rule};
ghost use Rattle.c_type_expr.specs.Outcomes.{asked};
ghost use Rattle.c_type_expr.specs.Walked.{Met, Walked};

use crate::walk::Walk;
use c_ast::{Expr, IntType, Node, Span, UnaryOperator};
use c_type_base::{Constancy, Known, int_of, is_negative};

/// The length that an expression gives, where it is an integer constant expression of at least 1.
fn length_known(walk: &mut Walk, span: Span, k: &Known) -> Option<u64>
    ensures { Walked (said.length_known span k.now) walk.old walk.new result }
{
    let length = length_in(int_of(&k.tree.ty), k.constant);
    walk.ask(span, 12, length.is_some());
    length
}

/// The length that an expression gives, whether or not it is known. That a name, a call or a member gives none needs no type.
pub fn length_on(walk: &mut Walk, e: &Expr, k: Option<Known>) -> Option<u64>
    ensures { Met (asked e.now.span (rule 12 (spec.expression e.now).computes ∷ [])) (said.length_known e.now.span) k walk.old walk.new result }
{
    match k {
        None => {
            walk.ask(e.span, 12, computes(e));
            None
        }
        Some(k) => length_known(walk, e.span, &k),
    }
}

/// The length that a constant of a type gives.
fn length_in(t: Option<IntType>, constant: Constancy) -> Option<u64>
    ensures is { IfSome result (λ n. (said.is_length t constant ≡ true) × (n ≡ said.length_in constant)) }
    ensures none { IfNone result (said.is_length t constant ≡ false) }
{
    match t {
        None => None,
        Some(t) => match constant {
            Constancy::Is(n) => {
                if 1 <= n && !is_negative(t, n) {
                    Some(n)
                } else {
                    None
                }
            }
            _ => None,
        },
    }
}

/// Whether the outermost operator may stand in an integer constant expression.
pub fn computes(e: &Expr) -> bool
    ensures { result ≡ (spec.expression e.now).computes }
{
    match e.node.get() {
        Node::Constant(_, _) => true,
        Node::Paren(e) => computes(e),
        Node::Unary(operator, _) => computes_by(*operator),
        Node::Binary(_, _, _) => true,
        Node::Cond(_, _, _) => true,
        Node::Cast(_, _) => true,
        Node::SizeofExpr(_) => true,
        Node::SizeofName(_) => true,
        _ => false,
    }
}

fn computes_by(operator: UnaryOperator) -> bool
    ensures { result ≡ spec.computes_by operator }
{
    match operator {
        UnaryOperator::AddressOf => false,
        UnaryOperator::Dereference => false,
        _ => true,
    }
}
