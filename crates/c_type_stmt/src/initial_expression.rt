//! Expressions as initialisers (C11 6.7.9 paragraphs 4, 11, 13 and 14).

ghost use Rattle.std.specs.Prelude.{◌≡◌, ◌∷◌, ◌++◌, [], IfOk, option_copied};
ghost use Rattle.c_type_base.specs.declared.ty.Ty.{out-Ty};
ghost use Rattle.c_ast.specs.declared.expr.Node.{out-Node};
ghost use Rattle.c_type_expr.specs.Expressions as said;
ghost use Rattle.c_type_expr.specs.Outcomes.{option_map};
ghost use Rattle.c_type_stmt.specs.Initials as spec;
ghost use Rattle.c_type_stmt.specs.Slots.{text_row, no_text_row, scalar_row};
ghost use Rattle.c_type_expr.specs.Walked.{Walked};

use crate::first_bytes::{byte_pieces, scalar_pieces};
use crate::fitted::Fitted;
use c_ast::{Bytes, Expr, IntType, Node, Span};
use c_type_base::{
    Constancy, Known, TInit, Ty, assignable, converted, is_char_type, is_null, is_value, value,
};
use c_type_expr::{Walk, computes, expression, text_bytes};
use std::alloc::{AllocError, Global};

/// Whether it is the constant 0 of type int.
pub fn is_int_zero(e: &Expr) -> bool
    ensures { result ≡ spec.is_int_zero (out-Node e.now.node) }
{
    match e.node.get() {
        Node::Constant(0, IntType::Int) => true,
        _ => false,
    }
}

/// Whether an object that lives from the start may begin with the value.
fn may_begin(from_start: bool, t: &Ty, k: &Known) -> bool
    ensures { result ≡ spec.may_begin from_start t.now k.now }
{
    if !from_start {
        return true;
    }
    match t {
        Ty::Int(_) => is_constant(k.constant),
        Ty::Pointer(_) => is_null(k) || k.fixed.is_some(),
        _ => false,
    }
}

fn is_constant(constant: Constancy) -> bool
    ensures { result ≡ spec.is_constant constant }
{
    match constant {
        Constancy::Is(_) => true,
        _ => false,
    }
}

/// Whether an expression whose type is not known may be an initialiser of a type that is no array.
fn may_fit(from_start: bool, computes: bool, t: &Ty) -> bool
    ensures { result ≡ spec.may_fit from_start computes (out-Ty t.now) }
{
    match t {
        Ty::Void => false,
        Ty::Int(_) => !from_start || computes,
        Ty::Pointer(_) => true,
        _ => !from_start,
    }
}

/// A value for a scalar, or for a struct of its type.
fn assigned(
    walk: &mut Walk,
    alloc: Global,
    span: Span,
    from_start: bool,
    t: &Ty,
    k: Known,
) -> Result<Fitted, AllocError>
    ensures { IfOk result (λ f. Walked (spec.assigned span from_start t.now k) walk.old walk.new (Some f)) }
{
    let fits = assignable(t, &k) && may_begin(from_start, t, &k);
    walk.ask_both(span, 12, is_value(&k), 16, fits);
    let pieces = scalar_pieces(alloc, t, &k)?;
    let k = converted(alloc, t, k)?;
    Ok(Fitted {
        tree: TInit::One(k.tree),
        pieces,
    })
}

/// A text for an array of so many chars.
#[tactic(auto, using(crate::proofs::ExpressionInitialLaws::text_fits))]
fn spelled(
    walk: &mut Walk,
    alloc: Global,
    span: Span,
    n: u64,
    bytes: &Bytes,
    k: Known,
) -> Result<Fitted, AllocError>
    ensures { IfOk result (λ f. Walked (spec.spelled span n (bytes.now ++ 0 ∷ []) k) walk.old walk.new (Some f)) }
{
    walk.ask(span, 16, bytes.as_slice().len() as u64 <= n);
    let bytes = text_bytes(alloc, bytes)?;
    let pieces = byte_pieces(alloc, bytes.as_slice(), n)?;
    Ok(Fitted {
        tree: TInit::One(k.tree),
        pieces,
    })
}

/// A text alone for an array of chars.
#[tactic(auto, using(crate::proofs::ExpressionInitialLaws::text_unknown, crate::proofs::ExpressionInitialLaws::text_known))]
fn text_for(
    walk: &mut Walk,
    alloc: Global,
    e: &Expr,
    bytes: &Bytes,
    n: u64,
) -> Result<Option<Fitted>, AllocError>
    ensures { IfOk result (λ f. Walked (text_row (said.expression e.now) n (bytes.now ++ 0 ∷ [])) walk.old walk.new f) }
{
    match expression(walk, alloc, e)? {
        None => Ok(None),
        Some(k) => Ok(Some(spelled(walk, alloc, e.span, n, bytes, k)?)),
    }
}

/// No other expression is an initialiser of an array.
#[tactic(auto, using(crate::proofs::ExpressionInitialLaws::no_text_unknown, crate::proofs::ExpressionInitialLaws::no_text_known))]
fn no_text(walk: &mut Walk, alloc: Global, e: &Expr) -> Result<Option<Fitted>, AllocError>
    ensures { IfOk result (λ f. Walked (no_text_row (said.expression e.now)) walk.old walk.new f) }
{
    match expression(walk, alloc, e)? {
        None => {
            walk.ask(e.span, 16, false);
            Ok(None)
        }
        Some(k) => {
            walk.ask_both(e.span, 12, is_value(&k), 16, false);
            Ok(None)
        }
    }
}

/// The bytes of a text that stands alone.
fn text_in(e: &Expr) -> Option<&Bytes>
    ensures { (said.expression e.now).text ≡ option_map (λ text. text ++ 0 ∷ []) (option_copied result) }
{
    match e.node.get() {
        Node::Text(bytes) => Some(bytes),
        _ => None,
    }
}

/// An expression for an array of so many chars, or of others.
fn array_by(
    walk: &mut Walk,
    alloc: Global,
    e: &Expr,
    chars: bool,
    n: u64,
) -> Result<Option<Fitted>, AllocError>
    ensures { IfOk result (λ f.
        Walked (spec.array_by e.now.span (said.expression e.now).judged (said.expression e.now).text chars n) walk.old walk.new f) }
{
    if !chars {
        return no_text(walk, alloc, e);
    }
    match text_in(e) {
        None => no_text(walk, alloc, e),
        Some(bytes) => text_for(walk, alloc, e, bytes, n),
    }
}

/// An expression for a scalar or a struct.
#[tactic(auto, using(crate::proofs::ExpressionInitialLaws::scalar_unfit, crate::proofs::ExpressionInitialLaws::scalar_fit))]
fn scalar_by(
    walk: &mut Walk,
    alloc: Global,
    from_start: bool,
    t: &Ty,
    e: &Expr,
) -> Result<Option<Fitted>, AllocError>
    ensures { IfOk result (λ f. Walked (scalar_row (said.expression e.now) from_start t.now) walk.old walk.new f) }
{
    match expression(walk, alloc, e)? {
        None => {
            walk.ask(e.span, 16, may_fit(from_start, computes(e), t));
            Ok(None)
        }
        Some(k) => {
            let k = value(alloc, k)?;
            Ok(Some(assigned(walk, alloc, e.span, from_start, t, k)?))
        }
    }
}

/// An expression as an initialiser of a type.
pub fn expression_for(
    walk: &mut Walk,
    alloc: Global,
    from_start: bool,
    t: &Ty,
    e: &Expr,
) -> Result<Option<Fitted>, AllocError>
    ensures { IfOk result (λ f. Walked (spec.expression_for (said.expression e.now) from_start t.now (out-Ty t.now)) walk.old walk.new f) }
{
    match t {
        Ty::Array(element, n) => array_by(walk, alloc, e, is_char_type(element.get()), *n),
        _ => scalar_by(walk, alloc, from_start, t, e),
    }
}
