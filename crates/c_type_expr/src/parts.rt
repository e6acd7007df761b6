//! What comes of the parts of a construct: nothing where one is not known, and else its row.

ghost use Rattle.std.specs.Prelude.{◌≡◌, IfOk, None, Some};
ghost use Rattle.c_type_expr.specs.Outcomes.{option_map};
ghost use Rattle.c_type_base.specs.Known as meant;
ghost use Rattle.c_type_expr.specs.Operators.{cond_judged, sort_of};
ghost use Rattle.c_type_expr.specs.Parts.{binary_values, call_by, cond_values, not_called_by};
ghost use Rattle.c_type_expr.specs.Outcomes.{pair};
ghost use Rattle.c_type_expr.specs.Postfix as postfix;
ghost use Rattle.c_type_expr.specs.Expressions as spec;
ghost use Rattle.c_type_expr.specs.Said as said;
ghost use Rattle.c_type_expr.specs.Sorted.{listed_items, with_known};
ghost use Rattle.c_type_base.specs.Types.{struct_of};
ghost use Rattle.c_type_expr.specs.Walked.{Followed, Walked};

use crate::rows::assign::{assign, step};
use crate::rows::binary::binary;
use crate::rows::call::{all_values, call_row};
use crate::rows::cond::cond;
use crate::rows::leaf::parentheses;
use crate::rows::postfix::{arrow, index, member};
use crate::rows::unary::{cast, sizeof_expr, sizeof_type, unary};
use crate::scopes::Called;
use crate::type_rows::{array_of, pointer_to, whole};
use crate::walk::Walk;
use c_ast::{AssignOperator, BinaryOperator, Name, Span, Step, UnaryOperator};
use c_type_base::{Known, Ty, Written, value};
use std::alloc::{AllocError, Global};

/// A unary operator.
pub fn unary_on(
    walk: &mut Walk,
    alloc: Global,
    operator: UnaryOperator,
    span: Span,
    e: Option<Known>,
) -> Result<Option<Known>, AllocError>
    ensures { IfOk result (λ k. Followed (spec.unary_row operator span) e walk.old walk.new k) }
{
    match e {
        None => Ok(None),
        Some(e) => { unary(walk, alloc, operator, span, e) }
    }
}

/// `sizeof e`
pub fn sizeof_on(
    walk: &mut Walk,
    alloc: Global,
    span: Span,
    e: Option<Known>,
) -> Result<Option<Known>, AllocError>
    ensures { IfOk result (λ k. Followed (spec.sizeof_row span) e walk.old walk.new k) }
{
    match e {
        None => Ok(None),
        Some(e) => { sizeof_expr(walk, alloc, span, e) }
    }
}

/// `++` or `--`
pub fn step_on(
    walk: &mut Walk,
    alloc: Global,
    operator: Step,
    span: Span,
    e: Option<Known>,
) -> Result<Option<Known>, AllocError>
    ensures { IfOk result (λ k. Followed (λ e. spec.step_row operator span e (sort_of e)) e walk.old walk.new k) }
{
    match e {
        None => Ok(None),
        Some(e) => { step(walk, alloc, operator, span, e) }
    }
}

/// `e . name`
pub fn member_on(
    walk: &mut Walk,
    alloc: Global,
    span: Span,
    e: Option<Known>,
    name: &Name,
) -> Result<Option<Known>, AllocError>
    ensures { IfOk result (λ k. Followed (λ e. postfix.member_row span e name.now (struct_of e.tree.ty)) e walk.old walk.new k) }
{
    match e {
        None => Ok(None),
        Some(e) => member(walk, alloc, span, e, name),
    }
}

/// `e -> name`
pub fn arrow_on(
    walk: &mut Walk,
    alloc: Global,
    span: Span,
    e: Option<Known>,
    name: &Name,
) -> Result<Option<Known>, AllocError>
    ensures { IfOk result (λ k. Followed (λ e. spec.arrow_of span e name.now) e walk.old walk.new k) }
{
    match e {
        None => Ok(None),
        Some(e) => {
            let e = value(alloc, e)?;
            arrow(walk, alloc, span, e, name)
        }
    }
}

/// What is in parentheses.
pub fn parentheses_on(
    alloc: Global,
    span: Span,
    e: Option<Known>,
) -> Result<Option<Known>, AllocError>
    ensures { IfOk result (λ k. k ≡ option_map (spec.in_parentheses span) e) }
{
    match e {
        None => Ok(None),
        Some(e) => Ok(Some(parentheses(alloc, span, e)?)),
    }
}

/// An operator on two values.
pub fn binary_on(
    walk: &mut Walk,
    alloc: Global,
    operator: BinaryOperator,
    span: Span,
    a: Option<Known>,
    b: Option<Known>,
) -> Result<Option<Known>, AllocError>
    ensures { IfOk result (λ k. Followed (binary_values operator span) (pair a b) walk.old walk.new k) }
{
    match a {
        None => Ok(None),
        Some(a) => match b {
            None => Ok(None),
            Some(b) => {
                let a = value(alloc, a)?;
                let b = value(alloc, b)?;
                binary(walk, alloc, operator, span, a, b)
            }
        },
    }
}

/// An assignment.
pub fn assign_on(
    walk: &mut Walk,
    alloc: Global,
    operator: Option<AssignOperator>,
    span: Span,
    a: Option<Known>,
    b: Option<Known>,
) -> Result<Option<Known>, AllocError>
    ensures { IfOk result (λ k. Followed (λ (x, y). spec.assign_row operator span x y) (pair a b) walk.old walk.new k) }
{
    match a {
        None => Ok(None),
        Some(a) => match b {
            None => Ok(None),
            Some(b) => { assign(walk, alloc, operator, span, a, b) }
        },
    }
}

/// `c ? a : b`
pub fn cond_on(
    walk: &mut Walk,
    alloc: Global,
    span: Span,
    c: Option<Known>,
    a: Option<Known>,
    b: Option<Known>,
) -> Result<Option<Known>, AllocError>
    ensures { IfOk result (λ k. Followed (cond_values span) (pair c (pair a b)) walk.old walk.new k) }
{
    match c {
        None => Ok(None),
        Some(c) => match a {
            None => Ok(None),
            Some(a) => match b {
                None => Ok(None),
                Some(b) => cond_value(walk, alloc, span, c, a, b),
            },
        },
    }
}

fn cond_value(
    walk: &mut Walk,
    alloc: Global,
    span: Span,
    c: Known,
    a: Known,
    b: Known,
) -> Result<Option<Known>, AllocError>
    ensures { IfOk result (λ k. Walked (cond_judged span (meant.value c) (meant.value a) (meant.value b)) walk.old walk.new k) }
{
    let c = value(alloc, c)?;
    let a = value(alloc, a)?;
    let b = value(alloc, b)?;
    cond(walk, alloc, span, c, a, b)
}

/// `a [ i ]`
pub fn index_on(
    walk: &mut Walk,
    alloc: Global,
    span: Span,
    a: Option<Known>,
    i: Option<Known>,
) -> Result<Option<Known>, AllocError>
    ensures { IfOk result (λ k. Followed (λ (x, y). spec.index_of span x y) (pair a i) walk.old walk.new k) }
{
    match a {
        None => Ok(None),
        Some(a) => match i {
            None => Ok(None),
            Some(i) => {
                let a = value(alloc, a)?;
                let i = value(alloc, i)?;
                index(walk, alloc, span, a, i)
            }
        },
    }
}

/// A cast.
pub fn cast_on(
    walk: &mut Walk,
    alloc: Global,
    span: Span,
    t: Option<Ty>,
    e: Option<Known>,
) -> Result<Option<Known>, AllocError>
    ensures { IfOk result (λ k. Followed (λ (t, k). spec.cast_row span t (meant.value k)) (pair t e) walk.old walk.new k) }
{
    match t {
        None => Ok(None),
        Some(t) => match e {
            None => Ok(None),
            Some(e) => {
                let e = value(alloc, e)?;
                cast(walk, alloc, span, t, e)
            }
        },
    }
}

/// `sizeof ( type )`
pub fn sizeof_type_on(
    walk: &mut Walk,
    alloc: Global,
    span: Span,
    t: Option<Ty>,
) -> Result<Option<Known>, AllocError>
    ensures { IfOk result (λ k. Followed (spec.sizeof_type span) t walk.old walk.new k) }
{
    match t {
        None => Ok(None),
        Some(t) => sizeof_type(walk, alloc, span, t),
    }
}

/// The type in a cast or behind `sizeof`.
pub fn whole_on(walk: &mut Walk, span: Span, t: Option<Written>) -> Option<Ty>
    ensures { Followed (said.whole span) t walk.old walk.new result }
{
    match t {
        None => None,
        Some(t) => whole(walk, span, t),
    }
}

/// A pointer to a type.
pub fn pointer_on(
    walk: &mut Walk,
    alloc: Global,
    span: Span,
    target: Option<Written>,
) -> Result<Option<Written>, AllocError>
    ensures { IfOk result (λ w. Followed (said.pointer_to span) target walk.old walk.new w) }
{
    match target {
        None => Ok(None),
        Some(target) => pointer_to(walk, alloc, span, target),
    }
}

/// An array whose length is left out.
pub fn open_on(
    walk: &mut Walk,
    alloc: Global,
    span: Span,
    element: Option<Written>,
) -> Result<Option<Written>, AllocError>
    ensures { IfOk result (λ w. Followed (said.array_of span None) element walk.old walk.new w) }
{
    match element {
        None => Ok(None),
        Some(element) => array_of(walk, alloc, span, None, element),
    }
}

/// An array with a length.
pub fn array_on(
    walk: &mut Walk,
    alloc: Global,
    span: Span,
    length: Option<u64>,
    element: Option<Written>,
) -> Result<Option<Written>, AllocError>
    ensures { IfOk result (λ w. Followed (λ (n, element). said.array_of span (Some n) element) (pair length element) walk.old walk.new w) }
{
    match length {
        None => Ok(None),
        Some(length) => match element {
            None => Ok(None),
            Some(element) => array_of(walk, alloc, span, Some(length), element),
        },
    }
}

/// A call of a function's name.
pub fn call_on(
    walk: &mut Walk,
    alloc: Global,
    span: Span,
    called: Called,
    arguments: Option<Vec<Known>>,
) -> Result<Option<Known>, AllocError>
    ensures { IfOk result (λ k. Followed (call_by span called) (listed_items arguments) walk.old walk.new k) }
{
    match arguments {
        None => Ok(None),
        Some(arguments) => call_row(walk, alloc, span, called, arguments),
    }
}

/// The arguments of something that is no function's name.
pub fn not_called(
    walk: &mut Walk,
    span: Span,
    function: Option<Known>,
    arguments: Option<Vec<Known>>,
) -> Option<Known>
    ensures { Followed (not_called_by span) (pair function (listed_items arguments)) walk.old walk.new result }
{
    if let Some(_) = function {
        if let Some(arguments) = arguments {
            walk.ask_both(span, 12, all_values(arguments.as_slice()), 13, false);
        }
    }
    None
}

/// One more value, if all so far are known.
pub fn with_value(
    alloc: Global,
    values: Option<Vec<Known>>,
    known: Option<Known>,
) -> Result<Option<Vec<Known>>, AllocError>
    ensures { IfOk result (λ more. listed_items more ≡ with_known (listed_items values) (option_map meant.value known)) }
{
    let Some(mut values) = values else {
        return Ok(None);
    };
    let Some(known) = known else {
        return Ok(None);
    };
    values.push(value(alloc, known)?)?;
    Ok(Some(values))
}
