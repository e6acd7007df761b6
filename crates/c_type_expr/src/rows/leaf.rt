//! Names, constants and texts (C11 6.5.1).

ghost use Rattle.std.specs.Prelude.{◌≡◌, ◌∷◌, ◌++◌, [], IfOk};
ghost use Rattle.c_type_expr.specs.Environment.{node_at, target_at};
ghost use Rattle.c_type_expr.specs.Expressions.{in_parentheses};
ghost use Rattle.c_type_expr.specs.Said as spec;
ghost use Rattle.c_type_expr.specs.Walked.{Walked};

use crate::scopes::{Meaning, Place};
use crate::walk::Walk;
use c_ast::{Bytes, IntType, Name, Span};
use c_type_base::{Constancy, Fixed, Known, TNode, Target, Ty, copy_ty, designates, plain, texpr};
use sqlite_items::Boxed;
use std::alloc::{AllocError, Global};

/// An integer constant.
pub fn constant(alloc: Global, span: Span, n: u64, t: IntType) -> Result<Known, AllocError>
    ensures { IfOk result (λ k. k ≡ spec.constant_known span n t) }
{
    let tree = texpr(alloc, span, Ty::Int(t), TNode::Constant(n, t))?;
    Ok(plain(tree, Constancy::Is(n)))
}

/// What is in parentheses.
pub fn parentheses(alloc: Global, span: Span, k: Known) -> Result<Known, AllocError>
    ensures { IfOk result (λ p. p ≡ in_parentheses span k) }
{
    let Known {
        tree,
        lvalue,
        constant,
        fixed,
        path,
    } = k;
    let ty = copy_ty(alloc, &tree.ty)?;
    let tree = texpr(alloc, span, ty, TNode::Paren(tree))?;
    Ok(Known {
        tree,
        lvalue,
        constant,
        fixed,
        path,
    })
}

fn place_node(place: Place) -> TNode
    ensures { result ≡ node_at place }
{
    match place {
        Place::Local(number) => TNode::Local(number),
        Place::Global(number) => TNode::Global(number),
        Place::Extern(number) => TNode::Extern(number),
    }
}

fn place_target(place: Place) -> Option<Target>
    ensures { result ≡ target_at place }
{
    match place {
        Place::Local(_) => None,
        Place::Global(number) => Some(Target::Global(number)),
        Place::Extern(number) => Some(Target::Extern(number)),
    }
}

fn fixed_at(target: Option<Target>) -> Option<Fixed>
    ensures { result ≡ spec.fixed_at target }
{
    match target {
        None => None,
        Some(target) => Some(Fixed {
            target: Some(target),
            offset: 0,
        }),
    }
}

/// An object by its name.
fn object(alloc: Global, span: Span, place: Place, ty: &Ty) -> Result<Known, AllocError>
    ensures { IfOk result (λ k. k ≡ spec.object_known span place ty.now) }
{
    let ty = copy_ty(alloc, ty)?;
    let tree = texpr(alloc, span, ty, place_node(place))?;
    Ok(designates(tree, fixed_at(place_target(place))))
}

/// A name that is not called.
pub fn variable(
    walk: &mut Walk,
    alloc: Global,
    span: Span,
    name: &Name,
) -> Result<Option<Known>, AllocError>
    ensures { IfOk result (λ k. Walked (spec.variable name.now span) walk.old walk.new k) }
{
    match walk.scopes.find(name.as_slice()) {
        None => {
            walk.ask(span, 9, false);
            Ok(None)
        }
        Some(binding) => match &binding.means {
            Meaning::Object(place, Some(ty)) => Ok(Some(object(alloc, span, *place, ty)?)),
            Meaning::Object(_, None) => Ok(None),
            Meaning::Function(_, _) => {
                walk.ask(span, 13, false);
                Ok(None)
            }
            Meaning::Eof => Ok(Some(constant(alloc, span, 18446744073709551615, IntType::Int)?)),
        },
    }
}

/// The bytes of a text with the final zero.
pub fn text_bytes(alloc: Global, bytes: &Bytes) -> Result<Bytes, AllocError>
    ensures { IfOk result (λ all. all ≡ bytes.now ++ 0 ∷ []) }
{
    let mut all = Vec::from_slice(alloc, bytes.as_slice())?;
    all.push(0)?;
    Ok(Bytes::from_vec(all))
}

fn text_known(alloc: Global, span: Span, length: u64, number: u32) -> Result<Known, AllocError>
    ensures { IfOk result (λ k. k ≡ spec.text_known span length number) }
{
    let char = Boxed::new(alloc, Ty::Int(IntType::Char))?;
    let tree = texpr(alloc, span, Ty::Array(char, length), TNode::Text(number))?;
    Ok(designates(tree, fixed_at(Some(Target::Text(number)))))
}

/// A text, an array of char with the final zero. More texts than a number can tell count as want of memory.
pub fn text(
    walk: &mut Walk,
    alloc: Global,
    span: Span,
    bytes: &Bytes,
) -> Result<Option<Known>, AllocError>
    ensures { IfOk result (λ k. Walked (spec.text (bytes.now ++ 0 ∷ []) span) walk.old walk.new k) }
{
    let Ok(number) = u32::try_from(walk.texts.len()) else {
        return Err(AllocError);
    };
    let bytes = text_bytes(alloc, bytes)?;
    let length = bytes.as_slice().len() as u64;
    let known = text_known(alloc, span, length, number)?;
    walk.texts.push(bytes)?;
    walk.ask(span, 17, length <= 16777216);
    Ok(Some(known))
}
