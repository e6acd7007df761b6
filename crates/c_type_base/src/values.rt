//! Values of expressions, and what they may be assigned to (C11 6.3.2.1, 6.5.16.1).

ghost use Rattle.std.specs.Prelude.{◌≡◌, IfOk};
ghost use Rattle.c_type_base.specs.Known as spec;

use crate::constant::{is_zero, wrapped};
use crate::expr::{TExpr, TNode};
use crate::kinds::{
    copy_ty, int_of, is_array, is_integer, is_pointer, is_struct, is_void, same_type,
};
use crate::known::{Constancy, Fixed, Known};
use crate::ty::Ty;
use c_ast::Span;
use sqlite_items::Boxed;
use std::alloc::{AllocError, Global};

/// Puts a node on the heap.
pub fn texpr(alloc: Global, span: Span, ty: Ty, node: TNode) -> Result<TExpr, AllocError>
    ensures { IfOk result (λ t. t ≡ spec.texpr span ty node) }
{
    let node = Boxed::new(alloc, node)?;
    Ok(TExpr { span, ty, node })
}

/// A value that no address constant has.
pub fn plain(tree: TExpr, constant: Constancy) -> Known
    ensures { result ≡ spec.plain tree constant }
{
    Known {
        tree,
        lvalue: false,
        constant,
        fixed: None,
        path: false,
    }
}

/// An expression that designates an object.
pub fn designates(tree: TExpr, fixed: Option<Fixed>) -> Known
    ensures { result ≡ spec.designates tree fixed }
{
    Known {
        tree,
        lvalue: true,
        constant: Constancy::Varies,
        fixed,
        path: true,
    }
}

/// The value of an expression.
pub fn value(alloc: Global, k: Known) -> Result<Known, AllocError>
    ensures { IfOk result (λ v. v ≡ spec.value k) }
{
    match &k.tree.ty {
        Ty::Array(element, _) => {
            let element = copy_ty(alloc, element.get())?;
            decay(alloc, k, element)
        }
        _ => { if k.lvalue { read(alloc, k) } else { Ok(k) } }
    }
}

/// The pointer to the first element of an array.
fn decay(alloc: Global, k: Known, element: Ty) -> Result<Known, AllocError>
    ensures { IfOk result (λ v. v ≡ spec.decayed element k) }
{
    let Known {
        tree,
        lvalue: _,
        constant,
        fixed,
        path,
    } = k;
    let element = Boxed::new(alloc, element)?;
    let tree = texpr(alloc, tree.span, Ty::Pointer(element), TNode::Decay(tree))?;
    Ok(Known {
        tree,
        lvalue: false,
        constant,
        fixed,
        path,
    })
}

/// The value that is stored in an object.
fn read(alloc: Global, k: Known) -> Result<Known, AllocError>
    ensures { IfOk result (λ v. v ≡ spec.read k) }
{
    let ty = copy_ty(alloc, &k.tree.ty)?;
    let tree = texpr(alloc, k.tree.span, ty, TNode::Read(k.tree))?;
    Ok(plain(tree, Constancy::Varies))
}

/// A value in a type.
pub fn converted(alloc: Global, t: &Ty, k: Known) -> Result<Known, AllocError>
    ensures { IfOk result (λ v. v ≡ spec.converted t.now k) }
{
    if same_type(&k.tree.ty, t) {
        return Ok(k);
    }
    let ty = copy_ty(alloc, t)?;
    convert(alloc, ty, k)
}

fn convert(alloc: Global, t: Ty, k: Known) -> Result<Known, AllocError>
    ensures { IfOk result (λ v. v ≡ spec.as_type t k) }
{
    let Known {
        tree,
        lvalue,
        constant,
        fixed: _,
        path,
    } = k;
    let constant = wrapped(int_of(&t), constant);
    let tree = texpr(alloc, tree.span, t, TNode::Convert(tree))?;
    Ok(Known {
        tree,
        lvalue,
        constant,
        fixed: None,
        path,
    })
}

/// The null constant is an integer constant expression of value 0.
pub fn is_null(k: &Known) -> bool
    ensures { result ≡ spec.is_null k.now }
{
    is_zero(k.constant)
}

/// A void call is no value.
pub fn is_value(k: &Known) -> bool
    ensures { result ≡ spec.is_value k.now }
{
    !is_void(&k.tree.ty)
}

/// Whether a value can be assigned to an object of a type.
pub fn assignable(t: &Ty, k: &Known) -> bool
    ensures { result ≡ spec.assignable t.now k.now }
{
    is_integer(t) && is_integer(&k.tree.ty)
        || is_pointer(t) && (same_type(t, &k.tree.ty) || is_null(k))
        || is_struct(t) && same_type(t, &k.tree.ty)
}

/// Whether it designates an object that is no array.
pub fn is_changeable(k: &Known) -> bool
    ensures { result ≡ spec.is_changeable k.now }
{
    k.lvalue && !is_array(&k.tree.ty)
}
