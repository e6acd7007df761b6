//! `[ ]`, `.` and `->` (C11 6.5.2.1, 6.5.2.3).

ghost use Rattle.std.specs.Prelude.{◌≡◌, IfOk, option_copied};
ghost use Rattle.c_type_base.specs.Layout.{members_of};
ghost use Rattle.c_type_expr.specs.Operators.{sort_of};
ghost use Rattle.c_type_expr.specs.Postfix as spec;
ghost use Rattle.c_type_base.specs.Types.{struct_of, target_of};
ghost use Rattle.c_type_expr.specs.Walked.{Walked};

use crate::address::index_fixed;
use crate::rows::operand::{Operand, operand_of};
use crate::walk::Walk;
use c_ast::{Name, Span};
use c_type_base::{
    Fixed, Known, MemberInfo, StructInfo, TNode, Ty, copy_ty, designates, has_body, struct_of,
    texpr,
};
use sqlite_items::at;
use std::alloc::{AllocError, Global};

/// `a [ i ]`, in either order
pub fn index(
    walk: &mut Walk,
    alloc: Global,
    span: Span,
    a: Known,
    i: Known,
) -> Result<Option<Known>, AllocError>
    ensures { IfOk result (λ k. Walked (spec.index_row span a i (sort_of a) (sort_of i)) walk.old walk.new k) }
{
    match operand_of(&a.tree.ty) {
        Operand::Points(target) => match operand_of(&i.tree.ty) {
            Operand::Integer(_) => {
                let fixed = index_fixed(walk.structs.as_slice(), target, &a, &i);
                walk.ask_target(span, target);
                let ty = copy_ty(alloc, target)?;
                let tree = texpr(alloc, span, ty, TNode::Index(a.tree, i.tree))?;
                Ok(Some(designates(tree, fixed)))
            }
            _ => Ok(walk.misfit(span)),
        },
        Operand::Integer(_) => match operand_of(&i.tree.ty) {
            Operand::Points(target) => {
                let fixed = index_fixed(walk.structs.as_slice(), target, &i, &a);
                walk.ask_target(span, target);
                let ty = copy_ty(alloc, target)?;
                let tree = texpr(alloc, span, ty, TNode::Index(a.tree, i.tree))?;
                Ok(Some(designates(tree, fixed)))
            }
            _ => Ok(walk.misfit(span)),
        },
        Operand::Neither => Ok(walk.misfit(span)),
    }
}

/// The members of a struct, or none where it is not there.
fn members_of(info: Option<&StructInfo>) -> &[MemberInfo]
    ensures { result.now ≡ members_of (option_copied info.entry) }
{
    match info {
        Some(info) => info.members.as_slice(),
        None => &[],
    }
}

/// The number of the first member with a name.
fn member_number(members: &[MemberInfo], name: &[u8]) -> Option<usize>
    ensures { result ≡ spec.member_number members.now name.now }
{
    members.iter().position(|m| m.name.as_slice() == name)
}

/// The address of a member of what stands at an address.
fn member_fixed(member: &MemberInfo, fixed: Option<Fixed>) -> Option<Fixed>
    ensures { result ≡ spec.member_fixed member.now fixed }
{
    match fixed {
        None => None,
        Some(fixed) => Some(Fixed {
            target: fixed.target,
            offset: fixed.offset.wrapping_add(member.offset),
        }),
    }
}

fn member_known(
    alloc: Global,
    span: Span,
    e: Known,
    number: u32,
    member: &MemberInfo,
) -> Result<Known, AllocError>
    ensures { IfOk result (λ k. k ≡ spec.member_known span e number member.now) }
{
    let Known {
        tree,
        lvalue,
        constant,
        fixed,
        path,
    } = e;
    let fixed = if path {
        member_fixed(member, fixed)
    } else {
        None
    };
    let ty = copy_ty(alloc, &member.ty)?;
    let tree = texpr(alloc, span, ty, TNode::Member(tree, number))?;
    Ok(Known {
        tree,
        lvalue,
        constant,
        fixed,
        path,
    })
}

fn arrow_known(
    alloc: Global,
    span: Span,
    e: Known,
    number: u32,
    member: &MemberInfo,
) -> Result<Known, AllocError>
    ensures { IfOk result (λ k. k ≡ spec.arrow_known span e number member.now) }
{
    let ty = copy_ty(alloc, &member.ty)?;
    let tree = texpr(alloc, span, ty, TNode::Arrow(e.tree, number))?;
    Ok(designates(tree, None))
}

/// `e . name`. More members than a number can tell count as want of memory.
pub fn member(
    walk: &mut Walk,
    alloc: Global,
    span: Span,
    e: Known,
    name: &Name,
) -> Result<Option<Known>, AllocError>
    ensures { IfOk result (λ k. Walked (spec.member_row span e name.now (struct_of e.tree.ty)) walk.old walk.new k) }
{
    let Some(which) = struct_of(&e.tree.ty) else {
        return Ok(walk.misfit(span));
    };
    let info = at(walk.structs.as_slice(), which as usize);
    if !has_body(info) {
        walk.ask(span, 15, false);
        return Ok(None);
    }
    let members = members_of(info);
    let Some(number) = member_number(members, name.as_slice()) else {
        walk.ask(span, 18, false);
        return Ok(None);
    };
    let Some(found) = at(members, number) else {
        walk.ask(span, 18, false);
        return Ok(None);
    };
    let Ok(number) = u32::try_from(number) else {
        return Err(AllocError);
    };
    Ok(Some(member_known(alloc, span, e, number, found)?))
}

/// `e -> name`, of a value
pub fn arrow(
    walk: &mut Walk,
    alloc: Global,
    span: Span,
    e: Known,
    name: &Name,
) -> Result<Option<Known>, AllocError>
    ensures { IfOk result (λ k. Walked (spec.arrow_row span e name.now (spec.struct_pointed (target_of e.tree.ty))) walk.old walk.new k) }
{
    let Some(which) = struct_pointed(&e.tree.ty) else {
        return Ok(walk.misfit(span));
    };
    let info = at(walk.structs.as_slice(), which as usize);
    if !has_body(info) {
        walk.ask(span, 15, false);
        return Ok(None);
    }
    let members = members_of(info);
    let Some(number) = member_number(members, name.as_slice()) else {
        walk.ask(span, 18, false);
        return Ok(None);
    };
    let Some(found) = at(members, number) else {
        walk.ask(span, 18, false);
        return Ok(None);
    };
    let Ok(number) = u32::try_from(number) else {
        return Err(AllocError);
    };
    Ok(Some(arrow_known(alloc, span, e, number, found)?))
}

/// The struct that a pointer points to.
fn struct_pointed(ty: &Ty) -> Option<u32>
    ensures { result ≡ spec.struct_pointed (target_of ty.now) }
{
    match ty {
        Ty::Pointer(target) => struct_of(target.get()),
        _ => None,
    }
}
