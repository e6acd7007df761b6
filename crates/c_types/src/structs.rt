//! Struct declarations (C11 6.7.2.1, 6.7.2.3).

ghost use Rattle.std.specs.Prelude.{◌≡◌, ◌<◌, [], ◌++◌, length, IfOk, OnOk, Some, not};
ghost use Rattle.std.specs.List.{list_any};
ghost use Rattle.std.specs.Str.{bytes_eq};
ghost use Rattle.c_type_expr.specs.Environment.{tag_number};
ghost use Rattle.c_type_expr.specs.Walked.{Walked};
ghost use Rattle.c_types.specs.Standing.{Stands};
ghost use Rattle.c_types.specs.Structs as spec;
ghost use Rattle.c_types.specs.Units as said;
ghost use Rattle.c_types.specs.Units.{Judgement};

use crate::body::{Member, struct_with};
use crate::types::whole_type;
use c_ast::{Decl, Name, StructDecl};
use c_type_base::{StructInfo, Ty, has_body};
use c_type_expr::{Walk, tag_number};
use c_type_stmt::ask_object;
use sqlite_items::{Items, at};
use std::alloc::{AllocError, Global};

/// A struct's declaration. The error is want of memory.
pub fn struct_judged(walk: &mut Walk, alloc: Global, d: &StructDecl) -> Result<(), AllocError>
    ensures { OnOk result ((j : Judgement) → Stands walk.old j → Stands walk.new (said.struct_judged j d.now)) }
{
    let number = declare_tag(walk, alloc, &d.name)?;
    match &d.members {
        None => Ok(()),
        Some(decls) => body(walk, alloc, number, d, decls.as_slice()),
    }
}

/// The number of a tag, which is declared here where it is not yet.
fn declare_tag(walk: &mut Walk, alloc: Global, tag: &Name) -> Result<usize, AllocError>
    ensures is { IfOk result (λ number. Some number ≡ tag_number walk.new.structs tag.now) }
    ensures within { IfOk result (λ number. number < length walk.new.structs) }
    ensures stands { OnOk result ((j : Judgement) → Stands walk.old j →
        Stands walk.new (said.with_tag j tag.now (tag_number j.env.structs tag.now))) }
{
    let number = walk.structs.len();
    if let Some(number) = tag_number(walk.structs.as_slice(), tag.as_slice()) {
        return Ok(number);
    }
    let name = tag.copy(alloc)?;
    walk.structs.push(StructInfo {
        name,
        members: Items::new(alloc),
        bytes: 0,
        align: 1,
    })?;
    Ok(number)
}

/// The body of the tag of a number.
fn body(
    walk: &mut Walk,
    alloc: Global,
    number: usize,
    d: &StructDecl,
    decls: &[Decl],
) -> Result<(), AllocError>
    requires { number < length walk.old.structs }
    ensures { OnOk result ((j : Judgement) → Stands walk.old j → Stands walk.new (said.with_body j d.now (Some number) decls.now)) }
{
    let members = members(walk, alloc, decls)?;
    // At file scope there are no locals.
    walk.locals = Items::new(alloc);
    let name = d.name.copy(alloc)?;
    let info = struct_with(alloc, walk.structs.as_slice(), name, members)?;
    let new = !has_body(at(walk.structs.as_slice(), number));
    walk.ask_both(d.span, 10, new, 17, info.bytes <= 16777216);
    walk.structs.set(number, info);
    Ok(())
}

/// The members whose types are known.
fn members(walk: &mut Walk, alloc: Global, decls: &[Decl]) -> Result<Vec<Member>, AllocError>
    ensures { IfOk result (λ ms. Walked (spec.members [] decls.now) walk.old walk.new (Some ms.items)) }
{
    let mut found = Vec::new(alloc);
    for (i, d) in decls.iter().enumerate() {
        let new = is_new_member(&decls[..i], d.name.as_slice());
        let known = member(walk, alloc, new, d)?;
        found = with_member(alloc, found, &d.name, known)?;
    }
    Ok(found)
}

/// One more member, where its type is known.
fn with_member(
    alloc: Global,
    mut found: Vec<Member>,
    name: &Name,
    known: Option<Ty>,
) -> Result<Vec<Member>, AllocError>
    ensures { IfOk result (λ more. more.items ≡ found.items ++ spec.found_member name.now known) }
{
    let Some(ty) = known else {
        return Ok(found);
    };
    let name = name.copy(alloc)?;
    found.push(Member { name, ty })?;
    Ok(found)
}

/// Whether no earlier member has the name.
fn is_new_member(earlier: &[Decl], name: &[u8]) -> bool
    ensures { result ≡ not (list_any (λ d. bytes_eq name.now d.name) earlier.now) }
{
    !has_name(earlier, name)
}

fn has_name(decls: &[Decl], name: &[u8]) -> bool
    ensures { result ≡ list_any (λ d. bytes_eq name.now d.name) decls.now }
{
    decls.iter().any(|d| name == d.name.as_slice())
}

/// A member: its type, and then its rules.
fn member(walk: &mut Walk, alloc: Global, new: bool, d: &Decl) -> Result<Option<Ty>, AllocError>
    ensures { IfOk result (λ t. Walked (spec.member new d.now) walk.old walk.new t) }
{
    let t = whole_type(walk, alloc, &d.ty, d.span)?;
    ask_object(walk, d.span, new, t.as_ref());
    Ok(t)
}
