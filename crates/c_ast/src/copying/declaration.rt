//! Copies of declarations.

ghost use Rattle.std.specs.Prelude.{◌≡◌, IfOk};

use crate::copying::expr::{copy_expr, copy_type};
use crate::declaration::{Decl, Init, StructDecl};
use sqlite_items::Items;
use std::alloc::{AllocError, Global};

#[cycle(init)]
fn copy_init(alloc: Global, init: &Init) -> Result<Init, AllocError>
    ensures { IfOk result (λ copied. copied ≡ init.now) }
{
    match init {
        Init::One(value) => Ok(Init::One(copy_expr(alloc, value)?)),
        Init::List(inits, span) => Ok(Init::List(copy_inits(alloc, inits.as_slice())?, *span)),
    }
}

#[cycle(init)]
fn copy_inits(alloc: Global, inits: &[Init]) -> Result<Items<Init>, AllocError>
    ensures { IfOk result (λ copied. copied ≡ inits.now) }
{
    let mut copied = Items::new(alloc);
    for init in inits {
        copied.push(copy_init(alloc, init)?)?;
    }
    Ok(copied)
}

fn copy_decl(alloc: Global, decl: &Decl) -> Result<Decl, AllocError>
    ensures { IfOk result (λ copied. copied ≡ decl.now) }
{
    let name = decl.name.copy(alloc)?;
    let ty = copy_type(alloc, &decl.ty)?;
    let init = match &decl.init {
        None => None,
        Some(init) => Some(copy_init(alloc, init)?),
    };
    Ok(Decl {
        name,
        ty,
        init,
        span: decl.span,
    })
}

pub fn copy_decls(alloc: Global, decls: &[Decl]) -> Result<Items<Decl>, AllocError>
    ensures { IfOk result (λ copied. copied ≡ decls.now) }
{
    let mut copied = Items::new(alloc);
    for decl in decls {
        copied.push(copy_decl(alloc, decl)?)?;
    }
    Ok(copied)
}

pub fn copy_struct(alloc: Global, declared: &StructDecl) -> Result<StructDecl, AllocError>
    ensures { IfOk result (λ copied. copied ≡ declared.now) }
{
    let name = declared.name.copy(alloc)?;
    let members = match &declared.members {
        None => None,
        Some(members) => Some(copy_decls(alloc, members.as_slice())?),
    };
    Ok(StructDecl {
        name,
        members,
        span: declared.span,
    })
}
