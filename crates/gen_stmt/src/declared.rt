//! The locals that a block declares.

ghost use Rattle.std.specs.Prelude.{◌≡◌, ◌++◌, map, OnOk, IfOk};
ghost use Rattle.block_meaning.specs.Statements as meaning;
ghost use Rattle.gen_stmt.specs.Scopes as spec;

use crate::around::Range;
use c_type_base::{TDecl, TItem};
use std::alloc::{AllocError, Global};

// Appends those of some declarations.
fn push_declared(decls: &[TDecl], locals: &mut Vec<u32>) -> Result<(), AllocError>
    ensures { OnOk result (locals.new.items ≡ locals.old.items ++ map meaning.local_of decls.now) }
{
    for decl in decls {
        locals.push(decl.local)?;
    }
    Ok(())
}

// Appends those of a part of a block.
fn push_item(item: &TItem, locals: &mut Vec<u32>) -> Result<(), AllocError>
    ensures { OnOk result (locals.new.items ≡ locals.old.items ++ spec.item_locals item.now) }
{
    match item {
        TItem::Local(decls) => push_declared(decls.as_slice(), locals),
        TItem::Stmt(_) => Ok(()),
    }
}

// The locals of some declarations.
pub fn of_declarations(alloc: Global, decls: &[TDecl]) -> Result<Vec<u32>, AllocError>
    ensures { IfOk result (λ locals. locals.items ≡ map meaning.local_of decls.now) }
{
    let mut locals = Vec::new(alloc);
    push_declared(decls, &mut locals)?;
    Ok(locals)
}

// The locals that the parts of a block declare, but for those of inner scopes.
pub fn of_items(alloc: Global, items: &[TItem]) -> Result<Vec<u32>, AllocError>
    ensures { IfOk result (λ locals. locals.items ≡ meaning.declared items.now) }
{
    let mut locals = Vec::new(alloc);
    for item in items {
        push_item(item, &mut locals)?;
    }
    Ok(locals)
}

// From the first of some locals to the greatest of them.
pub fn range_of(locals: &[u32]) -> Option<Range>
    ensures { result ≡ spec.range_of locals.now }
{
    if locals.len() == 0 {
        return None;
    }
    let mut last = locals[0];
    for local in locals {
        last = last.max(*local);
    }
    Some(Range {
        first: locals[0],
        last,
    })
}
