//! Which locals the outermost block of a function declares.

ghost use Rattle.std.specs.Prelude.{◌≡◌, map, flat_map, slice_set, true, IfOk};
ghost use Rattle.slot_safety.specs.Kinds.{by_number, put};
ghost use Rattle.frame_layout.specs.Scopes as spec;

use c_type_base::{TDecl, TFunction, TItem, TStmt};
use std::alloc::{AllocError, Global};

fn mark(local: u32, outer: &mut [bool])
    ensures { outer.new ≡ slice_set outer.old local true }
{
    if (local as usize) < outer.len() {
        outer[local as usize] = true;
    }
}

#[tactic(auto, using(crate::proofs::ScopeTurns::decl_turn))]
fn mark_decls(decls: &[TDecl], outer: &mut [bool])
    ensures { outer.new ≡ put true outer.old (map spec.number_of decls.now) }
{
    for decl in decls {
        mark(decl.local, outer);
    }
}

fn mark_item(item: &TItem, outer: &mut [bool])
    ensures { outer.new ≡ put true outer.old (spec.declared item.now) }
{
    match item {
        TItem::Local(decls) => mark_decls(decls.as_slice(), outer),
        TItem::Stmt(_) => {}
    }
}

fn mark_items(items: &[TItem], outer: &mut [bool])
    ensures { outer.new ≡ put true outer.old (flat_map spec.declared items.now) }
{
    for item in items {
        mark_item(item, outer);
    }
}

fn mark_body(body: &TStmt, outer: &mut [bool])
    ensures { outer.new ≡ put true outer.old (spec.outermost body.now) }
{
    match body {
        TStmt::Block(items) => mark_items(items.as_slice(), outer),
        _ => {}
    }
}

/// Of each parameter and local whether the outermost block of the body declares it.
pub fn outermost(alloc: Global, function: &TFunction) -> Result<Vec<bool>, AllocError>
    ensures { IfOk result (λ outer. outer.items ≡ by_number spec.as_told (spec.outermost function.now.body) 0 function.now.locals) }
{
    let mut outer = vec![in alloc; false; function.locals.as_slice().len()]?;
    mark_body(&function.body, outer.as_mut_slice());
    Ok(outer)
}
