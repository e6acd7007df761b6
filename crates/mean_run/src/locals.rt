//! The blocks of the locals that a scope declares: how they come and go.

ghost use Rattle.std.specs.Prelude.{◌≡◌, ◌+◌, ◌∷◌, ◌++◌, [], ℕ, List, map, slice_get, slice_set, OnOk, IfOk};
ghost use Rattle.block_meaning.specs.Statements.{declared, declared_by, local_of};
ghost use Rattle.c_type_base.specs.declared.statement.TItem.{out-TItem};
ghost use Rattle.mean_run.specs.Entering.{Origin, Made, Closed};
ghost use Rattle.mean_expressions.specs.Stacked.{numbers_of};

use block_meaning::Kind;
use c_type_base::{TDecl, TItem};
use mean_effects::{Here, Now, exact_size};
use mean_expressions::Declarations;
use sqlite_items::at;
use std::alloc::{AllocError, Global};

/// Notes the block of a local. A number that has a block already finds no memory.
pub fn keep(locals: &mut [Option<u64>], base: usize, k: u32, block: u64) -> Result<(), AllocError>
    ensures was { OnOk result (slice_get locals.old (base + k) ≡ Some None) }
    ensures is { OnOk result (locals.new ≡ slice_set locals.old (base + k) (Some block)) }
{
    let Some(index) = base.checked_add(k as usize) else {
        return Err(AllocError);
    };
    if index < locals.len() && locals[index].is_none() {
        locals[index] = Some(block);
        Ok(())
    } else {
        Err(AllocError)
    }
}

/// The block of a local, whose number has none from now on.
fn taken(locals: &mut [Option<u64>], base: usize, k: u32) -> Result<u64, AllocError>
    ensures was { IfOk result (λ number. slice_get locals.old (base + k) ≡ Some (Some number)) }
    ensures is { OnOk result (locals.new ≡ slice_set locals.old (base + k) None) }
{
    let Some(index) = base.checked_add(k as usize) else {
        return Err(AllocError);
    };
    if index >= locals.len() {
        return Err(AllocError);
    }
    match locals[index] {
        Some(number) => {
            locals[index] = None;
            Ok(number)
        }
        None => Err(AllocError),
    }
}

/// A block for a local, whose cells were never written.
fn new_local(n: &mut Now, locals: &mut [Option<u64>], h: Here, k: u32) -> Result<(), AllocError>
    ensures { OnOk result ((o : Origin) (ks : List ℕ) → Made h.entry o ks n.old locals.old
        → Made h.entry o (ks ++ k ∷ []) n.new locals.new) }
{
    let Some(info) = at(h.locals, k as usize) else {
        return Err(AllocError);
    };
    let Some(bytes) = exact_size(&info.ty, h.structs) else {
        return Err(AllocError);
    };
    let number = n.memory.push_fresh(Kind::Local(h.call, k), bytes)?;
    keep(locals, h.base, k, number)?;
    Ok(())
}

/// Blocks for the locals that declarations declare.
fn open_declared(
    n: &mut Now,
    locals: &mut [Option<u64>],
    h: Here,
    ds: &[TDecl],
) -> Result<(), AllocError>
    ensures { OnOk result ((o : Origin) (ks : List ℕ) → Made h.entry o ks n.old locals.old
        → Made h.entry o (ks ++ map local_of ds.now) n.new locals.new) }
{
    for d in ds {
        new_local(n, locals, h, d.local)?;
    }
    Ok(())
}

/// Blocks for the locals that the parts of a block declare, but for those of inner scopes.
pub fn open_items(
    n: &mut Now,
    locals: &mut [Option<u64>],
    h: Here,
    items: &[TItem],
) -> Result<(), AllocError>
    ensures { OnOk result ((o : Origin) (ks : List ℕ) → Made h.entry o ks n.old locals.old
        → Made h.entry o (ks ++ declared items.now) n.new locals.new) }
{
    for item in items {
        open_item(n, locals, h, item)?;
    }
    Ok(())
}

/// Blocks for the locals that a part of a block declares.
fn open_item(
    n: &mut Now,
    locals: &mut [Option<u64>],
    h: Here,
    item: &TItem,
) -> Result<(), AllocError>
    ensures { OnOk result ((o : Origin) (ks : List ℕ) → Made h.entry o ks n.old locals.old
        → Made h.entry o (ks ++ declared_by (out-TItem item.now)) n.new locals.new) }
{
    match item {
        TItem::Local(ds) => open_declared(n, locals, h, ds.as_slice()),
        TItem::Stmt(_) => Ok(()),
    }
}

/// Blocks for the locals of a scope.
pub fn open(
    n: &mut Now,
    locals: &mut [Option<u64>],
    h: Here,
    d: Declarations,
) -> Result<(), AllocError>
    ensures { OnOk result ((o : Origin) → Made h.entry o [] n.old locals.old
        → Made h.entry o (numbers_of d.entry) n.new locals.new) }
{
    match d {
        Declarations::Block(items) => open_items(n, locals, h, items),
        Declarations::For(ds) => open_declared(n, locals, h, ds),
    }
}

/// Ends the block of a local.
fn close_local(n: &mut Now, locals: &mut [Option<u64>], h: Here, k: u32) -> Result<(), AllocError>
    ensures { OnOk result ((o : Origin) (ks : List ℕ) → Closed h.entry o ks n.old locals.old
        → Closed h.entry o (k ∷ ks) n.new locals.new) }
{
    let number = taken(locals, h.base, k)?;
    if n.memory.pop_local(number) {
        Ok(())
    } else {
        Err(AllocError)
    }
}

/// Ends those of the locals that declarations declare, from the last on.
fn close_declared(
    n: &mut Now,
    locals: &mut [Option<u64>],
    h: Here,
    ds: &[TDecl],
) -> Result<(), AllocError>
    ensures { OnOk result ((o : Origin) (ks : List ℕ) → Closed h.entry o ks n.old locals.old
        → Closed h.entry o (map local_of ds.now ++ ks) n.new locals.new) }
{
    let mut index = ds.len();
    while index > 0 {
        index -= 1;
        close_local(n, locals, h, ds[index].local)?;
    }
    Ok(())
}

/// Ends those of the locals that the parts of a block declare, from the last on.
fn close_items(
    n: &mut Now,
    locals: &mut [Option<u64>],
    h: Here,
    items: &[TItem],
) -> Result<(), AllocError>
    ensures { OnOk result ((o : Origin) (ks : List ℕ) → Closed h.entry o ks n.old locals.old
        → Closed h.entry o (declared items.now ++ ks) n.new locals.new) }
{
    let mut index = items.len();
    while index > 0 {
        index -= 1;
        close_item(n, locals, h, &items[index])?;
    }
    Ok(())
}

/// Ends those of the locals that a part of a block declares, from the last on.
fn close_item(
    n: &mut Now,
    locals: &mut [Option<u64>],
    h: Here,
    item: &TItem,
) -> Result<(), AllocError>
    ensures { OnOk result ((o : Origin) (ks : List ℕ) → Closed h.entry o ks n.old locals.old
        → Closed h.entry o (declared_by (out-TItem item.now) ++ ks) n.new locals.new) }
{
    match item {
        TItem::Local(ds) => close_declared(n, locals, h, ds.as_slice()),
        TItem::Stmt(_) => Ok(()),
    }
}

/// Ends those of the locals of a scope, from the last on.
pub fn close(
    n: &mut Now,
    locals: &mut [Option<u64>],
    h: Here,
    d: Declarations,
) -> Result<(), AllocError>
    ensures { OnOk result ((o : Origin) → Closed h.entry o [] n.old locals.old
        → Closed h.entry o (numbers_of d.entry) n.new locals.new) }
{
    match d {
        Declarations::Block(items) => close_items(n, locals, h, items),
        Declarations::For(ds) => close_declared(n, locals, h, ds),
    }
}
