//! When an access is undefined, and what a read gives.

ghost use Rattle.std.specs.Prelude.{◌≡◌, ◌≤◌, ◌+◌, ◌%◌, length, ltb, nat_eq, not, Some, None};
ghost use Rattle.std.specs.List.{list_any};
ghost use Rattle.block_meaning.specs.Access as spec;
ghost use Rattle.block_meaning.specs.Blocks.{Block};
ghost use Rattle.block_meaning.specs.Values.{is_nothing};
ghost use Rattle.mean_memory.specs.Filled.{Reads};
ghost use Rattle.mean_memory.specs.Shown.{block_in, IsDead, read_as};

use crate::reading::value_of_cells;
use crate::slot::Slot;
use block_meaning::{Access, Cell, Kind, Reason, Value};
use c_type_base::Ty;

fn is_null_block(kind: Kind) -> bool
    ensures { result ≡ spec.is_null_block kind }
{
    match kind {
        Kind::NullBlock => true,
        _ => false,
    }
}

fn is_text(kind: Kind) -> bool
    ensures { result ≡ spec.is_text kind }
{
    match kind {
        Kind::Text(_, _) => true,
        _ => false,
    }
}

fn is_misaligned(a: Access) -> bool
    ensures { result ≡ not (nat_eq (a.at.offset % a.align) 0) }
{
    if a.align == 0 {
        a.at.offset != 0
    } else {
        a.at.offset % a.align != 0
    }
}

fn is_outside(bytes: usize, a: Access) -> bool
    ensures { result ≡ ltb bytes (a.at.offset + a.size) }
{
    let bytes = bytes as u64;
    bytes < a.size || bytes - a.size < a.at.offset
}

/// Why an access to a block that is alive is undefined, but for what the cells hold.
pub fn reason_against(slot: &Slot, a: Access) -> Option<Reason>
    ensures is { result ≡ spec.reason_against (block_in slot.now) a }
    ensures within { result ≡ None → a.at.offset + a.size ≤ length slot.now.cells.items }
{
    if is_misaligned(a) {
        Some(Reason::Misaligned)
    } else if is_null_block(slot.kind) {
        Some(Reason::Null)
    } else if is_outside(slot.cells.len(), a) {
        Some(Reason::Outside)
    } else if a.writes && is_text(slot.kind) {
        Some(Reason::ReadOnly)
    } else {
        None
    }
}

/// Why an access to a block whose life has ended is undefined.
pub fn reason_after(a: Access) -> Reason
    ensures { (b : Block) → IsDead b → Some result ≡ spec.reason_against b a }
{
    if is_misaligned(a) {
        Reason::Misaligned
    } else {
        Reason::Dead
    }
}

fn has_nothing(cells: &[Cell]) -> bool
    ensures { result ≡ list_any is_nothing cells.now }
{
    match cells {
        [] => false,
        [Cell::Nothing, ..] => true,
        [_, rest @ ..] => has_nothing(rest),
    }
}

/// Some cells as a scalar of a type, or why they are none.
pub fn scalar_in(ty: &Ty, cells: &[Cell]) -> Result<Value, Reason>
    requires { Reads ty.now (length cells.now) }
    ensures { read_as result ≡ spec.scalar_in ty.now cells.now }
{
    if has_nothing(cells) {
        return Err(Reason::Indeterminate);
    }
    match value_of_cells(ty, cells) {
        Some(v) => Ok(v),
        None => Err(Reason::Part),
    }
}

/// A scalar of a type in a block that is alive, or why reading it is undefined.
pub fn read_in(slot: &Slot, ty: &Ty, a: Access) -> Result<Value, Reason>
    requires { Reads ty.now a.size }
    ensures { read_as result ≡ spec.read_in (block_in slot.now) ty.now a }
{
    match reason_against(slot, a) {
        Some(why) => Err(why),
        None => {
            let start = a.at.offset as usize;
            scalar_in(ty, &slot.cells[start..start + a.size as usize])
        }
    }
}
