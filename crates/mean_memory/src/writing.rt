//! Values as cells.

ghost use Rattle.std.specs.Prelude.{◌≡◌, ◌≤◌, ◌+◌, length};
ghost use Rattle.block_meaning.specs.Values.{number_cells, part_of, pointer_cells, cells_of};
ghost use Rattle.block_meaning.specs.Blocks.{with_cells_in};
ghost use Rattle.mean_memory.specs.Filled.{Fills};
ghost use Rattle.mean_memory.specs.Shown.{block_in, written_block};
ghost use Rattle.block_meaning.specs.Access.{reason_against};

use crate::judge;
use crate::slot::Slot;
use crate::values::{number_in, pointer_in};
use block_meaning::{Access, Cell, Pointer, Reason, Value};
use c_type_base::Ty;

/// Fills cells with a number, the lowest byte first.
pub fn put_number(cells: &mut [Cell], n: u64)
    ensures { cells.new ≡ number_cells (length cells.old) n }
{
    let mut rest = n;
    for i in 0..cells.len() {
        cells[i] = Cell::Byte((rest % 256) as u8);
        rest /= 256;
    }
}

fn part(k: u8, p: Pointer) -> Cell
    ensures { result ≡ part_of k p }
{
    Cell::Part(k, p.block, p.offset)
}

/// Fills 8 cells with the parts of a pointer.
pub fn put_pointer(cells: &mut [Cell], p: Pointer)
    requires { length cells.old ≡ 8 }
    ensures { cells.new ≡ pointer_cells p }
{
    cells.copy_from_slice(&[
        part(0, p),
        part(1, p),
        part(2, p),
        part(3, p),
        part(4, p),
        part(5, p),
        part(6, p),
        part(7, p),
    ]);
}

/// Fills the cells of a scalar with a value of its type.
pub fn put_value(cells: &mut [Cell], ty: &Ty, v: Value)
    requires { Fills ty.now (length cells.old) }
    ensures { cells.new ≡ cells_of ty.now v }
{
    match ty {
        Ty::Int(_) => put_number(cells, number_in(v)),
        Ty::Pointer(_) => put_pointer(cells, pointer_in(v)),
        _ => {}
    }
}

/// Writes a scalar into a block that is alive.
fn put_in(slot: &mut Slot, ty: &Ty, a: Access, v: Value)
    requires fills { Fills ty.now a.size }
    requires within { a.at.offset + a.size ≤ length slot.old.cells.items }
    ensures block { block_in slot.new ≡ with_cells_in a.at.offset (cells_of ty.now v) (block_in slot.old) }
    ensures number { slot.new.number ≡ slot.old.number }
{
    let start = a.at.offset as usize;
    put_value(&mut slot.cells[start..start + a.size as usize], ty, v);
}

/// Writes a scalar into a block that is alive, or tells why that is undefined.
pub fn write_slot(slot: &mut Slot, ty: &Ty, a: Access, v: Value) -> Option<Reason>
    requires { Fills ty.now a.size }
    ensures is { result ≡ reason_against (block_in slot.old) a }
    ensures block { block_in slot.new ≡ written_block a (cells_of ty.now v) (block_in slot.old) result }
    ensures number { slot.new.number ≡ slot.old.number }
{
    let why = judge::reason_against(slot, a);
    if why.is_none() {
        put_in(slot, ty, a, v);
    }
    why
}
