//! Cells that are stored and copied.

ghost use Rattle.std.specs.Prelude.{◌≡◌, ◌≤◌, ◌+◌, length, map, take, drop, IsTrue};
ghost use Rattle.block_meaning.specs.Blocks.{with_cells_in, cells_in};
ghost use Rattle.block_meaning.specs.declared.cell.Cell.TheVariants.{Byte};
ghost use Rattle.mean_memory.specs.Shown.{block_in};

use crate::slot::Slot;
use block_meaning::Cell;

/// Whether so many cells from an offset on are in a block.
pub fn fits(slot: &Slot, offset: u64, count: u64) -> bool
    ensures { IsTrue result → offset + count ≤ length slot.now.cells.items }
{
    let bytes = slot.cells.len() as u64;
    count <= bytes && offset <= bytes - count
}

pub fn put_cells(slot: &mut Slot, offset: u64, cells: &[Cell])
    requires { offset + length cells.now ≤ length slot.old.cells.items }
    ensures block { block_in slot.new ≡ with_cells_in offset cells.now (block_in slot.old) }
    ensures number { slot.new.number ≡ slot.old.number }
{
    let start = offset as usize;
    slot.cells[start..start + cells.len()].copy_from_slice(cells);
}

/// Stores cells in a block from an offset on, where they fit.
pub fn store_slot(slot: &mut Slot, offset: u64, cells: &[Cell]) -> bool
    ensures block { IsTrue result → block_in slot.new ≡ with_cells_in offset cells.now (block_in slot.old) }
    ensures number { slot.new.number ≡ slot.old.number }
{
    if !fits(slot, offset, cells.len() as u64) {
        return false;
    }
    put_cells(slot, offset, cells);
    true
}

fn fill_bytes(cells: &mut [Cell], bytes: &[u8])
    requires { length cells.old ≡ length bytes.now }
    ensures { cells.new ≡ map Byte bytes.now }
{
    for i in 0..bytes.len() {
        cells[i] = Cell::Byte(bytes[i]);
    }
}

fn put_bytes(slot: &mut Slot, offset: u64, bytes: &[u8])
    requires { offset + length bytes.now ≤ length slot.old.cells.items }
    ensures block { block_in slot.new ≡ with_cells_in offset (map Byte bytes.now) (block_in slot.old) }
    ensures number { slot.new.number ≡ slot.old.number }
{
    let start = offset as usize;
    fill_bytes(&mut slot.cells[start..start + bytes.len()], bytes);
}

/// Stores bytes in a block from an offset on, where they fit.
pub fn store_bytes_slot(slot: &mut Slot, offset: u64, bytes: &[u8]) -> bool
    ensures block { IsTrue result → block_in slot.new ≡ with_cells_in offset (map Byte bytes.now) (block_in slot.old) }
    ensures number { slot.new.number ≡ slot.old.number }
{
    if !fits(slot, offset, bytes.len() as u64) {
        return false;
    }
    put_bytes(slot, offset, bytes);
    true
}
