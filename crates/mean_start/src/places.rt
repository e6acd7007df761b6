//! Cells with others from a place on.

ghost use Rattle.std.specs.Prelude.{◌≡◌, ◌≤◌, ◌+◌, List, length, OnOk, IfOk};
ghost use Rattle.block_meaning.specs.Blocks.{with_cells};
ghost use Rattle.block_meaning.specs.Values.{number_cells, pointer_cells};
ghost use Rattle.block_meaning.specs.declared.cell.Cell.{Cell as Stored};

use block_meaning::{Cell, Pointer};
use mean_memory::{put_number, put_pointer};
use std::alloc::AllocError;

/// Makes room for so many cells from an offset on, where there is none, and tells where they are to stand.
fn made_room(cells: &mut Vec<Cell>, offset: u64, count: usize) -> Result<usize, AllocError>
    ensures within { IfOk result (λ start. start + count ≤ length cells.new.items) }
    ensures same { IfOk result (λ start. (new : List Stored) → length new ≡ count
        → with_cells start new cells.new.items ≡ with_cells offset new cells.old.items) }
{
    let start = offset as usize;
    let end = match start.checked_add(count) {
        Some(end) => end,
        None => return Err(AllocError),
    };
    if end <= cells.len() {
        return Ok(start);
    }
    cells.truncate(start);
    let start = cells.len();
    cells.resize(start + count, Cell::Nothing)?;
    Ok(start)
}

/// Puts cells in the place of others, from an offset on; what passes the end is added there.
pub fn put_cells(cells: &mut Vec<Cell>, offset: u64, new: &[Cell]) -> Result<(), AllocError>
    ensures { OnOk result (cells.new.items ≡ with_cells offset new.now cells.old.items) }
{
    let start = made_room(cells, offset, new.len())?;
    cells[start..start + new.len()].copy_from_slice(new);
    Ok(())
}

/// Likewise a number of so many bytes, the lowest first.
pub fn put_number_at(
    cells: &mut Vec<Cell>,
    offset: u64,
    bytes: u8,
    n: u64,
) -> Result<(), AllocError>
    ensures { OnOk result (cells.new.items ≡ with_cells offset (number_cells bytes n) cells.old.items) }
{
    let count = bytes as usize;
    let start = made_room(cells, offset, count)?;
    put_number(&mut cells[start..start + count], n);
    Ok(())
}

/// Likewise a pointer.
pub fn put_pointer_at(cells: &mut Vec<Cell>, offset: u64, p: Pointer) -> Result<(), AllocError>
    ensures { OnOk result (cells.new.items ≡ with_cells offset (pointer_cells p) cells.old.items) }
{
    let start = made_room(cells, offset, 8)?;
    put_pointer(&mut cells[start..start + 8], p);
    Ok(())
}
