//! Cells that are copied, within a block and from one to another.

ghost use Rattle.std.specs.Prelude.{◌≡◌, ◌≢◌, ◌<◌, ◌≤◌, ◌+◌, length, slice_get, IsTrue, Some};
ghost use Rattle.block_meaning.specs.Blocks.{with_cells, with_cells_in, cells_in};
ghost use Rattle.mean_memory.specs.Copied.{IsCopied};
ghost use Rattle.mean_memory.specs.Shown.{block_in};

use crate::slot::Slot;
use crate::storing::{fits, put_cells};
use block_meaning::Cell;
use std::mem;

/// What is copied: from which offset to which, and how many cells.
#[derive(Clone, Copy)]
pub struct Part {
    pub source: u64,
    pub target: u64,
    pub bytes: u64,
}

fn move_within(slot: &mut Slot, part: Part)
    requires source { part.source + part.bytes ≤ length slot.old.cells.items }
    requires target { part.target + part.bytes ≤ length slot.old.cells.items }
    ensures block { block_in slot.new ≡ with_cells_in part.target (cells_in (block_in slot.old) part.source part.bytes) (block_in slot.old) }
    ensures number { slot.new.number ≡ slot.old.number }
{
    let start = part.source as usize;
    slot.cells
        .copy_within(start..start + part.bytes as usize, part.target as usize);
}

/// Copies within a block, where both parts are in it.
pub fn copy_slot(slot: &mut Slot, part: Part) -> bool
    ensures block { IsTrue result →
        block_in slot.new ≡ with_cells_in part.target (cells_in (block_in slot.old) part.source part.bytes) (block_in slot.old) }
    ensures number { slot.new.number ≡ slot.old.number }
{
    if !fits(slot, part.source, part.bytes) || !fits(slot, part.target, part.bytes) {
        return false;
    }
    move_within(slot, part);
    true
}

/// The cells of a slot leave it.
fn take_cells(slot: &mut Slot) -> Vec<Cell>
    ensures cells { result.items ≡ slot.old.cells.items }
    ensures number { slot.new.number ≡ slot.old.number }
    ensures kind { slot.new.kind ≡ slot.old.kind }
{
    let none = Vec::new(*slot.cells.allocator());
    mem::replace(&mut slot.cells, none)
}

/// The cells of a slot are these.
fn give_cells(slot: &mut Slot, cells: Vec<Cell>)
    ensures cells { slot.new.cells.items ≡ cells.items }
    ensures number { slot.new.number ≡ slot.old.number }
    ensures kind { slot.new.kind ≡ slot.old.kind }
{
    slot.cells = cells;
}

fn fill_from(cells: &mut Vec<Cell>, from: &Slot, part: Part)
    requires source { part.source + part.bytes ≤ length from.now.cells.items }
    requires target { part.target + part.bytes ≤ length cells.old.items }
    ensures is { cells.new.items ≡ with_cells part.target (cells_in (block_in from.now) part.source part.bytes) cells.old.items }
    ensures len { length cells.new.items ≡ length cells.old.items }
{
    let start = part.source as usize;
    let end = part.target as usize;
    let bytes = part.bytes as usize;
    cells[end..end + bytes].copy_from_slice(&from.cells[start..start + bytes]);
}

/// Copies from the slot at one index to that at another, where both parts are in them.
pub fn copy_between(slots: &mut [Slot], source: usize, target: usize, part: Part) -> bool
    requires source { source < length slots.old }
    requires target { target < length slots.old }
    requires apart { source ≢ target }
    ensures { IsTrue result → IsCopied slots.old slots.new source target part }
{
    if !fits(&slots[source], part.source, part.bytes)
        || !fits(&slots[target], part.target, part.bytes)
    {
        return false;
    }
    let mut cells = take_cells(&mut slots[target]);
    fill_from(&mut cells, &slots[source], part);
    give_cells(&mut slots[target], cells);
    true
}
