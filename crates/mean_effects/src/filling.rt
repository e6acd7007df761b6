//! Filling objects: with cells, and with the bytes of texts.

ghost use Rattle.std.specs.Prelude.{◌≡◌, map, take};
ghost use Rattle.block_meaning.specs.Blocks.{stored};
ghost use Rattle.block_meaning.specs.Memory.{structs_at};
ghost use Rattle.block_meaning.specs.Opening as opening;
ghost use Rattle.block_meaning.specs.Running.{Context, State, with_blocks};
ghost use Rattle.block_meaning.specs.declared.cell.Cell.TheVariants.{Byte};
ghost use Rattle.mean_effects.specs.Shown.{IsNow, IsHere, Gives};

use crate::answers::done;
use crate::here::Here;
use crate::now::{Ending, Now};
use crate::object::Object;
use block_meaning::{Cell, Pointer};
use mean_start::zero_cells;

/// Stores cells from a place on, as those of an object that is zero. Where they are not all in a block that is alive, it finds no memory.
pub fn store_cells(n: &mut Now, at: Pointer, cells: &[Cell]) -> Result<(), Ending>
    ensures { (now : State) → IsNow n.old now → Gives n.new now result (with_blocks (stored at cells.now) now) }
{
    done(n.memory.store(at, cells))
}

/// Makes a whole object zero.
pub fn zero_object(n: &mut Now, h: Here, o: Object) -> Result<(), Ending>
    ensures { (here : Context) (now : State) → IsHere h.entry here → IsNow n.old now → Gives n.new now result
        (with_blocks (stored o.entry.at (opening.zero_cells (structs_at here) o.entry.ty.now)) now) }
{
    match zero_cells(n.memory.allocator(), o.ty, h.structs) {
        Ok(cells) => store_cells(n, o.at, &cells),
        Err(_) => Err(Ending::NoMemory),
    }
}

/// So many bytes at most.
fn first_bytes(bytes: &[u8], count: u64) -> &[u8]
    ensures { result.now ≡ take count bytes.now }
{
    if count < bytes.len() as u64 {
        &bytes[..count as usize]
    } else {
        bytes
    }
}

/// A text fills an array of so many chars, as far as it goes.
pub fn fill_text(n: &mut Now, count: u64, p: Pointer, bytes: &[u8]) -> Result<(), Ending>
    ensures { (now : State) → IsNow n.old now
        → Gives n.new now result (with_blocks (stored p (map Byte (take count bytes.now))) now) }
{
    let first = first_bytes(bytes, count);
    done(n.memory.store_bytes(p, first))
}
