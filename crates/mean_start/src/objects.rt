//! The blocks of a file's objects.

ghost use Rattle.std.specs.Prelude.{◌≡◌, ◌++◌, ◌∷◌, [], ℕ, List, IfOk, OnOk};
ghost use Rattle.block_meaning.specs.Blocks.{Block, block_of};
ghost use Rattle.block_meaning.specs.Opening as spec;
ghost use Rattle.block_meaning.specs.Opening.{with_pieces, objects_from};
ghost use Rattle.block_meaning.specs.Running.{Program};
ghost use Rattle.mean_memory.specs.Standing.{IsMemory};
ghost use Rattle.mean_start.specs.Files.{IsFile};

use crate::file::File;
use crate::names::small;
use crate::pieces::put_pieces;
use crate::zero::zero_cells;
use block_meaning::{Cell, Kind};
use c_type_base::GlobalInfo;
use mean_memory::Memory;
use std::alloc::{AllocError, Global};

/// What an object holds at first.
fn object_cells(alloc: Global, file: &File, g: &GlobalInfo) -> Result<Vec<Cell>, AllocError>
    ensures { IfOk result (λ made. (program : Program) (unit : ℕ) → IsFile file.now program unit
        → made.items ≡ with_pieces program.units unit g.now.init (spec.zero_cells file.now.typed.now.structs g.now.ty)) }
{
    let mut made = zero_cells(alloc, &g.ty, file.typed.structs.as_slice())?;
    put_pieces(&mut made, file, g.init.as_slice())?;
    Ok(made)
}

/// The block of an object.
fn open_object(
    alloc: Global,
    memory: &mut Memory,
    file: &File,
    kind: Kind,
    g: &GlobalInfo,
) -> Result<(), AllocError>
    ensures { OnOk result ((program : Program) (unit : ℕ) (blocks : List Block) → IsFile file.now program unit
        → IsMemory memory.old blocks → IsMemory memory.new (blocks ++ block_of kind
        (with_pieces program.units unit g.now.init (spec.zero_cells file.now.typed.now.structs g.now.ty)) ∷ [])) }
{
    let cells = object_cells(alloc, file, g)?;
    memory.push(kind, cells)?;
    Ok(())
}

/// The blocks of the objects of a file.
pub fn open_objects(
    alloc: Global,
    memory: &mut Memory,
    file: &File,
    unit: u32,
) -> Result<(), AllocError>
    ensures { OnOk result ((program : Program) (blocks : List Block) → IsFile file.now program unit → IsMemory memory.old blocks
        → IsMemory memory.new (blocks ++ objects_from program.units unit file.now.typed.now.structs 0 file.now.typed.now.globals)) }
{
    let globals = file.typed.globals.as_slice();
    for number in 0..globals.len() {
        let kind = Kind::Global(unit, small(number)?);
        open_object(alloc, memory, file, kind, &globals[number])?;
    }
    Ok(())
}
