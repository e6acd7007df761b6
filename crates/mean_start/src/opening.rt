//! The blocks of a program before the call of `main`.

ghost use Rattle.std.specs.Prelude.{◌≡◌, ◌++◌, List, map, IfOk, OnOk};
ghost use Rattle.block_meaning.specs.Blocks.{Block};
ghost use Rattle.block_meaning.specs.Opening.{texts_from, codes_from, opening};
ghost use Rattle.block_meaning.specs.Running.{Program};
ghost use Rattle.block_meaning.specs.declared.cell.Cell.TheVariants.{Byte};
ghost use Rattle.mean_memory.specs.Standing.{IsMemory};
ghost use Rattle.mean_start.specs.Files.{IsFile, IsProgram};
ghost use Rattle.mean_start.specs.Opened.{file_blocks};

use crate::file::File;
use crate::names::small;
use crate::objects::open_objects;
use block_meaning::{Cell, Kind};
use mean_memory::Memory;
use std::alloc::{AllocError, Global};

/// The bytes of a text as cells.
fn text_cells(alloc: Global, bytes: &[u8]) -> Result<Vec<Cell>, AllocError>
    ensures { IfOk result (λ made. made.items ≡ map Byte bytes.now) }
{
    bytes.iter().map(|b| Cell::Byte(*b)).collect(alloc)
}

/// The blocks of the texts of a file.
fn open_texts(alloc: Global, memory: &mut Memory, file: &File, unit: u32) -> Result<(), AllocError>
    ensures { OnOk result ((blocks : List Block) → IsMemory memory.old blocks
        → IsMemory memory.new (blocks ++ texts_from unit 0 file.now.typed.now.texts)) }
{
    let texts = file.typed.texts.as_slice();
    for number in 0..texts.len() {
        let kind = Kind::Text(unit, small(number)?);
        let cells = text_cells(alloc, texts[number].as_slice())?;
        memory.push(kind, cells)?;
    }
    Ok(())
}

/// The blocks of the functions of a file, which have no bytes.
fn open_functions(
    alloc: Global,
    memory: &mut Memory,
    file: &File,
    unit: u32,
) -> Result<(), AllocError>
    ensures { OnOk result ((blocks : List Block) → IsMemory memory.old blocks
        → IsMemory memory.new (blocks ++ codes_from unit 0 file.now.typed.now.functions)) }
{
    for number in 0..file.typed.functions.len() {
        let kind = Kind::Code(unit, small(number)?);
        memory.push(kind, Vec::new(alloc))?;
    }
    Ok(())
}

/// The blocks of a file.
fn open_file(alloc: Global, memory: &mut Memory, file: &File, unit: usize) -> Result<(), AllocError>
    ensures { OnOk result ((program : Program) (blocks : List Block) → IsFile file.now program unit → IsMemory memory.old blocks
        → IsMemory memory.new (blocks ++ file_blocks program.units unit file.now.typed.now)) }
{
    let unit = small(unit)?;
    open_objects(alloc, memory, file, unit)?;
    open_texts(alloc, memory, file, unit)?;
    open_functions(alloc, memory, file, unit)
}

/// The blocks of a program before the call of `main`: the null block, and then of each file its objects, its texts and its functions.
///
/// # Errors
///
/// Where the host has no memory left, or types stand in one another more than 1,000 deep.
pub fn opened(alloc: Global, files: &[File]) -> Result<Memory, AllocError>
    ensures { IfOk result (λ memory. (program : Program) → IsProgram files.now program → IsMemory memory (opening program.units)) }
{
    let mut memory = Memory::new(alloc)?;
    memory.push(Kind::NullBlock, Vec::new(alloc))?;
    for unit in 0..files.len() {
        open_file(alloc, &mut memory, &files[unit], unit)?;
    }
    Ok(memory)
}
