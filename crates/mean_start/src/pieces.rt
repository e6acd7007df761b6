//! The first bytes of objects, by their initialisers.

ghost use Rattle.std.specs.Prelude.{◌≡◌, ℕ, slice_get, OnOk, IfOk};
ghost use Rattle.block_meaning.specs.Opening as spec;
ghost use Rattle.block_meaning.specs.Blocks.{with_cells};
ghost use Rattle.block_meaning.specs.Opening.{with_piece, with_pieces, or_null};
ghost use Rattle.block_meaning.specs.Running.{Program};
ghost use Rattle.mean_start.specs.Files.{IsFile};
ghost use Rattle.mean_start.specs.Laws.Looking.{block_of_extern};

use crate::file::File;
use crate::places::{put_number_at, put_pointer_at};
use crate::starts::further;
use block_meaning::{Cell, Pointer};
use c_type_base::{InitPiece, InitValue, Target};
use sqlite_items::at;
use std::alloc::AllocError;

/// The block of the name of a number that another file defines, and the null block where none does.
fn extern_block(file: &File, number: u32) -> u64
    ensures { result ≡ or_null (block_of_extern file.now.externs.items number) }
{
    match at(&file.externs, number as usize) {
        Some(x) => match x.block {
            Some(block) => block,
            None => 0,
        },
        None => 0,
    }
}

/// The block that an address points into.
fn target_block(file: &File, target: Target) -> Result<u64, AllocError>
    ensures { IfOk result (λ block. (program : Program) (unit : ℕ) → IsFile file.now program unit
        → block ≡ spec.target_block program.units unit target) }
{
    match target {
        Target::Global(n) => further(file.objects, n as usize),
        Target::Extern(n) => Ok(extern_block(file, n)),
        Target::Text(n) => further(file.texts, n as usize),
    }
}

/// A signed number modulo 2^64.
#[tactic(auto, using(crate::proofs::Steps::unsigned_is))]
fn unsigned(offset: i64) -> u64
    ensures { result ≡ spec.unsigned offset }
{
    offset.cast_unsigned()
}

/// A number in the place of a pointer is an offset in the null block.
fn put_initial_number(
    cells: &mut Vec<Cell>,
    offset: u64,
    bytes: u8,
    n: u64,
) -> Result<(), AllocError>
    ensures { OnOk result (cells.new.items
        ≡ with_cells offset (spec.number_at (slice_get cells.old.items offset) bytes n) cells.old.items) }
{
    match at(cells, offset as usize) {
        Some(Cell::Part(_, _, _)) => put_pointer_at(
            cells,
            offset,
            Pointer {
                block: 0,
                offset: n,
            },
        ),
        _ => put_number_at(cells, offset, bytes, n),
    }
}

/// Writes a scalar of an initialiser.
fn put_piece(cells: &mut Vec<Cell>, file: &File, p: &InitPiece) -> Result<(), AllocError>
    ensures { OnOk result ((program : Program) (unit : ℕ) → IsFile file.now program unit
        → cells.new.items ≡ with_piece program.units unit p.now cells.old.items) }
{
    match p.value {
        InitValue::Number(n, bytes) => put_initial_number(cells, p.offset, bytes, n),
        InitValue::Address(target, offset) => {
            let block = target_block(file, target)?;
            put_pointer_at(
                cells,
                p.offset,
                Pointer {
                    block,
                    offset: unsigned(offset),
                },
            )
        }
    }
}

/// Writes the scalars of an initialiser, in order.
pub fn put_pieces(
    cells: &mut Vec<Cell>,
    file: &File,
    pieces: &[InitPiece],
) -> Result<(), AllocError>
    ensures { OnOk result ((program : Program) (unit : ℕ) → IsFile file.now program unit
        → cells.new.items ≡ with_pieces program.units unit pieces.now cells.old.items) }
{
    for p in pieces {
        put_piece(cells, file, p)?;
    }
    Ok(())
}
