//! The places that wait for addresses.

ghost use Rattle.std.specs.Prelude.{◌≡◌, ◌++◌, map, flat_map, IfOk, OnOk};
ghost use Rattle.unit_object.specs.Numbers as number;
ghost use Rattle.unit_object.specs.Order.{chosen};
ghost use Rattle.unit_object.specs.Parts as spec;

use crate::data::room;
use crate::numbers::{Numbers, code_number, data_number};
use crate::objects::global_at;
use crate::texts::behind;
use c_type_base::{GlobalInfo, InitPiece, InitValue, StructInfo};
use elf_obj::Reloc;
use gen_unit::CodeReloc;
use std::alloc::{AllocError, Global};

// R_AARCH64_ABS64
const ADDRESS_KIND: u32 = 257;

/// Those of the words.
pub fn code_relocs(
    alloc: Global,
    numbers: &Numbers,
    relocs: &[CodeReloc],
) -> Result<Vec<Reloc>, AllocError>
    ensures { IfOk result (λ made. made.items ≡ map (spec.code_reloc (number.code_number numbers.now)) relocs.now) }
{
    let mut made = Vec::new(alloc);
    for reloc in relocs {
        let symbol = code_number(numbers, reloc.target)?;
        made.push(Reloc {
            offset: reloc.offset,
            kind: reloc.kind,
            symbol,
            addend: reloc.addend,
        })?;
    }
    Ok(made)
}

// Appends that of a scalar of an object at a place, where it is an address.
fn push_piece(
    made: &mut Vec<Reloc>,
    numbers: &Numbers,
    place: u64,
    piece: &InitPiece,
) -> Result<(), AllocError>
    ensures { OnOk result (made.new.items ≡ made.old.items ++ spec.piece_relocs (number.data_number numbers.now) place piece.now) }
{
    match piece.value {
        InitValue::Number(_, _) => Ok(()),
        InitValue::Address(target, addend) => {
            let offset = behind(place, piece.offset)?;
            let symbol = data_number(numbers, target)?;
            made.push(Reloc {
                offset,
                kind: ADDRESS_KIND,
                symbol,
                addend,
            })?;
            Ok(())
        }
    }
}

fn push_pieces(
    made: &mut Vec<Reloc>,
    numbers: &Numbers,
    place: u64,
    pieces: &[InitPiece],
) -> Result<(), AllocError>
    ensures { OnOk result (made.new.items
        ≡ made.old.items ++ flat_map (spec.piece_relocs (number.data_number numbers.now) place) pieces.now) }
{
    for piece in pieces {
        push_piece(made, numbers, place, piece)?;
    }
    Ok(())
}

/// Those of the objects of some numbers, one behind the other.
pub fn data_relocs(
    alloc: Global,
    numbers: &Numbers,
    structs: &[StructInfo],
    globals: &[GlobalInfo],
    order: &[usize],
) -> Result<Vec<Reloc>, AllocError>
    ensures { IfOk result (λ made. made.items
        ≡ spec.data_relocs (number.data_number numbers.now) structs.now 0 (chosen globals.now order.now)) }
{
    let mut made = Vec::new(alloc);
    let mut place = 0;
    for number in order {
        let global = global_at(globals, *number)?;
        push_pieces(&mut made, numbers, place, global.init.as_slice())?;
        place = behind(place, room(structs, global)?)?;
    }
    Ok(made)
}
