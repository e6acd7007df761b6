//! The objects of a file at their places, one behind the other: these loops take the numbers of objects in the order of their definitions.

ghost use Rattle.std.specs.Prelude.{◌≡◌, ◌++◌, Some, slice_get, IfOk, OnOk};
ghost use Rattle.unit_object.specs.Data as spec;
ghost use Rattle.unit_object.specs.Order.{chosen};
ghost use Rattle.unit_object.specs.Symbols as symbols;

use crate::data::{push_object, room};
use crate::texts::behind;
use c_type_base::{GlobalInfo, StructInfo};
use elf_base::Name;
use elf_obj::{Home, Symbol};
use std::alloc::{AllocError, Global};

/// The object of a number.
pub fn global_at(globals: &[GlobalInfo], number: usize) -> Result<&GlobalInfo, AllocError>
    ensures { IfOk result (λ g. slice_get globals.now number ≡ Some g.now) }
{
    globals.get(number).ok_or(AllocError)
}

/// Their bytes.
pub fn all_bytes(
    alloc: Global,
    structs: &[StructInfo],
    globals: &[GlobalInfo],
    numbers: &[usize],
) -> Result<Vec<u8>, AllocError>
    ensures { IfOk result (λ out. out.items ≡ spec.all_bytes structs.now (chosen globals.now numbers.now)) }
{
    let mut out = Vec::new(alloc);
    for number in numbers {
        let global = global_at(globals, *number)?;
        push_object(alloc, &mut out, structs, global)?;
    }
    Ok(out)
}

/// How many bytes they have.
pub fn rooms(
    structs: &[StructInfo],
    globals: &[GlobalInfo],
    numbers: &[usize],
) -> Result<u64, AllocError>
    ensures { IfOk result (λ all. all ≡ spec.rooms structs.now (chosen globals.now numbers.now)) }
{
    let mut all = 0;
    for number in numbers {
        let global = global_at(globals, *number)?;
        all = behind(all, room(structs, global)?)?;
    }
    Ok(all)
}

// The symbol of an object at a place.
fn object_symbol(
    alloc: Global,
    structs: &[StructInfo],
    home: Home,
    place: u64,
    global: &GlobalInfo,
) -> Result<Symbol, AllocError>
    ensures { IfOk result (λ s. s ≡ symbols.object_symbol structs.now home place global.now) }
{
    let size = room(structs, global)?;
    let name = Name::from_slice(alloc, global.name.as_slice())?;
    Ok(Symbol {
        name,
        home,
        value: place,
        size,
        local: global.local,
        function: false,
    })
}

/// Appends their symbols.
pub fn push_objects(
    alloc: Global,
    made: &mut Vec<Symbol>,
    structs: &[StructInfo],
    home: Home,
    globals: &[GlobalInfo],
    numbers: &[usize],
) -> Result<(), AllocError>
    ensures { OnOk result (made.new.items
        ≡ made.old.items ++ symbols.object_symbols structs.now home 0 (chosen globals.now numbers.now)) }
{
    let mut place = 0;
    for number in numbers {
        let global = global_at(globals, *number)?;
        let symbol = object_symbol(alloc, structs, home, place, global)?;
        place = behind(place, symbol.size)?;
        made.push(symbol)?;
    }
    Ok(())
}
