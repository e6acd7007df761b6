//! The numbers of symbols, by their names.

ghost use Rattle.std.specs.Prelude.{◌≡◌, IfOk};
ghost use Rattle.unit_object.specs.Counted as spec;

use crate::names::NameTable;
use crate::numbers::Numbers;
use c_type_base::{ExternInfo, GlobalInfo};
use gen_unit::Place;
use std::alloc::{AllocError, Global};

// The number of the symbol of a name, counted from a number.
fn name_number(names: &NameTable, from: u32, name: &[u8]) -> Result<u32, AllocError>
    ensures { IfOk result (λ n. n ≡ spec.name_number from names.now name.now) }
{
    match names.number(name) {
        None => Ok(0),
        Some(number) => {
            let number = u32::try_from(number).map_err(|_| AllocError)?;
            from.checked_add(number).ok_or(AllocError)
        }
    }
}

fn function_numbers(
    alloc: Global,
    names: &NameTable,
    from: u32,
    functions: &[Place],
) -> Result<Vec<u32>, AllocError>
    ensures { IfOk result (λ made. made.items ≡ spec.function_numbers from names.now functions.now) }
{
    let mut made = Vec::new(alloc);
    for function in functions {
        made.push(name_number(names, from, function.name.as_slice())?)?;
    }
    Ok(made)
}

fn global_numbers(
    alloc: Global,
    names: &NameTable,
    from: u32,
    globals: &[GlobalInfo],
) -> Result<Vec<u32>, AllocError>
    ensures { IfOk result (λ made. made.items ≡ spec.global_numbers from names.now globals.now) }
{
    let mut made = Vec::new(alloc);
    for global in globals {
        made.push(name_number(names, from, global.name.as_slice())?)?;
    }
    Ok(made)
}

fn extern_numbers(
    alloc: Global,
    names: &NameTable,
    from: u32,
    externs: &[ExternInfo],
) -> Result<Vec<u32>, AllocError>
    ensures { IfOk result (λ made. made.items ≡ spec.extern_numbers from names.now externs.now) }
{
    let mut made = Vec::new(alloc);
    for info in externs {
        made.push(name_number(names, from, info.name.as_slice())?)?;
    }
    Ok(made)
}

/// The numbers of functions, objects and externs, of which the first symbol with a name has a given one.
pub fn numbers(
    alloc: Global,
    names: &NameTable,
    from: u32,
    functions: &[Place],
    globals: &[GlobalInfo],
    externs: &[ExternInfo],
) -> Result<Numbers, AllocError>
    ensures functions { IfOk result (λ n. n.functions.items ≡ spec.function_numbers from names.now functions.now) }
    ensures globals { IfOk result (λ n. n.globals.items ≡ spec.global_numbers from names.now globals.now) }
    ensures externs { IfOk result (λ n. n.externs.items ≡ spec.extern_numbers from names.now externs.now) }
{
    let functions = function_numbers(alloc, names, from, functions)?;
    let globals = global_numbers(alloc, names, from, globals)?;
    let externs = extern_numbers(alloc, names, from, externs)?;
    Ok(Numbers {
        functions,
        globals,
        externs,
    })
}
