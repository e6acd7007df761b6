//! What the names that a file declares and another defines stand for.

ghost use Rattle.std.specs.Prelude.{◌≡◌, ℕ, map, IfOk};
ghost use Rattle.block_meaning.specs.Linkage.{AFunction, function_of, structs_of, called_as, defined};
ghost use Rattle.mean_start.specs.Files.{called_where, extern_as};
ghost use Rattle.mean_start.specs.Known.{Knows};

use crate::agreement::{Across, agrees_with};
use crate::file::{Called, Extern, FunctionId};
use crate::names::Names;
use c_type_base::{ExternInfo, StructInfo, TFunction, Typed};
use sqlite_items::at;
use std::alloc::{AllocError, Global};

/// What a call of a function reaches, by the type by which a file with these structs declares it.
fn function_called(units: &[Typed], these: &[StructInfo], e: &ExternInfo, f: FunctionId) -> Called
    ensures { (unit : ℕ) → these.now ≡ structs_of units.now unit
        → result ≡ called_where (called_as units.now unit e.now (AFunction (function_of f.unit f.number))) }
{
    let Some(typed) = at(units, f.unit as usize) else {
        return Called::OtherType;
    };
    let Some(function) = typed.functions.get(f.number as usize) else {
        return Called::OtherType;
    };
    let structs = Across {
        these,
        those: typed.structs.as_slice(),
    };
    if agrees_with(structs, e, function) {
        Called::Function(f)
    } else {
        Called::OtherType
    }
}

/// What a name stands for.
fn linked(names: &Names, units: &[Typed], these: &[StructInfo], e: &ExternInfo) -> Extern
    ensures { (unit : ℕ) → these.now ≡ structs_of units.now unit → Knows names.now units.now (defined units.now)
        → result ≡ extern_as units.now unit e.now }
{
    match names.get(&e.name.as_slice()) {
        None => Extern {
            block: None,
            called: Called::Missing,
        },
        Some(meant) => Extern {
            block: Some(meant.block),
            called: match meant.function {
                None => Called::OtherType,
                Some(f) => function_called(units, these, e, f),
            },
        },
    }
}

/// What the names of a file stand for, in its order.
pub fn externs_of(
    alloc: Global,
    names: &Names,
    units: &[Typed],
    typed: &Typed,
) -> Result<Vec<Extern>, AllocError>
    requires { Knows names.now units.now (defined units.now) }
    ensures { IfOk result (λ made. (unit : ℕ) → typed.now.structs ≡ structs_of units.now unit
        → made.items ≡ map (extern_as units.now unit) typed.now.externs) }
{
    let mut made = Vec::new(alloc);
    for e in typed.externs.as_slice() {
        made.push(linked(names, units, typed.structs.as_slice(), e))?;
    }
    Ok(made)
}
