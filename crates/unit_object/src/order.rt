//! The objects that a text defines, in the order of their definitions.

ghost use Rattle.std.specs.Prelude.{◌≡◌, ◌++◌, map, filter, flat_map, IfOk, OnOk};
ghost use Rattle.c_types.specs.Files as files;
ghost use Rattle.c_types.specs.Files.{number_among};
ghost use Rattle.c_types.specs.Ordered.{globals_by};
ghost use Rattle.mean_link.specs.Names.{name_of};
ghost use Rattle.unit_object.specs.Numbered as spec;
ghost use Rattle.unit_object.specs.Order.{chosen, defined_names};

use crate::names::NameTable;
use crate::objects::global_at;
use c_ast::{Decl, External, Program, Storage};
use c_type_base::GlobalInfo;
use std::alloc::{AllocError, Global};

/// The names of objects, which are all different, by their numbers.
pub fn global_names(alloc: Global, globals: &[GlobalInfo]) -> Result<NameTable, AllocError>
    ensures { IfOk result (λ names. names ≡ spec.global_names globals.now) }
{
    let mut names = NameTable::new(alloc);
    for global in globals {
        names.add_new(alloc, global.name.as_slice())?;
    }
    Ok(names)
}

// Whether it has a first value, where those are wanted, and otherwise whether it has none.
fn is_wanted(global: &GlobalInfo, filled: bool) -> bool
    ensures { result ≡ spec.is_wanted filled global.now }
{
    match global.init.as_slice() {
        [] => !filled,
        [_, ..] => filled,
    }
}

// Appends the number of the object of a name, where it is wanted.
fn push_number(
    numbers: &mut Vec<usize>,
    names: &NameTable,
    globals: &[GlobalInfo],
    name: &[u8],
    filled: bool,
) -> Result<(), AllocError>
    ensures { OnOk result (numbers.new.items
        ≡ numbers.old.items ++ spec.wanted_number filled globals.now (number_among names.now name.now)) }
{
    match names.number(name) {
        None => Ok(()),
        Some(number) => {
            let global = global_at(globals, number)?;
            if is_wanted(global, filled) {
                numbers.push(number)?;
            }
            Ok(())
        }
    }
}

fn push_decls(
    numbers: &mut Vec<usize>,
    names: &NameTable,
    globals: &[GlobalInfo],
    decls: &[Decl],
    filled: bool,
) -> Result<(), AllocError>
    ensures { OnOk result (numbers.new.items
        ≡ numbers.old.items ++ spec.numbers_by filled globals.now names.now (map name_of decls.now)) }
{
    for d in decls {
        push_number(numbers, names, globals, d.name.as_slice(), filled)?;
    }
    Ok(())
}

fn is_extern(storage: Storage) -> bool
    ensures { result ≡ files.is_extern storage }
{
    match storage {
        Storage::Extern => true,
        _ => false,
    }
}

// Appends those of what a part of a text defines.
fn push_part(
    numbers: &mut Vec<usize>,
    names: &NameTable,
    globals: &[GlobalInfo],
    part: &External,
    filled: bool,
) -> Result<(), AllocError>
    ensures { OnOk result (numbers.new.items
        ≡ numbers.old.items ++ spec.numbers_by filled globals.now names.now (spec.defined_by part.now)) }
{
    match part {
        External::Include => Ok(()),
        External::Struct(_) => Ok(()),
        External::Objects(storage, decls) => {
            if is_extern(*storage) {
                return Ok(());
            }
            push_decls(numbers, names, globals, decls.as_slice(), filled)
        }
        External::Function(_) => Ok(()),
    }
}

fn push_parts(
    numbers: &mut Vec<usize>,
    names: &NameTable,
    globals: &[GlobalInfo],
    parts: &[External],
    filled: bool,
) -> Result<(), AllocError>
    ensures { OnOk result (numbers.new.items
        ≡ numbers.old.items ++ spec.numbers_by filled globals.now names.now (flat_map spec.defined_by parts.now)) }
{
    for part in parts {
        push_part(numbers, names, globals, part, filled)?;
    }
    Ok(())
}

/// The numbers of the objects that a text defines: of those with a first value, or of those without.
pub fn by_definition(
    alloc: Global,
    program: &Program,
    globals: &[GlobalInfo],
    names: &NameTable,
    filled: bool,
) -> Result<Vec<usize>, AllocError>
    requires { names.now ≡ spec.global_names globals.now }
    ensures { IfOk result (λ numbers. chosen globals.now numbers.items
        ≡ filter (spec.is_wanted filled) (globals_by (defined_names program.now) globals.now)) }
{
    let mut numbers = Vec::new(alloc);
    push_parts(
        &mut numbers,
        names,
        globals,
        program.items.as_slice(),
        filled,
    )?;
    Ok(numbers)
}
