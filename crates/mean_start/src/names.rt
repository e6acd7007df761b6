//! The names that files define for all files (C11 6.2.2), each with what it stands for.

ghost use Rattle.std.specs.Prelude.{◌≡◌, ℕ, List, Option, OnOk, IfOk};
ghost use Rattle.std.specs.List.{position_from};
ghost use Rattle.block_meaning.specs.Linkage.{Definition, AnObject, AFunction, function_of, object_block, code_block, or_definition};
ghost use Rattle.block_meaning.specs.Linkage.{object_at, function_at, is_object_named, is_function_named, defined_in, defined};
ghost use Rattle.c_type_base.specs.declared.typed.Typed.{Typed as File};
ghost use Rattle.mean_start.specs.Known.{meant_by, Knows, also, where_true};
ghost use Rattle.mean_start.specs.Numbers.{IsStart, AreStarts};

use crate::file::FunctionId;
use crate::starts::{Starts, further};
use c_type_base::{GlobalInfo, TFunction, Typed};
use indexmap::IndexMap;
use std::alloc::{AllocError, Global};

/// What a name stands for: a block, and which function it is the block of.
#[derive(Clone, Copy)]
pub struct Meant {
    pub block: u64,
    /// None for an object.
    pub function: Option<FunctionId>,
}

/// The names that files define for all files; of one that several define the first stands.
pub type Names<'a> = IndexMap<&'a [u8], Meant>;

/// A number as blocks have it. One that it cannot tell counts as want of memory.
pub fn small(number: usize) -> Result<u32, AllocError>
    ensures { IfOk result (λ n. n ≡ number) }
{
    match u32::try_from(number) {
        Ok(number) => Ok(number),
        Err(_) => Err(AllocError),
    }
}

/// Adds a name, where it is not there yet.
fn add<'a>(names: &mut Names<'a>, name: &'a [u8], meant: Meant) -> Result<(), AllocError>
    ensures { OnOk result ((units : List File) (found : List ℕ → Option Definition) (d : Definition) → meant ≡ meant_by units d
        → Knows names.old units found → Knows names.new units (also found name.now d)) }
{
    if !names.contains_key(&name) {
        names.insert(name, meant)?;
    }
    Ok(())
}

/// Adds the object of a number, where other files see it.
fn add_object<'a>(
    names: &mut Names<'a>,
    unit: u32,
    first: u64,
    number: usize,
    g: &'a GlobalInfo,
) -> Result<(), AllocError>
    ensures { OnOk result ((units : List File) (found : List ℕ → Option Definition) → first ≡ object_block units unit 0
        → Knows names.old units found
        → Knows names.new units (λ n. or_definition (found n) (where_true (is_object_named n g.now) (AnObject unit number)))) }
{
    if g.local {
        return Ok(());
    }
    let block = further(first, number)?;
    add(
        names,
        g.name.as_slice(),
        Meant {
            block,
            function: None,
        },
    )
}

/// Adds the objects of a file.
fn add_objects<'a>(
    names: &mut Names<'a>,
    unit: u32,
    first: u64,
    globals: &'a [GlobalInfo],
) -> Result<(), AllocError>
    ensures { OnOk result ((units : List File) (found : List ℕ → Option Definition) → first ≡ object_block units unit 0
        → Knows names.old units found
        → Knows names.new units (λ n. or_definition (found n) (object_at unit (position_from (is_object_named n) 0 globals.now)))) }
{
    for number in 0..globals.len() {
        add_object(names, unit, first, number, &globals[number])?;
    }
    Ok(())
}

/// Adds the function of a number, where other files see it.
fn add_function<'a>(
    names: &mut Names<'a>,
    unit: u32,
    first: u64,
    number: usize,
    f: &'a TFunction,
) -> Result<(), AllocError>
    ensures { OnOk result ((units : List File) (found : List ℕ → Option Definition) → first ≡ code_block units unit 0
        → Knows names.old units found → Knows names.new units
        (λ n. or_definition (found n) (where_true (is_function_named n f.now) (AFunction (function_of unit number))))) }
{
    if f.local {
        return Ok(());
    }
    let block = further(first, number)?;
    let number = small(number)?;
    add(
        names,
        f.name.as_slice(),
        Meant {
            block,
            function: Some(FunctionId { unit, number }),
        },
    )
}

/// Adds the functions of a file.
fn add_functions<'a>(
    names: &mut Names<'a>,
    unit: u32,
    first: u64,
    functions: &'a [TFunction],
) -> Result<(), AllocError>
    ensures { OnOk result ((units : List File) (found : List ℕ → Option Definition) → first ≡ code_block units unit 0
        → Knows names.old units found → Knows names.new units
        (λ n. or_definition (found n) (function_at unit (position_from (is_function_named n) 0 functions.now)))) }
{
    for number in 0..functions.len() {
        add_function(names, unit, first, number, &functions[number])?;
    }
    Ok(())
}

/// Adds what a file defines for all files.
fn add_file<'a>(
    names: &mut Names<'a>,
    unit: usize,
    starts: Starts,
    typed: &'a Typed,
) -> Result<(), AllocError>
    ensures { OnOk result ((units : List File) (found : List ℕ → Option Definition) → IsStart starts units unit
        → Knows names.old units found → Knows names.new units (λ n. or_definition (found n) (defined_in n unit typed.now))) }
{
    let unit = small(unit)?;
    add_objects(names, unit, starts.objects, typed.globals.as_slice())?;
    add_functions(names, unit, starts.functions, typed.functions.as_slice())
}

/// What the files define for all files.
pub fn names_of<'a>(
    alloc: Global,
    units: &'a [Typed],
    starts: &[Starts],
) -> Result<Names<'a>, AllocError>
    requires { AreStarts starts.now units.now }
    ensures { IfOk result (λ names. Knows names units.now (defined units.now)) }
{
    let mut names = IndexMap::new(alloc);
    for unit in 0..units.len() {
        add_file(&mut names, unit, starts[unit], &units[unit])?;
    }
    Ok(names)
}
