//! What a link sees of a file.

ghost use Rattle.std.specs.Prelude.{◌≡◌, ◌++◌, ℕ, List, [], ◌∷◌, map, flat_map, length, IfOk, OnOk, if◌then◌else◌};
ghost use Rattle.std.specs.List.{filter, list_any};
ghost use Rattle.slot_safety.specs.Kinds.{by_number};
ghost use Rattle.mean_link.specs.Names as spec;
ghost use Rattle.mean_link.specs.Names.{is_among};
ghost use Rattle.mean_link.specs.Laws.NameLaws.{Adds, HaveSame, used_by};

use crate::known::Known;
use crate::statements::used_externs;
use c_ast::{Decl, External, Name, Program};
use c_type_base::{ExternInfo, GlobalInfo, TFunction, Typed};
use sqlite_items::Items;
use std::alloc::{AllocError, Global};

/// What a link sees of a file.
#[derive(Drop)]
pub struct FileNames {
    /// The names that it defines for all files, in the order in which its text declares them. One that is declared twice stands there twice.
    pub defined: Items<Name>,
    /// Whether a function `main` is among them.
    pub has_main: bool,
    /// The names that it refers to and leaves to others, in the order of first declarations.
    pub undefined: Items<Name>,
}

/// Adds a name that others see.
fn add_where(alloc: Global, known: &mut Known, local: bool, name: &Name) -> Result<(), AllocError>
    ensures { OnOk result (Adds known.old known.new (if local then [] else name.now ∷ [])) }
{
    if local {
        return Ok(());
    }
    known.add(alloc, name.as_slice())
}

fn add_objects(alloc: Global, known: &mut Known, globals: &[GlobalInfo]) -> Result<(), AllocError>
    ensures { OnOk result (Adds known.old known.new (flat_map spec.object_name globals.now)) }
{
    for global in globals {
        add_where(alloc, known, global.local, &global.name)?;
    }
    Ok(())
}

fn add_functions(
    alloc: Global,
    known: &mut Known,
    functions: &[TFunction],
) -> Result<(), AllocError>
    ensures { OnOk result (Adds known.old known.new (flat_map spec.function_name functions.now)) }
{
    for function in functions {
        add_where(alloc, known, function.local, &function.name)?;
    }
    Ok(())
}

/// The names that a file defines for all files.
fn global_names(alloc: Global, typed: &Typed) -> Result<Known, AllocError>
    ensures { IfOk result (λ known. HaveSame known (spec.global_names typed.now)) }
{
    let mut known = Known::new(alloc);
    add_objects(alloc, &mut known, typed.globals.as_slice())?;
    add_functions(alloc, &mut known, typed.functions.as_slice())?;
    Ok(known)
}

/// Appends a name, where it is known.
fn push_known(
    alloc: Global,
    names: &mut Items<Name>,
    known: &Known,
    name: &Name,
) -> Result<(), AllocError>
    ensures { OnOk result (names.new ≡ names.old ++ filter (is_among known.now) (name.now ∷ [])) }
{
    if known.has(name.as_slice()) {
        names.push(name.copy(alloc)?)?;
    }
    Ok(())
}

/// Appends the known names of some declared objects.
fn push_objects(
    alloc: Global,
    names: &mut Items<Name>,
    known: &Known,
    decls: &[Decl],
) -> Result<(), AllocError>
    ensures { OnOk result (names.new ≡ names.old ++ filter (is_among known.now) (map spec.name_of decls.now)) }
{
    for d in decls {
        push_known(alloc, names, known, &d.name)?;
    }
    Ok(())
}

/// Appends the known names that a part of a text declares.
fn push_part(
    alloc: Global,
    names: &mut Items<Name>,
    known: &Known,
    part: &External,
) -> Result<(), AllocError>
    ensures { OnOk result (names.new ≡ names.old ++ filter (is_among known.now) (spec.declared_by part.now)) }
{
    match part {
        External::Include => Ok(()),
        External::Struct(_) => Ok(()),
        External::Objects(_, decls) => push_objects(alloc, names, known, decls.as_slice()),
        External::Function(f) => push_known(alloc, names, known, &f.name),
    }
}

/// The known names that a text declares, in order.
fn declared(alloc: Global, known: &Known, parts: &[External]) -> Result<Items<Name>, AllocError>
    ensures { IfOk result (λ names. names ≡ filter (is_among known.now) (flat_map spec.declared_by parts.now)) }
{
    let mut names = Items::new(alloc);
    for part in parts {
        push_part(alloc, &mut names, known, part)?;
    }
    Ok(names)
}

/// Whether a function is `main`, and others see it.
fn is_main(function: &TFunction) -> bool
    ensures { result ≡ spec.is_main function.now }
{
    !function.local && function.name.as_slice() == b"main".as_slice()
}

fn has_main(functions: &[TFunction]) -> bool
    ensures { result ≡ list_any spec.is_main functions.now }
{
    functions.iter().any(|function| is_main(function))
}

/// Appends a name that is used.
fn push_used(
    alloc: Global,
    names: &mut Items<Name>,
    used: bool,
    name: &Name,
) -> Result<(), AllocError>
    ensures { OnOk result (names.new ≡ names.old ++ (if used then name.now ∷ [] else [])) }
{
    if used {
        return names.push(name.copy(alloc)?);
    }
    Ok(())
}

/// The names of the externs that are used.
fn used_names(
    alloc: Global,
    externs: &[ExternInfo],
    used: &[bool],
) -> Result<Items<Name>, AllocError>
    requires { length used.now ≡ length externs.now }
    ensures { IfOk result (λ names. names ≡ used_by used.now externs.now) }
{
    let mut names = Items::new(alloc);
    for (number, info) in externs.iter().enumerate() {
        push_used(alloc, &mut names, used[number], &info.name)?;
    }
    Ok(names)
}

/// What a link sees of a file, of which this is the text.
pub fn names_of(alloc: Global, program: &Program, typed: &Typed) -> Result<FileNames, AllocError>
    ensures { IfOk result (λ names. names ≡ spec.names_of program.now typed.now) }
{
    let parts = program.items.as_slice();
    let externs = typed.externs.as_slice();
    let functions = typed.functions.as_slice();
    let known = global_names(alloc, typed)?;
    let used = used_externs(alloc, typed)?;
    let marks = used.as_slice();
    let defined = declared(alloc, &known, parts)?;
    let undefined = used_names(alloc, externs, marks)?;
    Ok(FileNames {
        defined,
        has_main: has_main(functions),
        undefined,
    })
}
