//! The judgement of a link.

ghost use Rattle.std.specs.Prelude.{◌≡◌, ◌≤◌, flat_map, length, find, IfOk, IfErr, OnOk, None};
ghost use Rattle.std.specs.Option.{option_copied};
ghost use Rattle.linker.specs.declared.refusal.LinkRefusal.TheVariants.{NoMemory};
ghost use Rattle.mean_link.specs.LinkFault as spec;
ghost use Rattle.mean_link.specs.LinkFault.{AreLinked, IsLinkCause, defined_by, file_limit};
ghost use Rattle.mean_link.specs.Names.{is_among};
ghost use Rattle.mean_link.specs.Laws.NameLaws.{Adds, HaveSame, is_unknown};

use crate::known::Known;
use crate::names::FileNames;
use c_ast::Name;
use elf_base::Name as SymbolName;
use linker::LinkRefusal;
use std::alloc::{AllocError, Global};

/// The first of these names that is known.
fn first_known<'a>(known: &Known, names: &'a [Name]) -> Option<&'a Name>
    ensures { option_copied result ≡ find (is_among known.now) names.now }
{
    for name in names {
        if known.has(name.as_slice()) {
            return Some(name);
        }
    }
    None
}

/// The first of these names that is not known.
fn first_unknown<'a>(known: &Known, names: &'a [Name]) -> Option<&'a Name>
    ensures { option_copied result ≡ find (is_unknown known.now) names.now }
{
    for name in names {
        if !known.has(name.as_slice()) {
            return Some(name);
        }
    }
    None
}

/// Adds these names.
fn add_all(alloc: Global, known: &mut Known, names: &[Name]) -> Result<(), AllocError>
    ensures { OnOk result (Adds known.old known.new names.now) }
{
    for name in names {
        known.add(alloc, name.as_slice())?;
    }
    Ok(())
}

/// A name as that of a symbol.
fn symbol_name(alloc: Global, name: &Name) -> Result<SymbolName, LinkRefusal>
    ensures same { IfOk result (λ n. n ≡ name.now) }
    ensures memory { IfErr result (λ r. r ≡ NoMemory) }
{
    Ok(SymbolName::from_slice(alloc, name.as_slice())?)
}

/// The names that the files define, of which none defines one that an earlier one has defined.
fn defined(alloc: Global, files: &[FileNames]) -> Result<Known, LinkRefusal>
    requires few { length files.now ≤ file_limit }
    ensures known { IfOk result (λ known. HaveSame known (flat_map defined_by files.now)) }
    ensures once { IfOk result (λ _. spec.first_repeated files.now ≡ None) }
    ensures refused { IfErr result (IsLinkCause files.now) }
{
    let mut known = Known::new(alloc);
    for file in files {
        if let Some(repeated) = first_known(&known, file.defined.as_slice()) {
            let name = symbol_name(alloc, repeated)?;
            return Err(LinkRefusal::Duplicate { name });
        }
        add_all(alloc, &mut known, file.defined.as_slice())?;
    }
    Ok(known)
}

fn main_is_there(files: &[FileNames]) -> bool
    ensures { result ≡ spec.has_main files.now }
{
    files.iter().any(|file| file.has_main)
}

/// The first name that a file leaves to others and none defines.
fn first_missing<'a>(known: &Known, files: &'a [FileNames]) -> Option<&'a Name>
    requires { HaveSame known.now (flat_map defined_by files.now) }
    ensures { option_copied result ≡ spec.first_missing files.now }
{
    for file in files {
        if let Some(missing) = first_unknown(known, file.undefined.as_slice()) {
            return Some(missing);
        }
    }
    None
}

/// Whether the files link, and else the first reason why they do not.
pub fn judge(alloc: Global, files: &[FileNames]) -> Result<(), LinkRefusal>
    requires few { length files.now ≤ file_limit }
    ensures linked { OnOk result (AreLinked files.now) }
    ensures refused { IfErr result (IsLinkCause files.now) }
{
    let known = defined(alloc, files)?;
    if !main_is_there(files) {
        return Err(LinkRefusal::NoMain);
    }
    if let Some(missing) = first_missing(&known, files) {
        let name = symbol_name(alloc, missing)?;
        return Err(LinkRefusal::Undefined { name });
    }
    Ok(())
}
