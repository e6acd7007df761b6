//! The parts of a file, in order (C11 6.9).

ghost use Rattle.std.specs.Prelude.{◌≡◌, IfOk, OnOk};
ghost use Rattle.c_type_expr.specs.declared.scopes.Signature.{Signature};
ghost use Rattle.c_types.specs.Redeclarations as declared;
ghost use Rattle.c_types.specs.Standing.{Stands, FileStands};
ghost use Rattle.c_types.specs.Units as spec;
ghost use Rattle.c_types.specs.Units.{Judgement};

use crate::file_walk::{FileWalk, declare};
use crate::functions::function_judged;
use crate::names::FileNames;
use crate::objects::objects_judged;
use crate::structs::struct_judged;
use c_ast::{External, IntType};
use c_type_base::{Callee, Ty};
use c_type_expr::{Meaning, Signature, Walk};
use sqlite_items::Items;
use std::alloc::{AllocError, Global};

/// `int putchar(int)`.
fn putchar_type(alloc: Global) -> Result<Signature, AllocError>
    ensures { IfOk result (λ made. made ≡ declared.putchar_type) }
{
    let mut params = Items::new(alloc);
    params.push(Ty::Int(IntType::Int))?;
    Ok(Signature {
        result: Ty::Int(IntType::Int),
        params,
    })
}

/// `int getchar(void)`.
fn getchar_type(alloc: Global) -> Signature
    ensures { result ≡ declared.getchar_type }
{
    Signature {
        result: Ty::Int(IntType::Int),
        params: Items::new(alloc),
    }
}

/// The include line declares its names from its place on (C11 7.21.7.6, 7.21.7.8).
fn included(walk: &mut Walk, alloc: Global) -> Result<(), AllocError>
    ensures { OnOk result ((j : Judgement) → Stands walk.old j → Stands walk.new (spec.included j)) }
{
    let writes = Meaning::Function(Callee::Putchar, Some(putchar_type(alloc)?));
    declare(walk, alloc, b"putchar", writes)?;
    let reads = Meaning::Function(Callee::Getchar, Some(getchar_type(alloc)));
    declare(walk, alloc, b"getchar", reads)?;
    declare(walk, alloc, b"EOF", Meaning::Eof)?;
    walk.stdio = true;
    Ok(())
}

/// A part of a file.
fn part_judged(
    files: &mut FileWalk,
    names: &FileNames,
    alloc: Global,
    part: &External,
) -> Result<(), AllocError>
    ensures { OnOk result ((j : Judgement) → FileStands files.old j → FileStands files.new (spec.part_judged names.now j part.now)) }
{
    match part {
        External::Include => {
            included(&mut files.walk, alloc)?;
            Ok(())
        }
        External::Struct(d) => {
            struct_judged(&mut files.walk, alloc, d)?;
            Ok(())
        }
        External::Objects(storage, decls) => {
            objects_judged(files, names, alloc, *storage, decls.as_slice())?;
            Ok(())
        }
        External::Function(f) => {
            function_judged(files, names, alloc, f)?;
            Ok(())
        }
    }
}

/// The parts of a file, in order.
pub fn parts_judged(
    files: &mut FileWalk,
    names: &FileNames,
    alloc: Global,
    parts: &[External],
) -> Result<(), AllocError>
    ensures { OnOk result ((j : Judgement) → FileStands files.old j → FileStands files.new (spec.parts_judged names.now j parts.now)) }
{
    for part in parts {
        part_judged(files, names, alloc, part)?;
    }
    Ok(())
}
