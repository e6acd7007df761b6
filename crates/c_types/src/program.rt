//! The check of a program's types.

ghost use Rattle.std.specs.Prelude.{◌≡◌, ◌⊎◌, ℕ, IfOk, IfErr, IsErrAnd, MatchResult};
ghost use Rattle.c_ast.specs.declared.token.Span.{Span};
ghost use Rattle.c_type_base.specs.declared.typed.Typed.{Typed};
ghost use Rattle.c_types.specs.Files as named;
ghost use Rattle.c_ast.specs.declared.program.Program.{Program};
ghost use Rattle.c_types.specs.Refusal as cause;
ghost use Rattle.c_types.specs.Refusal.{IsCause, IsAnswer};
ghost use Rattle.c_types.specs.Standing.{FileStands};
ghost use Rattle.c_types.specs.Units as spec;
ghost use Rattle.c_types.specs.Units.{Judgement, start};
ghost use Rattle.c_types.specs.WellTyped.{WellTyped, FirstBroken};

use crate::file_walk::{FileWalk, first_files};
use crate::names::{FileNames, file_names};
use crate::ordered::{externs_by, functions_by, globals_by};
use crate::parts::parts_judged;
use crate::refusal::{TypeRefusal, refusal_of};
use c_ast::Program;
use c_type_base::Typed;
use std::alloc::{AllocError, Global};

/// A walk over all parts of a program.
fn walked(alloc: Global, names: &FileNames, program: &Program) -> Result<FileWalk, AllocError>
    ensures { IfOk result (λ files. FileStands files (spec.parts_judged names.now start program.now.items)) }
{
    let mut files = first_files(alloc);
    parts_judged(&mut files, names, alloc, program.items.as_slice())?;
    Ok(files)
}

/// What was found, in the order of the names.
fn typed_by(alloc: Global, names: &FileNames, files: FileWalk) -> Result<Typed, AllocError>
    ensures { (j : Judgement) → FileStands files j → IfOk result (λ typed. typed ≡ spec.typed_by names.now j) }
{
    let FileWalk {
        walk,
        declared,
        globals,
        functions,
    } = files;
    let globals = globals_by(alloc, &names.globals, globals)?;
    let functions = functions_by(alloc, &names.functions, functions)?;
    let externs = externs_by(alloc, &names.externs, &declared)?;
    Ok(Typed {
        structs: walk.structs,
        globals,
        functions,
        externs,
        texts: walk.texts,
    })
}

/// The answer to a walk over the whole program.
fn answer(alloc: Global, names: &FileNames, files: FileWalk) -> Result<Typed, TypeRefusal>
    ensures { (program : Program) → names.now ≡ named.file_names program → FileStands files (spec.judged program) →
        IsAnswer program result }
{
    match files.walk.first {
        Some(fault) => Err(refusal_of(fault)),
        None => match typed_by(alloc, names, files) {
            Ok(typed) => Ok(typed),
            Err(_) => Err(TypeRefusal::NoMemory),
        },
    }
}

/// The program with its names resolved and its types, or the first rule that it breaks (C11 6.3 to 6.9, cut to the profile).
///
/// Only want of memory has no cause in the program.
pub fn check(alloc: Global, program: &Program) -> Result<Typed, TypeRefusal>
    ensures typed { IfOk result (WellTyped program.now) }
    ensures refused { IfErr result (IsCause program.now) }

    // Want of memory aside, each well-typed program is answered so, and for every other the first broken rule is told.
    ensures all { (typed : Typed) → WellTyped program.now typed →
        MatchResult result (λ found. found ≡ typed) (λ r. r ≡ TypeRefusal.NoMemory) }
    ensures first_broken { (number : ℕ) (span : Span) → FirstBroken program.now number span →
        IsErrAnd result (λ r. (r ≡ cause.refusal_of number span) ⊎ (r ≡ TypeRefusal.NoMemory)) }
{
    let Ok(names) = file_names(alloc, program) else {
        return Err(TypeRefusal::NoMemory);
    };
    match walked(alloc, &names, program) {
        Ok(files) => answer(alloc, &names, files),
        Err(_) => Err(TypeRefusal::NoMemory),
    }
}
