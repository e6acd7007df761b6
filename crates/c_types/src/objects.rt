//! Objects at file scope (C11 6.7, 6.9.2).

ghost use Rattle.std.specs.Prelude.{◌≡◌, ◌∷◌, ◌++◌, true, not, Some, IfOk, OnOk};
ghost use Rattle.std.specs.Str.{bytes_eq};
ghost use Rattle.c_type_expr.specs.declared.scopes.Meaning.TheVariants as means;
ghost use Rattle.c_type_expr.specs.Environment.{binds};
ghost use Rattle.c_type_expr.specs.Faults.{rule, broken};
ghost use Rattle.c_type_expr.specs.Scoping.{with_binding};
ghost use Rattle.c_type_expr.specs.Walked.{blamed};
ghost use Rattle.c_type_stmt.specs.Declarations as locals;
ghost use Rattle.c_type_stmt.specs.Declarations.{init_of, object_rules};
ghost use Rattle.c_types.specs.Files.{object_place};
ghost use Rattle.c_types.specs.Functions.{main_name};
ghost use Rattle.c_types.specs.Standing.{Stands, FileStands, Passed};
ghost use Rattle.c_types.specs.Units as spec;
ghost use Rattle.c_types.specs.Units.{Judgement};

use crate::file_walk::{FileWalk, declare, leave};
use crate::names::{FileNames, is_extern, is_static, object_place};
use crate::redeclared::{Declared, Kind, may_stand};
use c_ast::{Decl, Span, Storage};
use c_type_base::{GlobalInfo, InitPiece, Ty, is_complete};
use c_type_expr::{Meaning, Walk};
use c_type_stmt::{Fitted, copy_known, declared_type, initialised, is_small, span_of};
use sqlite_items::Items;
use std::alloc::{AllocError, Global};

/// The type that a declaration gives its object.
fn object_type(walk: &mut Walk, alloc: Global, d: &Decl) -> Result<Option<Ty>, AllocError>
    ensures { IfOk result (λ t. (j : Judgement) → Stands walk.old j → Passed (locals.declared_type d.now) j walk.new t) }
{
    let t = declared_type(walk, alloc, d)?;
    leave(walk, alloc);
    Ok(t)
}

/// Declares the object's name.
fn name_object(
    walk: &mut Walk,
    alloc: Global,
    names: &FileNames,
    d: &Decl,
    t: &Option<Ty>,
) -> Result<(), AllocError>
    ensures { OnOk result (walk.new ≡ record walk.old {
      scopes = with_binding walk.old.scopes (binds d.now.name (means.Object (object_place names.now d.now.name) t.now));
    }) }
{
    let place = object_place(names, d.name.as_slice())?;
    let t = copy_known(alloc, t.as_ref())?;
    declare(walk, alloc, d.name.as_slice(), Meaning::Object(place, t))?;
    Ok(())
}

/// What the object begins with.
fn object_init(
    walk: &mut Walk,
    alloc: Global,
    d: &Decl,
    t: &Option<Ty>,
) -> Result<Option<Option<Fitted>>, AllocError>
    ensures { IfOk result (λ i. (j : Judgement) → Stands walk.old j →
        Passed (locals.initialised true t.now (init_of d.now)) j walk.new i) }
{
    let init = initialised(walk, alloc, true, t.as_ref(), d.init.as_ref())?;
    leave(walk, alloc);
    Ok(init)
}

/// An `extern` object has no initialiser.
#[tactic(auto, using(crate::proofs::ObjectLaws::extern_asked, crate::proofs::ObjectLaws::extern_none))]
fn ask_extern(walk: &mut Walk, storage: Storage, d: &Decl)
    ensures { walk.new ≡ blamed walk.old (spec.extern_rules storage (init_of d.now)) }
{
    match &d.init {
        None => {}
        Some(init) => walk.ask(span_of(init), 16, !is_extern(storage)),
    }
}

/// Asks whether the object agrees with earlier declarations, whether it has another name than the first function, and whether an object
/// may have the type.
fn ask_rules(walk: &mut Walk, d: &Decl, agrees: bool, t: &Option<Ty>)
    ensures { walk.new ≡ blamed walk.old (broken d.now.span
        (rule 10 agrees ∷ rule 19 (not (bytes_eq d.now.name main_name)) ∷ object_rules walk.old.structs t.now)) }
{
    let other = d.name.as_slice() != b"main".as_slice();
    match t {
        None => walk.ask_both(d.span, 10, agrees, 19, other),
        Some(t) => ask_typed(walk, d.span, agrees, other, t),
    }
}

/// The same where the type is known.
fn ask_typed(walk: &mut Walk, span: Span, agrees: bool, other: bool, t: &Ty)
    ensures { walk.new ≡ blamed walk.old (broken span (rule 10 agrees ∷ rule 19 other ∷ object_rules walk.old.structs (Some t.now))) }
{
    let complete = is_complete(t, walk.structs.as_slice());
    let small = is_small(t, walk.structs.as_slice());
    walk.ask_both(span, 10, agrees, 19, other);
    walk.ask_both(span, 15, complete, 17, small);
}

/// What is declared.
fn object_declared(
    alloc: Global,
    storage: Storage,
    d: &Decl,
    t: &Option<Ty>,
) -> Result<Declared, AllocError>
    ensures { IfOk result (λ made. made ≡ spec.object_declared storage d.now t.now) }
{
    let name = d.name.copy(alloc)?;
    let t = copy_known(alloc, t.as_ref())?;
    Ok(Declared {
        name,
        kind: Kind::AnObject(t),
        local: is_static(storage),
        defined: !is_extern(storage),
    })
}

fn pieces_in(alloc: Global, init: Option<Option<Fitted>>) -> Items<InitPiece>
    ensures { result ≡ spec.pieces_in init }
{
    match init {
        Some(Some(fitted)) => fitted.pieces,
        _ => Items::new(alloc),
    }
}

/// Adds the object where it is defined and its type is known.
fn add_global(
    globals: &mut Items<GlobalInfo>,
    alloc: Global,
    storage: Storage,
    d: &Decl,
    t: Option<Ty>,
    init: Option<Option<Fitted>>,
) -> Result<(), AllocError>
    ensures { OnOk result (globals.new ≡ globals.old ++ spec.global_of storage d.now t (spec.pieces_in init)) }
{
    let Some(ty) = t else {
        return Ok(());
    };
    if is_extern(storage) {
        return Ok(());
    }
    let name = d.name.copy(alloc)?;
    globals.push(GlobalInfo {
        name,
        ty,
        local: is_static(storage),
        init: pieces_in(alloc, init),
        span: d.span,
    })?;
    Ok(())
}

/// An object: its type, its name, its initialiser, and then its rules.
fn object_judged(
    files: &mut FileWalk,
    names: &FileNames,
    alloc: Global,
    storage: Storage,
    d: &Decl,
) -> Result<(), AllocError>
    ensures { OnOk result ((j : Judgement) → FileStands files.old j →
        FileStands files.new (spec.object_judged names.now storage j d.now)) }
{
    let t = object_type(&mut files.walk, alloc, d)?;
    name_object(&mut files.walk, alloc, names, d, &t)?;
    let init = object_init(&mut files.walk, alloc, d, &t)?;
    let this = object_declared(alloc, storage, d, &t)?;
    let agrees = may_stand(names, &files.declared, &this);
    ask_extern(&mut files.walk, storage, d);
    ask_rules(&mut files.walk, d, agrees, &t);
    files.declared.add(alloc, this)?;
    add_global(&mut files.globals, alloc, storage, d, t, init)?;
    Ok(())
}

/// Objects in a row.
pub fn objects_judged(
    files: &mut FileWalk,
    names: &FileNames,
    alloc: Global,
    storage: Storage,
    decls: &[Decl],
) -> Result<(), AllocError>
    ensures { OnOk result ((j : Judgement) → FileStands files.old j →
        FileStands files.new (spec.objects_judged names.now storage j decls.now)) }
{
    for d in decls {
        object_judged(files, names, alloc, storage, d)?;
    }
    Ok(())
}
