//! Declarations of objects in blocks, and the type that a declaration gives its object (C11 6.7).

ghost use Rattle.std.specs.Prelude.{◌≡◌, ◌∷◌, ◌++◌, ◌&&◌, not, leb, length, IfOk, OnOk, None, Some, option_copied, if◌then◌else◌};
ghost use Rattle.std.specs.Str.{bytes_eq};
ghost use Rattle.c_type_expr.specs.declared.scopes.Meaning.TheVariants as means;
ghost use Rattle.c_type_expr.specs.declared.scopes.Place.TheVariants as place;
ghost use Rattle.c_type_stmt.specs.Declarations as spec;
ghost use Rattle.c_type_expr.specs.Outcomes.{option_map};
ghost use Rattle.c_type_stmt.specs.Declarations.{object_rules, local_info};
ghost use Rattle.c_type_expr.specs.Environment.{binds};
ghost use Rattle.c_type_expr.specs.Expressions.{expression};
ghost use Rattle.c_type_expr.specs.Faults.{rule, broken, all_kept};
ghost use Rattle.c_type_stmt.specs.Initials.{initialiser};
ghost use Rattle.c_type_stmt.specs.Locals.{declares_object};
ghost use Rattle.c_type_expr.specs.Scoping.{with_binding};
ghost use Rattle.c_type_base.specs.Sizes.{size, largest};
ghost use Rattle.c_type_expr.specs.Walked.{Walked, env_of, blamed};

use crate::fitted::Fitted;
use crate::initial::initialised;
use c_ast::{Decl, Expr, Init, Name, Node, Span};
use c_type_base::{
    LocalInfo, StructInfo, TDecl, Ty, Written, capped_size, copy_ty, is_char_type, is_complete,
};
use c_type_expr::{Binding, Meaning, Place, Walk, written};
use sqlite_items::Boxed;
use std::alloc::{AllocError, Global};

/// The type that a declaration gives its object.
#[tactic(auto, using(crate::proofs::DeclarationLaws::type_walked, crate::proofs::DeclarationLaws::type_unknown))]
pub fn declared_type(walk: &mut Walk, alloc: Global, d: &Decl) -> Result<Option<Ty>, AllocError>
    ensures { IfOk result (λ t. Walked (spec.declared_type d.now) walk.old walk.new t) }
{
    match written(walk, alloc, &d.ty, d.span)? {
        None => Ok(None),
        Some(t) => Ok(Some(object_type(alloc, d.init.as_ref(), t)?)),
    }
}

/// The type of an object, by its initialiser where the length of an array is left out.
fn object_type(alloc: Global, init: Option<&Init>, t: Written) -> Result<Ty, AllocError>
    ensures { IfOk result (λ made. made ≡ spec.object_type (option_map initialiser (option_copied init.entry)) t) }
{
    match t {
        Written::Whole(t) => Ok(t),
        Written::Open(element) => {
            let length = given_length(&element, init).unwrap_or(0);
            Ok(Ty::Array(Boxed::new(alloc, element)?, length))
        }
    }
}

/// The length that an initialiser gives an array.
fn given_length(element: &Ty, init: Option<&Init>) -> Option<u64>
    ensures { result ≡ spec.given_length element.now (option_map initialiser (option_copied init.entry)) }
{
    match init {
        None => None,
        Some(Init::List(items, _)) => Some(items.as_slice().len() as u64),
        Some(Init::One(e)) => {
            if is_char_type(element) {
                text_length(e)
            } else {
                None
            }
        }
    }
}

/// The bytes of a text with the final zero.
fn text_length(e: &Expr) -> Option<u64>
    ensures { result ≡ option_map length (expression e.now).text }
{
    match e.node.get() {
        Node::Text(bytes) => Some(bytes.as_slice().len() as u64 + 1),
        _ => None,
    }
}

/// Whether a name may be declared here: not again in one scope, and not that of the include line's constant.
pub fn is_new(walk: &Walk, name: &[u8]) -> bool
    ensures { result ≡ spec.is_new (env_of walk.now) name.now }
{
    match walk.scopes.find_inner(name) {
        Some(_) => false,
        None => is_free(walk.stdio, name),
    }
}

/// Whether it is not the name of the include line's constant, while that is in scope.
pub fn is_free(stdio: bool, name: &[u8]) -> bool
    ensures { result ≡ not (stdio && bytes_eq name.now spec.eof_name) }
{
    !(stdio && name == b"EOF".as_slice())
}

/// Whether a type has at most so many bytes as one may have.
pub fn is_small(t: &Ty, structs: &[StructInfo]) -> bool
    ensures { result ≡ leb (size structs.now t.now) largest }
{
    capped_size(t, structs) <= 16777216
}

/// Asks whether a name is new, and whether an object may have the type. Whether both are so.
pub fn ask_object(walk: &mut Walk, span: Span, new: bool, t: Option<&Ty>) -> bool
    ensures kept { result ≡ all_kept (rule 10 new ∷ object_rules walk.old.structs (option_copied t.entry)) }
    ensures blames { walk.new ≡ blamed walk.old (broken span (rule 10 new ∷ object_rules walk.old.structs (option_copied t.entry))) }
{
    match t {
        None => {
            walk.ask(span, 10, new);
            new
        }
        Some(t) => ask_typed(walk, span, new, t),
    }
}

/// The same where the type is known.
#[tactic(auto, using(crate::proofs::DeclarationLaws::blamed_twice))]
fn ask_typed(walk: &mut Walk, span: Span, new: bool, t: &Ty) -> bool
    ensures kept { result ≡ all_kept (rule 10 new ∷ object_rules walk.old.structs (Some t.now)) }
    ensures blames { walk.new ≡ blamed walk.old (broken span (rule 10 new ∷ object_rules walk.old.structs (Some t.now))) }
{
    let complete = is_complete(t, walk.structs.as_slice());
    let small = is_small(t, walk.structs.as_slice());
    walk.ask(span, 10, new);
    walk.ask_both(span, 15, complete, 17, small);
    new && complete && small
}

/// An equal type, where it is known.
pub fn copy_known(alloc: Global, t: Option<&Ty>) -> Result<Option<Ty>, AllocError>
    ensures { IfOk result (λ copied. copied ≡ option_copied t.entry) }
{
    match t {
        None => Ok(None),
        Some(t) => Ok(Some(copy_ty(alloc, t)?)),
    }
}

/// Adds a local to those of the function, where its type is known, and its name to the innermost scope.
pub fn bind_local(
    walk: &mut Walk,
    alloc: Global,
    number: u32,
    name: &Name,
    span: Span,
    t: Option<&Ty>,
) -> Result<(), AllocError>
    ensures { OnOk result (walk.new ≡ record walk.old {
      scopes = with_binding walk.old.scopes (binds name.now (means.Object (place.Local number) (option_copied t.entry)));
      locals = walk.old.locals ++ local_info name.now span (option_copied t.entry);
    }) }
{
    if let Some(t) = t {
        let ty = copy_ty(alloc, t)?;
        let name = name.copy(alloc)?;
        walk.locals.push(LocalInfo { name, ty, span })?;
    }
    let means = Meaning::Object(Place::Local(number), copy_known(alloc, t)?);
    let name = name.copy(alloc)?;
    walk.scopes.add(Binding { name, means })
}

/// Declares a local. Whether it keeps its rules.
#[tactic(auto, using(crate::proofs::DeclarationLaws::object_walked))]
fn declare_local(
    walk: &mut Walk,
    alloc: Global,
    number: u32,
    d: &Decl,
    t: Option<&Ty>,
) -> Result<bool, AllocError>
    requires { number ≡ length walk.old.locals }
    ensures { IfOk result (λ kept.
        Walked (declares_object d.now (option_copied t.entry)) walk.old walk.new (if kept then option_copied t.entry else None)) }
{
    let new = is_new(walk, d.name.as_slice());
    let kept = ask_object(walk, d.span, new, t);
    bind_local(walk, alloc, number, &d.name, d.span, t)?;
    Ok(kept)
}

/// A local in the typed program, where all of it is known.
fn made_local(
    number: u32,
    span: Span,
    kept: bool,
    t: Option<&Ty>,
    init: Option<Option<Fitted>>,
) -> Option<TDecl>
    ensures { result ≡ spec.tdecl number span (if kept then option_copied t.entry else None) init }
{
    let Some(init) = init else {
        return None;
    };
    if !kept || t.is_none() {
        return None;
    }
    let init = match init {
        None => None,
        Some(fitted) => Some(fitted.tree),
    };
    Some(TDecl {
        local: number,
        init,
        span,
    })
}

/// A local: its type, its name, and then its initialiser. More locals than a number can tell count as want of memory.
#[tactic(auto, using(crate::proofs::DeclarationLaws::local_walked))]
pub fn local(walk: &mut Walk, alloc: Global, d: &Decl) -> Result<Option<TDecl>, AllocError>
    ensures { IfOk result (λ t. Walked (spec.local d.now) walk.old walk.new t) }
{
    let t = declared_type(walk, alloc, d)?;
    let Ok(number) = u32::try_from(walk.locals.len()) else {
        return Err(AllocError);
    };
    let kept = declare_local(walk, alloc, number, d, t.as_ref())?;
    let init = initialised(walk, alloc, false, t.as_ref(), d.init.as_ref())?;
    Ok(made_local(number, d.span, kept, t.as_ref(), init))
}
