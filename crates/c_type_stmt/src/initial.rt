//! The walk over initialisers (C11 6.7.9).

ghost use Rattle.std.specs.Prelude.{◌≡◌, ◌∷◌, ◌&&◌, [], true, false, IfOk, IfSome, IfNone, OnOk, map, option_copied};
ghost use Rattle.c_type_stmt.specs.Declarations as spec;
ghost use Rattle.c_type_expr.specs.Outcomes.{option_map};
ghost use Rattle.c_type_stmt.specs.Initials as initials;
ghost use Rattle.c_ast.specs.declared.declaration.Init.TheVariants as init;
ghost use Rattle.c_type_stmt.specs.Initials.{initialiser, is_zero_list, is_aggregate_slot};
ghost use Rattle.c_type_stmt.specs.Slots.{Passes, Spare, loose_in, fitted_to, fits_all, slots_at, list_in, zero_in, scalar_list};
ghost use Rattle.c_type_expr.specs.Sorted.{listed_items, with_known};
ghost use Rattle.c_type_expr.specs.Walked.{Walked};

use crate::first_bytes::moved_pieces;
use crate::fitted::Fitted;
use crate::initial_expression::{expression_for, is_int_zero};
use crate::layout::{first_scalar, member};
use c_ast::{Expr, Init, IntType, Span};
use c_type_base::{
    InitPiece, InitValue, StructInfo, TInit, Ty, copy_ty, is_array, is_complete, is_struct,
    is_value, wrapped_size,
};
use c_type_expr::{Walk, expression};
use sqlite_items::Items;
use std::alloc::{AllocError, Global};

/// What an object of a type, which lives from the start of the run or not, is initialised with.
#[tactic(auto, using(crate::proofs::ListLaws::initialised_unfit, crate::proofs::ListLaws::initialised_unknown, crate::proofs::ListLaws::initialised_known))]
pub fn initialised(
    walk: &mut Walk,
    alloc: Global,
    from_start: bool,
    t: Option<&Ty>,
    init: Option<&Init>,
) -> Result<Option<Option<Fitted>>, AllocError>
    ensures { IfOk result (λ f.
        Walked (spec.initialised from_start (option_copied t.entry) (option_map initialiser (option_copied init.entry))) walk.old walk.new f) }
{
    let Some(init) = init else {
        return Ok(Some(None));
    };
    let Some(t) = t else {
        loose(walk, alloc, init)?;
        return Ok(None);
    };
    match fitted(walk, alloc, init, from_start, t)? {
        None => Ok(None),
        Some(fitted) => Ok(Some(Some(fitted))),
    }
}

/// An initialiser where there is no type that it has to fit. Whether all in it is known.
#[cycle(loose)]
#[tactic(auto, using(crate::proofs::InitialLaws::loose_one, crate::proofs::InitialLaws::loose_list))]
fn loose(walk: &mut Walk, alloc: Global, init: &Init) -> Result<bool, AllocError>
    ensures { IfOk result (λ known. Passes (initialiser init.now).loose walk.old walk.new known) }
{
    match init {
        Init::One(e) => loose_expression(walk, alloc, e),
        Init::List(inits, _) => loose_all(walk, alloc, inits.as_slice()),
    }
}

/// A void call is no value, whatever it stands for.
#[tactic(auto, using(crate::proofs::InitialLaws::loose_unknown, crate::proofs::InitialLaws::loose_known))]
fn loose_expression(walk: &mut Walk, alloc: Global, e: &Expr) -> Result<bool, AllocError>
    ensures { IfOk result (λ known. Passes (loose_in e.now) walk.old walk.new known) }
{
    match expression(walk, alloc, e)? {
        None => Ok(false),
        Some(k) => {
            walk.ask(e.span, 12, is_value(&k));
            Ok(true)
        }
    }
}

#[cycle(loose)]
#[tactic(auto, using(crate::proofs::InitialLaws::loose_next))]
fn loose_all(walk: &mut Walk, alloc: Global, inits: &[Init]) -> Result<bool, AllocError>
    ensures { IfOk result (λ known. Passes (initials.loose_all (map initialiser inits.now)) walk.old walk.new known) }
{
    let mut known = true;
    for init in inits {
        let this = loose(walk, alloc, init)?;
        known = both(known, this);
    }
    Ok(known)
}

fn both(a: bool, b: bool) -> bool
    ensures { result ≡ (a && b) }
{
    a && b
}

/// Where an initialiser of a list stands: the type that it has to fit, and its bytes from the start.
#[derive(Drop)]
pub struct Slot {
    pub ty: Ty,
    /// Modulo 2^64.
    pub offset: u64,
}

/// The place of an initialiser by its number in the list of an array or struct.
#[tactic(auto, using(crate::proofs::PlaceLaws::array_place))]
fn place_of(
    structs: &[StructInfo],
    alloc: Global,
    t: &Ty,
    k: usize,
) -> Result<Option<Slot>, AllocError>
    ensures { IfOk result (λ s. s ≡ slots_at structs.now t.now k) }
{
    match t {
        Ty::Array(element, length) => {
            if *length <= k as u64 {
                return Ok(None);
            }
            let offset = (k as u64).wrapping_mul(wrapped_size(element.get(), structs));
            let ty = copy_ty(alloc, element.get())?;
            Ok(Some(Slot { ty, offset }))
        }
        Ty::Struct(number) => match member(structs, *number, k) {
            None => Ok(None),
            Some(member) => {
                let ty = copy_ty(alloc, &member.ty)?;
                Ok(Some(Slot {
                    ty,
                    offset: member.offset,
                }))
            }
        },
        _ => Ok(None),
    }
}

/// Where an initialiser stands.
pub fn span_of(init: &Init) -> Span
    ensures { result ≡ (initialiser init.now).span }
{
    match init {
        Init::One(e) => e.span,
        Init::List(_, span) => *span,
    }
}

/// The first that is too many for its list, with all behind it.
#[tactic(auto, using(crate::proofs::InitialLaws::spare_walked))]
fn too_many(walk: &mut Walk, alloc: Global, inits: &[Init]) -> Result<(), AllocError>
    ensures { OnOk result (Spare (map initialiser inits.now) walk.old walk.new) }
{
    let [first, rest @ ..] = inits else {
        return Ok(());
    };
    loose(walk, alloc, first)?;
    walk.ask(span_of(first), 16, false);
    loose_all(walk, alloc, rest)?;
    Ok(())
}

/// One more at its place, if all so far are known.
fn with_fitted(
    alloc: Global,
    so_far: Option<Vec<Fitted>>,
    offset: u64,
    known: Option<Fitted>,
) -> Result<Option<Vec<Fitted>>, AllocError>
    ensures { IfOk result (λ more. listed_items more ≡ with_known (listed_items so_far) (option_map (initials.moved_fitted offset) known)) }
{
    let Some(mut so_far) = so_far else {
        return Ok(None);
    };
    let Some(known) = known else {
        return Ok(None);
    };
    let pieces = moved_pieces(alloc, offset, known.pieces.as_slice())?;
    so_far.push(Fitted {
        tree: known.tree,
        pieces,
    })?;
    Ok(Some(so_far))
}

/// The initialisers of a list, each at its place.
#[cycle(fitted)]
#[tactic(auto, using(crate::proofs::FitLaws::fit_turn, crate::proofs::FitLaws::fit_over, crate::proofs::FitLaws::fit_end))]
fn fit_all(
    walk: &mut Walk,
    alloc: Global,
    inits: &[Init],
    from_start: bool,
    t: &Ty,
) -> Result<Option<Vec<Fitted>>, AllocError>
    ensures { IfOk result (λ fs. Walked (fits_all from_start t.now (map initialiser inits.now)) walk.old walk.new (listed_items fs)) }
{
    let mut so_far = Some(Vec::new(alloc));
    for k in 0..inits.len() {
        let Some(slot) = place_of(walk.structs.as_slice(), alloc, t, k)? else {
            too_many(walk, alloc, &inits[k..])?;
            return Ok(None);
        };
        let known = fitted(walk, alloc, &inits[k], from_start, &slot.ty)?;
        so_far = with_fitted(alloc, so_far, slot.offset, known)?;
    }
    Ok(so_far)
}

/// A list in braces.
fn in_braces(alloc: Global, span: Span, fitted: Vec<Fitted>) -> Result<Fitted, AllocError>
    ensures { IfOk result (λ f. f ≡ initials.in_braces span fitted.items) }
{
    let mut trees = Items::new(alloc);
    let mut pieces = Items::new(alloc);
    for one in fitted {
        trees.push(one.tree)?;
        pieces.append(one.pieces)?;
    }
    Ok(Fitted {
        tree: TInit::List(trees, span),
        pieces,
    })
}

/// The constant 0 of type int, where it is a list's one initialiser and the first place is an array or a struct itself.
fn zero_of<'a>(structs: &[StructInfo], t: &Ty, inits: &'a [Init]) -> Option<&'a Expr>
    ensures some { IfSome result (λ e. (inits.now ≡ init.One e.now ∷ [])
        × ((is_zero_list (map initialiser inits.now) && is_aggregate_slot (slots_at structs.now t.now 0)) ≡ true)) }
    ensures none { IfNone result ((is_zero_list (map initialiser inits.now) && is_aggregate_slot (slots_at structs.now t.now 0)) ≡ false) }
{
    match inits {
        [Init::One(e)] => {
            if is_int_zero(e) && first_is_aggregate(structs, t) {
                Some(e)
            } else {
                None
            }
        }
        _ => None,
    }
}

/// A list for an array or a struct with a body.
#[cycle(fitted)]
#[tactic(auto, using(crate::proofs::BraceLaws::list_zero, crate::proofs::BraceLaws::list_unknown, crate::proofs::BraceLaws::list_known))]
fn list_in(
    walk: &mut Walk,
    alloc: Global,
    inits: &[Init],
    span: Span,
    from_start: bool,
    t: &Ty,
) -> Result<Option<Fitted>, AllocError>
    ensures { IfOk result (λ f. Walked (list_in span (map initialiser inits.now) from_start t.now) walk.old walk.new f) }
{
    match zero_of(walk.structs.as_slice(), t, inits) {
        Some(e) => zero_list(walk, alloc, span, t, e),
        None => match fit_all(walk, alloc, inits, from_start, t)? {
            None => Ok(None),
            Some(fitted) => Ok(Some(in_braces(alloc, span, fitted)?)),
        },
    }
}

/// Whether the first place is an array or a struct itself.
fn first_is_aggregate(structs: &[StructInfo], t: &Ty) -> bool
    ensures { result ≡ initials.is_aggregate_slot (slots_at structs.now t.now 0) }
{
    match t {
        Ty::Array(element, length) => {
            0 < *length && (is_array(element.get()) || is_struct(element.get()))
        }
        Ty::Struct(number) => match member(structs, *number, 0) {
            None => false,
            Some(member) => is_array(&member.ty) || is_struct(&member.ty),
        },
        _ => false,
    }
}

/// `{0}` for what begins with an array or a struct: the first scalar among its bytes.
#[tactic(auto, using(crate::proofs::BraceLaws::zero_unknown, crate::proofs::BraceLaws::zero_known))]
fn zero_list(
    walk: &mut Walk,
    alloc: Global,
    span: Span,
    t: &Ty,
    e: &Expr,
) -> Result<Option<Fitted>, AllocError>
    ensures { IfOk result (λ f. Walked (zero_in span t.now e.now) walk.old walk.new f) }
{
    let bytes = first_scalar(walk.structs.as_slice(), t);
    match expression_for(walk, alloc, false, &Ty::Int(IntType::Int), e)? {
        None => Ok(None),
        Some(fitted) => {
            let mut trees = Items::new(alloc);
            trees.push(fitted.tree)?;
            let mut pieces = Items::new(alloc);
            pieces.push(InitPiece {
                offset: 0,
                value: InitValue::Number(0, bytes),
            })?;
            Ok(Some(Fitted {
                tree: TInit::List(trees, span),
                pieces,
            }))
        }
    }
}

/// A list, for a type.
#[cycle(fitted)]
#[tactic(auto, using(crate::proofs::ListLaws::list_bare, crate::proofs::ListLaws::list_with_places, crate::proofs::ListLaws::list_without_places))]
fn list_for(
    walk: &mut Walk,
    alloc: Global,
    inits: &[Init],
    span: Span,
    from_start: bool,
    t: &Ty,
) -> Result<Option<Fitted>, AllocError>
    ensures { IfOk result (λ f. Walked (initials.list_for span (map initialiser inits.now) from_start t.now) walk.old walk.new f) }
{
    if is_struct(t) && !is_complete(t, walk.structs.as_slice()) {
        loose_all(walk, alloc, inits)?;
        return Ok(None);
    }
    if is_array(t) || is_struct(t) {
        return list_in(walk, alloc, inits, span, from_start, t);
    }
    scalar_list(walk, alloc, span, inits)
}

/// A list for a scalar or void, which takes none.
#[tactic(auto, using(crate::proofs::ListLaws::scalar_known, crate::proofs::ListLaws::scalar_unknown))]
fn scalar_list(
    walk: &mut Walk,
    alloc: Global,
    span: Span,
    inits: &[Init],
) -> Result<Option<Fitted>, AllocError>
    ensures { IfOk result (λ f. Walked (scalar_list span (map initialiser inits.now)) walk.old walk.new f) }
{
    if loose_all(walk, alloc, inits)? {
        walk.ask(span, 16, false);
        return Ok(None);
    }
    Ok(None)
}

/// An initialiser of an object of a type, which lives from the start of the run or not.
#[cycle(fitted)]
#[tactic(auto, using(crate::proofs::ListLaws::fitted_one, crate::proofs::ListLaws::fitted_list))]
fn fitted(
    walk: &mut Walk,
    alloc: Global,
    init: &Init,
    from_start: bool,
    t: &Ty,
) -> Result<Option<Fitted>, AllocError>
    ensures { IfOk result (λ f. Walked (fitted_to (initialiser init.now) from_start t.now) walk.old walk.new f) }
{
    match init {
        Init::One(e) => expression_for(walk, alloc, from_start, t, e),
        Init::List(inits, span) => { list_for(walk, alloc, inits.as_slice(), *span, from_start, t) }
    }
}
