//! Functions: heads and bodies (C11 6.9.1, 5.1.2.2.1).

ghost use Rattle.std.specs.Prelude.{◌≡◌, ◌++◌, List, IfOk, OnOk, option_copied};
ghost use Rattle.c_type_base.specs.Types.{is_there};
ghost use Rattle.c_type_base.specs.declared.ty.Ty.{Ty};
ghost use Rattle.c_type_expr.specs.declared.scopes.Meaning.TheVariants as means;
ghost use Rattle.c_type_expr.specs.Environment.{binds};
ghost use Rattle.c_type_expr.specs.Faults.{broken};
ghost use Rattle.c_type_expr.specs.Outcomes.{Outcome};
ghost use Rattle.c_type_expr.specs.Walked.{blamed};
ghost use Rattle.c_types.specs.Files as named;
ghost use Rattle.c_types.specs.Functions as spec;
ghost use Rattle.c_types.specs.Inside.{Inside, Entered, Headed, Bodied, named_around, outside_of};
ghost use Rattle.c_types.specs.Ordered.{option_list};
ghost use Rattle.c_types.specs.Standing.{Stands, FileStands, Passed};
ghost use Rattle.c_types.specs.Units as said;
ghost use Rattle.c_types.specs.Units.{Judgement};

use crate::file_walk::FileWalk;
use crate::names::{FileNames, function_callee, is_static};
use crate::parameters::parameters;
use crate::redeclared::{Declared, Kind, may_stand};
use crate::types::whole_type;
use c_ast::{Function, IntType, Span, Stmt};
use c_type_base::{LocalInfo, TFunction, TStmt, Ty, copy_ty, is_scalar, is_void, same_type};
use c_type_expr::{Binding, Meaning, Signature, Walk, copy_signature};
use c_type_stmt::statement_body;
use sqlite_items::Items;
use std::alloc::{AllocError, Global};
use std::mem;

/// Whether a function has a body.
fn defines(f: &Function) -> bool
    ensures { result ≡ is_there f.now.body }
{
    f.body.is_some()
}

/// The parameters, in a scope that opens here.
fn enter(walk: &mut Walk, alloc: Global, f: &Function) -> Result<Option<Items<Ty>>, AllocError>
    ensures { IfOk result (λ ts. (j : Judgement) → Stands walk.old j →
        Entered (spec.parameters (is_there f.now.body) f.now.params) j walk.new ts) }
{
    walk.scopes.open(alloc)?;
    parameters(walk, alloc, defines(f), f.params.as_slice())
}

/// The type of a function's result.
fn result_type(walk: &mut Walk, alloc: Global, f: &Function) -> Result<Option<Ty>, AllocError>
    ensures { IfOk result (λ t. (j : Judgement) → Stands walk.old j → Passed (spec.result_type f.now) j walk.new t) }
{
    let t = whole_type(walk, alloc, &f.result, f.span)?;
    // At file scope there are no locals.
    walk.locals = Items::new(alloc);
    Ok(t)
}

/// A function's type, where all of it is known.
fn signature_of(
    alloc: Global,
    returns: Option<&Ty>,
    params: Option<Items<Ty>>,
) -> Result<Option<Signature>, AllocError>
    ensures { IfOk result (λ s. s ≡ spec.signature_of (option_copied returns.entry) params) }
{
    let Some(returns) = returns else {
        return Ok(None);
    };
    let Some(params) = params else {
        return Ok(None);
    };
    let returns = copy_ty(alloc, returns)?;
    Ok(Some(Signature {
        result: returns,
        params,
    }))
}

fn is_int(t: Option<&Ty>) -> bool
    ensures { result ≡ spec.is_int_in (option_copied t.entry) }
{
    match t {
        None => true,
        Some(t) => same_type(t, &Ty::Int(IntType::Int)),
    }
}

/// A function `main` is `int main(void)` and not static.
fn main_form(f: &Function, returns: Option<&Ty>) -> bool
    ensures { result ≡ spec.main_form f.now (option_copied returns.entry) }
{
    if f.name.as_slice() == b"main".as_slice() {
        is_int(returns) && f.params.len() <= 0 && !is_static(f.storage)
    } else {
        true
    }
}

/// Asks the rules on a function's head, of which one is that the declaration agrees with the earlier ones.
#[tactic(auto, using(crate::proofs::ParameterLaws::blamed_then))]
fn ask_head(walk: &mut Walk, f: &Function, agrees: bool, returns: Option<&Ty>)
    ensures { walk.new ≡ blamed walk.old (broken f.now.span (spec.head_rules f.now agrees (option_copied returns.entry))) }
{
    let few = f.params.len() <= 8;
    let form = main_form(f, returns);
    walk.ask_both(f.span, 10, agrees, 14, few);
    walk.ask(f.span, 19, form);
    ask_result(walk, f.span, returns);
}

/// A result is void or a scalar.
fn ask_result(walk: &mut Walk, span: Span, t: Option<&Ty>)
    ensures { walk.new ≡ blamed walk.old (broken span (spec.result_rules (option_copied t.entry))) }
{
    if let Some(t) = t {
        walk.ask(span, 12, is_void(t) || is_scalar(t));
    }
}

/// What a function's head declares at file scope.
fn declared(
    alloc: Global,
    f: &Function,
    signature: Option<&Signature>,
) -> Result<Declared, AllocError>
    ensures { IfOk result (λ d. d ≡ said.function_declared f.now (option_copied signature.entry)) }
{
    let name = f.name.copy(alloc)?;
    let signature = copy_known(alloc, signature)?;
    Ok(Declared {
        name,
        kind: Kind::AFunction(signature),
        local: is_static(f.storage),
        defined: defines(f),
    })
}

fn copy_known(alloc: Global, signature: Option<&Signature>) -> Result<Option<Signature>, AllocError>
    ensures { IfOk result (λ s. s ≡ option_copied signature.entry) }
{
    match signature {
        None => Ok(None),
        Some(signature) => Ok(Some(copy_signature(alloc, signature)?)),
    }
}

/// Declares a function's name around the scope of its parameters.
fn declare_name(
    walk: &mut Walk,
    names: &FileNames,
    alloc: Global,
    f: &Function,
    signature: Option<Signature>,
) -> Result<(), AllocError>
    ensures { OnOk result (walk.new ≡ record walk.old {
      scopes = named_around walk.old.scopes (binds f.now.name (means.Function (named.function_callee names.now f.now.name) signature));
    }) }
{
    let callee = function_callee(names, f.name.as_slice())?;
    let name = f.name.copy(alloc)?;
    let means = Meaning::Function(callee, signature);
    walk.scopes.add_around(alloc, Binding { name, means })
}

/// The head of a function, with the type of its result. The walk is in the scope of the parameters then.
fn head(
    files: &mut FileWalk,
    names: &FileNames,
    alloc: Global,
    f: &Function,
) -> Result<Option<Ty>, AllocError>
    ensures { IfOk result (λ t. (j : Judgement) → FileStands files.old j → Headed names.now f.now j files.new t) }
{
    let returns = result_type(&mut files.walk, alloc, f)?;
    let params = enter(&mut files.walk, alloc, f)?;
    let signature = signature_of(alloc, returns.as_ref(), params)?;
    let this = declared(alloc, f, signature.as_ref())?;
    let agrees = may_stand(names, &files.declared, &this);
    ask_head(&mut files.walk, f, agrees, returns.as_ref());
    files.declared.add(alloc, this)?;
    declare_name(&mut files.walk, names, alloc, f, signature)?;
    Ok(returns)
}

/// Leaves the scope of the parameters.
fn leave(walk: &mut Walk, alloc: Global)
    ensures { walk.new ≡ outside_of walk.old }
{
    walk.scopes.close(alloc);
    walk.locals = Items::new(alloc);
}

/// What comes of a body: the result of its function, its parameters and locals, and the body where it is known.
#[derive(Drop)]
pub struct Body {
    pub result: Option<Ty>,
    pub locals: Items<LocalInfo>,
    pub tree: Option<TStmt>,
}

/// The body of a function, whose outermost names share the scope of the parameters.
fn pass_body(
    walk: &mut Walk,
    alloc: Global,
    returns: Option<Ty>,
    s: &Stmt,
) -> Result<Body, AllocError>
    ensures bodied { IfOk result (λ b. (j : Judgement) (o : Outcome (List Ty)) → Inside walk.old j o → Bodied s.now j o walk.new b) }
    ensures same { IfOk result (λ b. b.result ≡ returns) }
{
    let outer = mem::replace(&mut walk.result, returns);
    let tree = statement_body(walk, alloc, s)?;
    walk.scopes.close(alloc);
    let locals = mem::replace(&mut walk.locals, Items::new(alloc));
    let result = mem::replace(&mut walk.result, outer);
    Ok(Body {
        result,
        locals,
        tree,
    })
}

/// A function in the typed program, where its result and its body are known. More parameters than a number can tell
/// count as want of memory.
fn made(alloc: Global, f: &Function, b: Body) -> Result<Option<TFunction>, AllocError>
    ensures { IfOk result (λ t. option_list t ≡ said.function_of f.now b.result b.locals b.tree) }
{
    let Body {
        result,
        locals,
        tree,
    } = b;
    let Some(result) = result else {
        return Ok(None);
    };
    let Some(body) = tree else {
        return Ok(None);
    };
    let Ok(params) = u32::try_from(f.params.len()) else {
        return Err(AllocError);
    };
    let name = f.name.copy(alloc)?;
    Ok(Some(TFunction {
        name,
        local: is_static(f.storage),
        params,
        result,
        locals,
        body,
        span: f.span,
    }))
}

/// One more function at the end, where it is made.
fn with_made(functions: &mut Items<TFunction>, made: Option<TFunction>) -> Result<(), AllocError>
    ensures { OnOk result (functions.new ≡ functions.old ++ option_list made) }
{
    match made {
        None => Ok(()),
        Some(made) => functions.push(made),
    }
}

/// A function: its head, and then its body. The error is want of memory.
pub fn function_judged(
    files: &mut FileWalk,
    names: &FileNames,
    alloc: Global,
    f: &Function,
) -> Result<(), AllocError>
    ensures { OnOk result ((j : Judgement) → FileStands files.old j → FileStands files.new (said.function_judged names.now j f.now)) }
{
    let returns = head(files, names, alloc, f)?;
    let Some(s) = &f.body else {
        leave(&mut files.walk, alloc);
        return Ok(());
    };
    let body = pass_body(&mut files.walk, alloc, returns, s)?;
    let made = made(alloc, f, body)?;
    with_made(&mut files.functions, made)?;
    Ok(())
}
