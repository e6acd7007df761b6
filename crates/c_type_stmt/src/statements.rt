//! The walk over statements (C11 6.8).

ghost use Rattle.std.specs.Prelude.{◌≡◌, IfOk, map};
ghost use Rattle.c_type_expr.specs.Outcomes.{option_map};
ghost use Rattle.c_type_stmt.specs.Declarations.{local};
ghost use Rattle.c_type_expr.specs.Expressions.{judged_value};
ghost use Rattle.c_type_stmt.specs.Laws.SaidLaws.{item_judged};
ghost use Rattle.c_type_stmt.specs.Made.{block_made, if_made, while_made, do_made, for_made, expression_row};
ghost use Rattle.c_type_expr.specs.Outcomes.{each, on, perhaps, present};
ghost use Rattle.c_type_expr.specs.Sorted.{with_known};
ghost use Rattle.c_type_stmt.specs.Statements as spec;
ghost use Rattle.c_type_expr.specs.Walked.{Walked};

use crate::declaration::local;
use c_ast::{Decl, Expr, Item, Span, Stmt};
use c_type_base::{
    Known, TDecl, TExpr, TItem, TStmt, Ty, assignable, converted, is_scalar, is_void,
};
use c_type_expr::{Walk, judged_value};
use sqlite_items::{Boxed, Items};
use std::alloc::{AllocError, Global};

/// An expression of any type, also void.
#[tactic(auto, using(crate::proofs::StatementLaws::effect_walked, crate::proofs::StatementLaws::effect_unknown))]
fn effect(walk: &mut Walk, alloc: Global, e: &Expr) -> Result<Option<TExpr>, AllocError>
    ensures { IfOk result (λ t. Walked (spec.effect e.now) walk.old walk.new t) }
{
    match judged_value(walk, alloc, e)? {
        None => Ok(None),
        Some(k) => Ok(Some(k.tree)),
    }
}

/// A condition is a scalar.
#[tactic(auto, using(crate::proofs::StatementLaws::condition_walked, crate::proofs::StatementLaws::condition_unknown))]
fn condition(walk: &mut Walk, alloc: Global, e: &Expr) -> Result<Option<TExpr>, AllocError>
    ensures { IfOk result (λ t. Walked (spec.condition e.now) walk.old walk.new t) }
{
    match judged_value(walk, alloc, e)? {
        None => Ok(None),
        Some(k) => {
            walk.ask(k.tree.span, 12, is_scalar(&k.tree.ty));
            Ok(Some(k.tree))
        }
    }
}

/// An expression that may be left out.
#[tactic(auto, using(crate::proofs::StatementLaws::walked_left_out, crate::proofs::StatementLaws::walked_perhaps))]
fn optional_effect(
    walk: &mut Walk,
    alloc: Global,
    e: &Option<Expr>,
) -> Result<Option<Option<TExpr>>, AllocError>
    ensures { IfOk result (λ t. Walked (perhaps (option_map spec.effect e.now)) walk.old walk.new t) }
{
    match e {
        None => Ok(Some(None)),
        Some(e) => Ok(present_expr(effect(walk, alloc, e)?)),
    }
}

/// A condition that may be left out.
#[tactic(auto, using(crate::proofs::StatementLaws::walked_left_out, crate::proofs::StatementLaws::walked_perhaps))]
fn optional_condition(
    walk: &mut Walk,
    alloc: Global,
    e: &Option<Expr>,
) -> Result<Option<Option<TExpr>>, AllocError>
    ensures { IfOk result (λ t. Walked (perhaps (option_map spec.condition e.now)) walk.old walk.new t) }
{
    match e {
        None => Ok(Some(None)),
        Some(e) => Ok(present_expr(condition(walk, alloc, e)?)),
    }
}

fn present_expr(e: Option<TExpr>) -> Option<Option<TExpr>>
    ensures { result ≡ present e }
{
    match e {
        None => None,
        Some(e) => Some(Some(e)),
    }
}

/// One more declaration, if all so far are known.
fn with_local(
    declared: Option<Items<TDecl>>,
    known: Option<TDecl>,
) -> Result<Option<Items<TDecl>>, AllocError>
    ensures { IfOk result (λ more. more ≡ with_known declared known) }
{
    let Some(mut declared) = declared else {
        return Ok(None);
    };
    let Some(known) = known else {
        return Ok(None);
    };
    declared.push(known)?;
    Ok(Some(declared))
}

/// Declarations in a row.
fn locals(
    walk: &mut Walk,
    alloc: Global,
    decls: &[Decl],
) -> Result<Option<Items<TDecl>>, AllocError>
    ensures { IfOk result (λ ts. Walked (each (map local decls.now)) walk.old walk.new ts) }
{
    let mut declared = Some(Items::new(alloc));
    for d in decls {
        let known = local(walk, alloc, d)?;
        declared = with_local(declared, known)?;
    }
    Ok(declared)
}

/// `return`: of a value that can be assigned to the function's result, or of none where the function is void.
fn returned(
    walk: &mut Walk,
    alloc: Global,
    span: Span,
    value: Option<Known>,
) -> Result<Option<TStmt>, AllocError>
    ensures { IfOk result (λ t. Walked (spec.return_row span value) walk.old walk.new t) }
{
    let Some(result) = &walk.result else {
        return Ok(None);
    };
    match value {
        None => {
            let kept = is_void(result);
            walk.ask(span, 12, kept);
            Ok(Some(TStmt::Return(None, span)))
        }
        Some(value) => {
            let kept = !is_void(result) && assignable(result, &value);
            let value = converted(alloc, result, value)?;
            walk.ask(span, 12, kept);
            Ok(Some(TStmt::Return(Some(value.tree), span)))
        }
    }
}

/// `return` with what stands behind it.
#[tactic(auto, using(crate::proofs::StatementLaws::return_none, crate::proofs::StatementLaws::return_unknown, crate::proofs::StatementLaws::return_some))]
fn return_statement(
    walk: &mut Walk,
    alloc: Global,
    span: Span,
    e: &Option<Expr>,
) -> Result<Option<TStmt>, AllocError>
    ensures { IfOk result (λ t. Walked (on (perhaps (option_map judged_value e.now)) (spec.return_row span)) walk.old walk.new t) }
{
    match e {
        None => returned(walk, alloc, span, None),
        Some(e) => match judged_value(walk, alloc, e)? {
            None => Ok(None),
            Some(value) => returned(walk, alloc, span, Some(value)),
        },
    }
}

/// A block in the typed program.
fn made_block(items: Option<Items<TItem>>) -> Option<TStmt>
    ensures { result ≡ block_made items }
{
    match items {
        None => None,
        Some(items) => Some(TStmt::Block(items)),
    }
}

/// `if` in the typed program.
fn made_if(
    condition: Option<TExpr>,
    then: Option<Boxed<TStmt>>,
    other: Option<Option<Boxed<TStmt>>>,
) -> Option<TStmt>
    ensures { result ≡ if_made condition then other }
{
    match condition {
        None => None,
        Some(condition) => match then {
            None => None,
            Some(then) => match other {
                None => None,
                Some(other) => Some(TStmt::If(condition, then, other)),
            },
        },
    }
}

/// `while` in the typed program.
fn made_while(condition: Option<TExpr>, body: Option<Boxed<TStmt>>) -> Option<TStmt>
    ensures { result ≡ while_made condition body }
{
    match condition {
        None => None,
        Some(condition) => match body {
            None => None,
            Some(body) => Some(TStmt::While(condition, body)),
        },
    }
}

/// `do` in the typed program.
fn made_do(body: Option<Boxed<TStmt>>, condition: Option<TExpr>) -> Option<TStmt>
    ensures { result ≡ do_made body condition }
{
    match condition {
        None => None,
        Some(condition) => match body {
            None => None,
            Some(body) => Some(TStmt::DoWhile(body, condition)),
        },
    }
}

/// An expression that is a statement.
#[tactic(auto, using(crate::proofs::StatementLaws::expression_walked))]
fn expression_statement(
    walk: &mut Walk,
    alloc: Global,
    e: &Expr,
) -> Result<Option<TStmt>, AllocError>
    ensures { IfOk result (λ t. Walked (expression_row e.now) walk.old walk.new t) }
{
    match effect(walk, alloc, e)? {
        None => Ok(None),
        Some(e) => Ok(Some(TStmt::Expr(e))),
    }
}

/// One more part of a block, if all so far are known.
fn with_item(
    made: Option<Items<TItem>>,
    known: Option<TItem>,
) -> Result<Option<Items<TItem>>, AllocError>
    ensures { IfOk result (λ more. more ≡ with_known made known) }
{
    let Some(mut made) = made else {
        return Ok(None);
    };
    let Some(known) = known else {
        return Ok(None);
    };
    made.push(known)?;
    Ok(Some(made))
}

/// `for` in the typed program.
fn made_for(
    declared: Option<Items<TDecl>>,
    first: Option<Option<TExpr>>,
    condition: Option<Option<TExpr>>,
    next: Option<Option<TExpr>>,
    body: Option<Boxed<TStmt>>,
) -> Option<TStmt>
    ensures { result ≡ for_made declared first condition next body }
{
    let Some(declared) = declared else {
        return None;
    };
    let Some(first) = first else {
        return None;
    };
    let Some(condition) = condition else {
        return None;
    };
    let Some(next) = next else {
        return None;
    };
    let Some(body) = body else {
        return None;
    };
    Some(TStmt::For(declared, first, condition, next, body))
}

fn present_boxed(s: Option<Boxed<TStmt>>) -> Option<Option<Boxed<TStmt>>>
    ensures { result ≡ present s }
{
    match s {
        None => None,
        Some(s) => Some(Some(s)),
    }
}

/// A statement.
#[cycle(statement)]
pub fn statement(walk: &mut Walk, alloc: Global, s: &Stmt) -> Result<Option<TStmt>, AllocError>
    ensures { IfOk result (λ t. Walked (spec.statement s.now).judged walk.old walk.new t) }
{
    match s {
        Stmt::Block(items) => {
            walk.scopes.open(alloc)?;
            let items = items_in(walk, alloc, items.as_slice())?;
            walk.scopes.close(alloc);
            Ok(made_block(items))
        }
        Stmt::Expr(e) => expression_statement(walk, alloc, e),
        Stmt::Empty => Ok(Some(TStmt::Empty)),
        Stmt::If(e, then, other) => {
            let e = condition(walk, alloc, e)?;
            let then = boxed(walk, alloc, then)?;
            match other {
                None => Ok(made_if(e, then, Some(None))),
                Some(other) => {
                    let other = boxed(walk, alloc, other)?;
                    Ok(made_if(e, then, present_boxed(other)))
                }
            }
        }
        Stmt::While(e, body) => {
            let e = condition(walk, alloc, e)?;
            let body = boxed(walk, alloc, body)?;
            Ok(made_while(e, body))
        }
        Stmt::DoWhile(body, e) => {
            let body = boxed(walk, alloc, body)?;
            let e = condition(walk, alloc, e)?;
            Ok(made_do(body, e))
        }
        Stmt::For(decls, first, e, next, body) => {
            walk.scopes.open(alloc)?;
            let declared = locals(walk, alloc, decls.as_slice())?;
            let first = optional_effect(walk, alloc, first)?;
            let e = optional_condition(walk, alloc, e)?;
            let next = optional_effect(walk, alloc, next)?;
            let body = boxed(walk, alloc, body)?;
            walk.scopes.close(alloc);
            Ok(made_for(declared, first, e, next, body))
        }
        Stmt::Return(e, span) => return_statement(walk, alloc, *span, e),
        Stmt::Break(span) => Ok(Some(TStmt::Break(*span))),
        Stmt::Continue(span) => Ok(Some(TStmt::Continue(*span))),
    }
}

#[cycle(statement)]
fn boxed(
    walk: &mut Walk,
    alloc: Global,
    s: &Boxed<Stmt>,
) -> Result<Option<Boxed<TStmt>>, AllocError>
    ensures { IfOk result (λ t. Walked (spec.statement s.now).judged walk.old walk.new t) }
{
    match statement(walk, alloc, s.get())? {
        None => Ok(None),
        Some(made) => Ok(Some(Boxed::new(alloc, made)?)),
    }
}

/// The parts of a block.
#[cycle(statement)]
fn items_in(
    walk: &mut Walk,
    alloc: Global,
    items: &[Item],
) -> Result<Option<Items<TItem>>, AllocError>
    ensures { IfOk result (λ ts. Walked (each (map item_judged items.now)) walk.old walk.new ts) }
{
    let mut made = Some(Items::new(alloc));
    for item in items {
        let known = item_of(walk, alloc, item)?;
        made = with_item(made, known)?;
    }
    Ok(made)
}

/// A part of a block.
#[cycle(statement)]
fn item_of(walk: &mut Walk, alloc: Global, item: &Item) -> Result<Option<TItem>, AllocError>
    ensures { IfOk result (λ t. Walked (item_judged item.now) walk.old walk.new t) }
{
    match item {
        Item::Local(decls) => match locals(walk, alloc, decls.as_slice())? {
            None => Ok(None),
            Some(declared) => Ok(Some(TItem::Local(declared))),
        },
        Item::Stmt(s) => match statement(walk, alloc, s)? {
            None => Ok(None),
            Some(made) => Ok(Some(TItem::Stmt(made))),
        },
    }
}

/// A statement as the body of a function, whose names share a scope with the parameters.
pub fn statement_body(walk: &mut Walk, alloc: Global, s: &Stmt) -> Result<Option<TStmt>, AllocError>
    ensures { IfOk result (λ t. Walked (spec.statement s.now).body walk.old walk.new t) }
{
    match s {
        Stmt::Block(items) => Ok(made_block(items_in(walk, alloc, items.as_slice())?)),
        _ => statement(walk, alloc, s),
    }
}
