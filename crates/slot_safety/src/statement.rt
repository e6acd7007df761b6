//! The walk over statements.

ghost use Rattle.std.specs.Prelude.{◌≡◌, map};
ghost use Rattle.slot_safety.specs.Kinds.{marked};
ghost use Rattle.slot_safety.specs.Statements as spec;

use crate::expr::spread;
use crate::kind::Kind;
use c_type_base::{StructInfo, TDecl, TExpr, TInit, TItem, TStmt};

/// Tags the locals that are harmed by an expression, where there is one.
fn spread_maybe(expr: &Option<TExpr>, structs: &[StructInfo], kinds: &mut [Kind])
    ensures { kinds.new ≡ marked kinds.old (spec.maybe_harms structs.now expr.now) }
{
    match expr {
        None => {}
        Some(expr) => {
            spread(expr, structs, kinds);
        }
    }
}

/// Tags the locals that are harmed by an initialiser.
#[cycle(init)]
fn spread_init(init: &TInit, structs: &[StructInfo], kinds: &mut [Kind])
    ensures { kinds.new ≡ marked kinds.old (spec.init_harms structs.now init.now) }
{
    match init {
        TInit::One(expr) => {
            spread(expr, structs, kinds);
        }
        TInit::List(inits, _) => spread_inits(inits.as_slice(), structs, kinds),
    }
}

#[cycle(init)]
fn spread_inits(inits: &[TInit], structs: &[StructInfo], kinds: &mut [Kind])
    ensures { kinds.new ≡ marked kinds.old (spec.joined (map (spec.init_harms structs.now) inits.now)) }
{
    for init in inits {
        spread_init(init, structs, kinds);
    }
}

/// Tags the locals that are harmed by a declaration.
fn spread_decl(decl: &TDecl, structs: &[StructInfo], kinds: &mut [Kind])
    ensures { kinds.new ≡ marked kinds.old (spec.decl_harms structs.now decl.now) }
{
    match &decl.init {
        None => {}
        Some(init) => spread_init(init, structs, kinds),
    }
}

fn spread_decls(decls: &[TDecl], structs: &[StructInfo], kinds: &mut [Kind])
    ensures { kinds.new ≡ marked kinds.old (spec.joined (map (spec.decl_harms structs.now) decls.now)) }
{
    for decl in decls {
        spread_decl(decl, structs, kinds);
    }
}

/// Tags the locals with an occurrence in a statement that is not harmless.
#[cycle(stmt)]
#[tactic(auto, using(crate::specs::Laws::MarkedLaws::marked_append))]
pub fn spread_stmt(stmt: &TStmt, structs: &[StructInfo], kinds: &mut [Kind])
    ensures { kinds.new ≡ marked kinds.old (spec.stmt_harms structs.now stmt.now) }
{
    match stmt {
        TStmt::Block(items) => spread_items(items.as_slice(), structs, kinds),
        TStmt::Expr(expr) => {
            spread(expr, structs, kinds);
        }
        TStmt::Empty => {}
        TStmt::If(condition, then, other) => {
            spread(condition, structs, kinds);
            spread_stmt(then.get(), structs, kinds);
            match other {
                None => {}
                Some(other) => spread_stmt(other.get(), structs, kinds),
            }
        }
        TStmt::While(condition, body) => {
            spread(condition, structs, kinds);
            spread_stmt(body.get(), structs, kinds)
        }
        TStmt::DoWhile(body, condition) => {
            spread_stmt(body.get(), structs, kinds);
            spread(condition, structs, kinds);
        }
        TStmt::For(decls, first, condition, next, body) => {
            spread_decls(decls.as_slice(), structs, kinds);
            spread_maybe(first, structs, kinds);
            spread_maybe(condition, structs, kinds);
            spread_maybe(next, structs, kinds);
            spread_stmt(body.get(), structs, kinds)
        }
        TStmt::Return(value, _) => spread_maybe(value, structs, kinds),
        TStmt::Break(_) => {}
        TStmt::Continue(_) => {}
    }
}

#[cycle(stmt)]
fn spread_items(items: &[TItem], structs: &[StructInfo], kinds: &mut [Kind])
    ensures { kinds.new ≡ marked kinds.old (spec.joined (map (spec.item_harms structs.now) items.now)) }
{
    for item in items {
        spread_item(item, structs, kinds);
    }
}

#[cycle(stmt)]
fn spread_item(item: &TItem, structs: &[StructInfo], kinds: &mut [Kind])
    ensures { kinds.new ≡ marked kinds.old (spec.item_harms structs.now item.now) }
{
    match item {
        TItem::Local(decls) => spread_decls(decls.as_slice(), structs, kinds),
        TItem::Stmt(stmt) => spread_stmt(stmt, structs, kinds),
    }
}
