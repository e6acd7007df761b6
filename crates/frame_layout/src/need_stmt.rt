//! How many words for values in between a statement needs: the most of its expressions.

ghost use Rattle.std.specs.Prelude.{◌≡◌, map};
ghost use Rattle.frame_layout.specs.StatementNeeds as spec;

use crate::need::need;
use c_type_base::{TDecl, TExpr, TInit, TItem, TStmt};

fn need_maybe(expr: &Option<TExpr>) -> u64
    ensures { result ≡ spec.maybe_need expr.now }
{
    match expr {
        None => 0,
        Some(expr) => need(expr),
    }
}

#[cycle(init)]
fn need_init(init: &TInit) -> u64
    ensures { result ≡ spec.init_need init.now }
{
    match init {
        TInit::One(expr) => need(expr),
        TInit::List(inits, _) => need_inits(inits.as_slice()),
    }
}

#[cycle(init)]
#[tactic(auto, using(crate::proofs::NeedTurns::most_turn))]
fn need_inits(inits: &[TInit]) -> u64
    ensures { result ≡ spec.most (map spec.init_need inits.now) }
{
    let mut most: u64 = 0;
    for init in inits {
        most = most.max(need_init(init));
    }
    most
}

fn need_decl(decl: &TDecl) -> u64
    ensures { result ≡ spec.decl_need decl.now }
{
    match &decl.init {
        None => 0,
        Some(init) => need_init(init),
    }
}

#[tactic(auto, using(crate::proofs::NeedTurns::most_turn))]
fn need_decls(decls: &[TDecl]) -> u64
    ensures { result ≡ spec.most (map spec.decl_need decls.now) }
{
    let mut most: u64 = 0;
    for decl in decls {
        most = most.max(need_decl(decl));
    }
    most
}

/// The words that a statement needs.
#[cycle(stmt)]
pub fn need_stmt(stmt: &TStmt) -> u64
    ensures { result ≡ spec.stmt_need stmt.now }
{
    match stmt {
        TStmt::Block(items) => need_items(items.as_slice()),
        TStmt::Expr(expr) => need(expr),
        TStmt::If(condition, then, None) => need(condition).max(need_stmt(then.get())),
        TStmt::If(condition, then, Some(other)) => {
            need(condition).max(need_stmt(then.get()).max(need_stmt(other.get())))
        }
        TStmt::While(condition, body) => need(condition).max(need_stmt(body.get())),
        TStmt::DoWhile(body, condition) => need_stmt(body.get()).max(need(condition)),
        TStmt::For(decls, first, condition, next, body) => {
            let head = need_maybe(condition).max(need_maybe(next));
            let start = need_decls(decls.as_slice()).max(need_maybe(first));
            start.max(head.max(need_stmt(body.get())))
        }
        TStmt::Return(value, _) => need_maybe(value),
        TStmt::Empty | TStmt::Break(_) | TStmt::Continue(_) => 0,
    }
}

#[cycle(stmt)]
#[tactic(auto, using(crate::proofs::NeedTurns::most_turn))]
fn need_items(items: &[TItem]) -> u64
    ensures { result ≡ spec.most (map spec.item_need items.now) }
{
    let mut most: u64 = 0;
    for item in items {
        most = most.max(need_item(item));
    }
    most
}

#[cycle(stmt)]
fn need_item(item: &TItem) -> u64
    ensures { result ≡ spec.item_need item.now }
{
    match item {
        TItem::Local(decls) => need_decls(decls.as_slice()),
        TItem::Stmt(stmt) => need_stmt(stmt),
    }
}
