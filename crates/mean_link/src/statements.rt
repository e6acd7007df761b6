//! Which externs a function, an object and a file refer to.

ghost use Rattle.std.specs.Prelude.{◌≡◌, map, slice_set, true, IfOk};
ghost use Rattle.slot_safety.specs.Kinds.{by_number, put};
ghost use Rattle.mean_link.specs.Laws.UseLaws.{as_told};
ghost use Rattle.mean_link.specs.Uses as spec;

use crate::uses::{mark, use_expr};
use c_type_base::{
    GlobalInfo, InitPiece, InitValue, TDecl, TExpr, TFunction, TInit, TItem, TStmt, Target, Typed,
};
use std::alloc::{AllocError, Global};

fn use_maybe(expr: &Option<TExpr>, used: &mut [bool])
    ensures { used.new ≡ put true used.old (spec.maybe_uses expr.now) }
{
    match expr {
        None => {}
        Some(expr) => use_expr(expr, used),
    }
}

#[cycle(init)]
fn use_init(init: &TInit, used: &mut [bool])
    ensures { used.new ≡ put true used.old (spec.init_uses init.now) }
{
    match init {
        TInit::One(expr) => use_expr(expr, used),
        TInit::List(inits, _) => use_inits(inits.as_slice(), used),
    }
}

#[cycle(init)]
fn use_inits(inits: &[TInit], used: &mut [bool])
    ensures { used.new ≡ put true used.old (spec.joined (map spec.init_uses inits.now)) }
{
    for init in inits {
        use_init(init, used);
    }
}

fn use_decl(decl: &TDecl, used: &mut [bool])
    ensures { used.new ≡ put true used.old (spec.decl_uses decl.now) }
{
    match &decl.init {
        None => {}
        Some(init) => use_init(init, used),
    }
}

fn use_decls(decls: &[TDecl], used: &mut [bool])
    ensures { used.new ≡ put true used.old (spec.joined (map spec.decl_uses decls.now)) }
{
    for decl in decls {
        use_decl(decl, used);
    }
}

/// Marks the externs to which a statement refers.
#[cycle(stmt)]
fn use_stmt(stmt: &TStmt, used: &mut [bool])
    ensures { used.new ≡ put true used.old (spec.stmt_uses stmt.now) }
{
    match stmt {
        TStmt::Block(items) => use_items(items.as_slice(), used),
        TStmt::Expr(expr) => use_expr(expr, used),
        TStmt::If(condition, then, other) => {
            use_expr(condition, used);
            use_stmt(then.get(), used);
            match other {
                None => {}
                Some(other) => use_stmt(other.get(), used),
            }
        }
        TStmt::While(condition, body) => {
            use_expr(condition, used);
            use_stmt(body.get(), used)
        }
        TStmt::DoWhile(body, condition) => {
            use_stmt(body.get(), used);
            use_expr(condition, used)
        }
        TStmt::For(decls, first, condition, next, body) => {
            use_decls(decls.as_slice(), used);
            use_maybe(first, used);
            use_maybe(condition, used);
            use_maybe(next, used);
            use_stmt(body.get(), used)
        }
        TStmt::Return(value, _) => use_maybe(value, used),
        TStmt::Empty => {}
        TStmt::Break(_) => {}
        TStmt::Continue(_) => {}
    }
}

#[cycle(stmt)]
fn use_items(items: &[TItem], used: &mut [bool])
    ensures { used.new ≡ put true used.old (spec.joined (map spec.item_uses items.now)) }
{
    for item in items {
        use_item(item, used);
    }
}

#[cycle(stmt)]
fn use_item(item: &TItem, used: &mut [bool])
    ensures { used.new ≡ put true used.old (spec.item_uses item.now) }
{
    match item {
        TItem::Local(decls) => use_decls(decls.as_slice(), used),
        TItem::Stmt(stmt) => use_stmt(stmt, used),
    }
}

fn use_functions(functions: &[TFunction], used: &mut [bool])
    ensures { used.new ≡ put true used.old (spec.joined (map spec.function_uses functions.now)) }
{
    for function in functions {
        use_stmt(&function.body, used);
    }
}

/// Marks the extern to which a first value points.
fn use_value(value: InitValue, used: &mut [bool])
    ensures { used.new ≡ put true used.old (spec.value_uses value) }
{
    match value {
        InitValue::Address(Target::Extern(number), _) => mark(number, used),
        InitValue::Address(Target::Global(_) | Target::Text(_), _) | InitValue::Number(_, _) => {}
    }
}

fn use_pieces(pieces: &[InitPiece], used: &mut [bool])
    ensures { used.new ≡ put true used.old (spec.joined (map spec.piece_uses pieces.now)) }
{
    for piece in pieces {
        use_value(piece.value, used);
    }
}

fn use_objects(globals: &[GlobalInfo], used: &mut [bool])
    ensures { used.new ≡ put true used.old (spec.joined (map spec.object_uses globals.now)) }
{
    for global in globals {
        use_pieces(global.init.as_slice(), used);
    }
}

fn use_file(typed: &Typed, used: &mut [bool])
    ensures { used.new ≡ put true used.old (spec.file_uses typed.now) }
{
    use_objects(typed.globals.as_slice(), used);
    use_functions(typed.functions.as_slice(), used)
}

/// Of each extern of a file whether the file refers to it.
pub fn used_externs(alloc: Global, typed: &Typed) -> Result<Vec<bool>, AllocError>
    ensures { IfOk result (λ used. used.items ≡ by_number as_told (spec.file_uses typed.now) 0 typed.now.externs) }
{
    let mut used = vec![in alloc; false; typed.externs.as_slice().len()]?;
    use_file(typed, used.as_mut_slice());
    Ok(used)
}
