//! The lexemes of statements.

ghost use Rattle.std.specs.Prelude.{◌≡◌, ◌++◌, ◌∷◌, [], OnOk, map};
ghost use Rattle.c_print.specs.Words.{word, punct};
ghost use Rattle.c_print.specs.Expressions.{lexemes_of};
ghost use Rattle.c_print.specs.Statements.{maybe_of, first_of_for, joined, stmt_of, item_of};

use crate::declaration::print_objects;
use crate::expr::{print_between, print_expr};
use crate::words::{print_punct, print_word};
use c_ast::{Decl, Expr, Item, Keyword, Lexeme, Punctuator, Stmt};
use std::alloc::{AllocError, Global};

fn print_maybe(alloc: Global, expr: &Option<Expr>, out: &mut Vec<Lexeme>) -> Result<(), AllocError>
    ensures { OnOk result (out.new.items ≡ out.old.items ++ maybe_of expr.now) }
{
    match expr {
        None => Ok(()),
        Some(expr) => print_expr(alloc, expr, out),
    }
}

/// Appends a keyword and the condition behind it in parentheses.
fn print_condition(
    alloc: Global,
    keyword: Keyword,
    expr: &Expr,
    out: &mut Vec<Lexeme>,
) -> Result<(), AllocError>
    ensures { OnOk result (out.new.items ≡ out.old.items ++ (word keyword ∷ punct Punctuator.LeftParen ∷ lexemes_of expr.now ++ punct Punctuator.RightParen ∷ [])) }
{
    print_word(keyword, out)?;
    print_between(
        alloc,
        Punctuator::LeftParen,
        expr,
        Punctuator::RightParen,
        out,
    )
}

/// Appends what comes first in a `for` (C11 6.8.5.3).
#[tactic(auto, using(crate::proofs::Answers::first_declared, crate::proofs::Answers::first_expression))]
fn print_first(
    alloc: Global,
    decls: &[Decl],
    expr: &Option<Expr>,
    out: &mut Vec<Lexeme>,
) -> Result<(), AllocError>
    ensures { OnOk result (out.new.items ≡ out.old.items ++ first_of_for decls.now expr.now) }
{
    if decls.len() == 0 {
        print_maybe(alloc, expr, out)?;
        print_punct(Punctuator::Semicolon, out)
    } else {
        print_objects(alloc, decls, out)
    }
}

/// Appends the condition of a `for` and the expression at the end of each turn.
fn print_turn(
    alloc: Global,
    condition: &Option<Expr>,
    next: &Option<Expr>,
    out: &mut Vec<Lexeme>,
) -> Result<(), AllocError>
    ensures { OnOk result (out.new.items ≡ out.old.items ++ (maybe_of condition.now ++ (punct Punctuator.Semicolon ∷ maybe_of next.now ++ punct Punctuator.RightParen ∷ []))) }
{
    print_maybe(alloc, condition, out)?;
    print_punct(Punctuator::Semicolon, out)?;
    print_maybe(alloc, next, out)?;
    print_punct(Punctuator::RightParen, out)
}

/// Appends the head of a `for` as far as what comes first.
fn print_for(
    alloc: Global,
    decls: &[Decl],
    expr: &Option<Expr>,
    out: &mut Vec<Lexeme>,
) -> Result<(), AllocError>
    ensures { OnOk result (out.new.items ≡ out.old.items ++ (word Keyword.For ∷ punct Punctuator.LeftParen ∷ first_of_for decls.now expr.now)) }
{
    print_word(Keyword::For, out)?;
    print_punct(Punctuator::LeftParen, out)?;
    print_first(alloc, decls, expr, out)
}

fn print_return(
    alloc: Global,
    value: &Option<Expr>,
    out: &mut Vec<Lexeme>,
) -> Result<(), AllocError>
    ensures { OnOk result (out.new.items ≡ out.old.items ++ (word Keyword.Return ∷ maybe_of value.now ++ punct Punctuator.Semicolon ∷ [])) }
{
    print_word(Keyword::Return, out)?;
    print_maybe(alloc, value, out)?;
    print_punct(Punctuator::Semicolon, out)
}

fn print_jump(keyword: Keyword, out: &mut Vec<Lexeme>) -> Result<(), AllocError>
    ensures { OnOk result (out.new.items ≡ out.old.items ++ (word keyword ∷ punct Punctuator.Semicolon ∷ [])) }
{
    print_word(keyword, out)?;
    print_punct(Punctuator::Semicolon, out)
}

/// Appends a statement (C11 6.8).
#[cycle(stmt)]
pub fn print_stmt(alloc: Global, stmt: &Stmt, out: &mut Vec<Lexeme>) -> Result<(), AllocError>
    ensures { OnOk result (out.new.items ≡ out.old.items ++ stmt_of stmt.now) }
{
    match stmt {
        Stmt::Block(items) => {
            print_punct(Punctuator::LeftBrace, out)?;
            print_items(alloc, items.as_slice(), out)?;
            print_punct(Punctuator::RightBrace, out)
        }
        Stmt::Expr(expr) => {
            print_expr(alloc, expr, out)?;
            print_punct(Punctuator::Semicolon, out)
        }
        Stmt::Empty => print_punct(Punctuator::Semicolon, out),
        Stmt::If(condition, then, None) => {
            print_condition(alloc, Keyword::If, condition, out)?;
            print_stmt(alloc, then.get(), out)
        }
        Stmt::If(condition, then, Some(other)) => {
            print_condition(alloc, Keyword::If, condition, out)?;
            print_stmt(alloc, then.get(), out)?;
            print_word(Keyword::Else, out)?;
            print_stmt(alloc, other.get(), out)
        }
        Stmt::While(condition, body) => {
            print_condition(alloc, Keyword::While, condition, out)?;
            print_stmt(alloc, body.get(), out)
        }
        Stmt::DoWhile(body, condition) => {
            print_word(Keyword::Do, out)?;
            print_stmt(alloc, body.get(), out)?;
            print_condition(alloc, Keyword::While, condition, out)?;
            print_punct(Punctuator::Semicolon, out)
        }
        Stmt::For(decls, first, condition, next, body) => {
            print_for(alloc, decls.as_slice(), first, out)?;
            print_turn(alloc, condition, next, out)?;
            print_stmt(alloc, body.get(), out)
        }
        Stmt::Return(value, _) => print_return(alloc, value, out),
        Stmt::Break(_) => print_jump(Keyword::Break, out),
        Stmt::Continue(_) => print_jump(Keyword::Continue, out),
    }
}

#[cycle(stmt)]
fn print_items(alloc: Global, items: &[Item], out: &mut Vec<Lexeme>) -> Result<(), AllocError>
    ensures { OnOk result (out.new.items ≡ out.old.items ++ joined (map item_of items.now)) }
{
    for item in items {
        print_item(alloc, item, out)?;
    }
    Ok(())
}

#[cycle(stmt)]
fn print_item(alloc: Global, item: &Item, out: &mut Vec<Lexeme>) -> Result<(), AllocError>
    ensures { OnOk result (out.new.items ≡ out.old.items ++ item_of item.now) }
{
    match item {
        Item::Local(decls) => print_objects(alloc, decls.as_slice(), out),
        Item::Stmt(stmt) => print_stmt(alloc, stmt, out),
    }
}
