//! Statements.

ghost use Rattle.std.specs.Prelude.{◌≡◌, ◌<◌, ◌≤◌, ◌+◌, ◌-◌, ◌*◌, true, length, IfOk};
ghost use Rattle.c_grammar.specs.Words.{keyword};
ghost use Rattle.c_grammar.specs.Statements.{InLoop};
ghost use Rattle.c_parse_base.specs.Reading.Answer.{sees};
ghost use Rattle.c_parse_base.specs.Reading.Answers.{Answers};
ghost use Rattle.c_parse_base.specs.Reading.Words.{is};
ghost use Rattle.c_parse_stmt.specs.Reading.Statements as spec;
ghost use Rattle.c_parse_stmt.specs.Laws.Code as code;

use crate::block_read::BlockRead;
use crate::clauses::{condition, do_tail, for_head};
use crate::last::{last, returned};
use crate::node;
use crate::statement_read::{ItemRead, ItemsRead, StatementRead};
use crate::words::begins_item;
use c_ast::{Keyword, Punctuator};
use c_parse_base::{Cursor, Fault, Stop, begins_type};
use c_parse_decl::local;
use c_parse_expr::Measured;
use std::alloc::Global;

/// `( expr ) stmt`
#[cycle(statement)]
fn headed(
    alloc: Global,
    cursor: &mut Cursor<'_, '_>,
    depth: u32,
    in_loop: bool,
) -> Result<(Measured, StatementRead), Stop>
    requires { 0 < depth }
    ensures answers { Answers (code.headed depth (spec.placed in_loop) cursor.old) result cursor.new }
    ensures low { IfOk result (λ read. (read.0.height < depth) × (read.1.height < depth)) }
{
    let inner = condition(alloc, cursor, depth)?;
    let chosen = statement(alloc, cursor, depth - 1, in_loop)?;
    Ok((inner, chosen))
}

/// An `if`, and its `else` if it has one (C11 6.8.4.1).
#[cycle(statement)]
fn if_statement(
    alloc: Global,
    cursor: &mut Cursor<'_, '_>,
    depth: u32,
    in_loop: bool,
) -> Result<StatementRead, Stop>
    requires room { 0 < depth }
    requires next { sees (is (keyword Keyword.If)) cursor.old ≡ true }
    ensures answers { Answers (spec.if_statement depth (spec.under depth) (spec.placed in_loop) cursor.old) result cursor.new }
    ensures low { IfOk result (λ read. read.height ≤ depth) }
{
    cursor.skip();
    let parts = headed(alloc, cursor, depth, in_loop)?;
    if !cursor.sees_keyword(Keyword::Else) {
        return Ok(node::if_then(alloc, parts)?);
    }
    if !parts.1.closed {
        return Err(Stop::Fault(Fault::Unexpected));
    }
    cursor.skip();
    let other = statement(alloc, cursor, depth - 1, in_loop)?;
    Ok(node::if_else(alloc, parts, other)?)
}

/// A `while` loop (C11 6.8.5.1).
#[cycle(statement)]
fn while_loop(alloc: Global, cursor: &mut Cursor<'_, '_>, depth: u32) -> Result<StatementRead, Stop>
    requires room { 0 < depth }
    requires next { sees (is (keyword Keyword.While)) cursor.old ≡ true }
    ensures answers { Answers (spec.while_loop depth (spec.under depth) cursor.old) result cursor.new }
    ensures low { IfOk result (λ read. read.height ≤ depth) }
{
    cursor.skip();
    let parts = headed(alloc, cursor, depth, true)?;
    Ok(node::while_loop(alloc, parts)?)
}

/// A `do` loop (C11 6.8.5.2).
#[cycle(statement)]
fn do_loop(alloc: Global, cursor: &mut Cursor<'_, '_>, depth: u32) -> Result<StatementRead, Stop>
    requires room { 0 < depth }
    requires next { sees (is (keyword Keyword.Do)) cursor.old ≡ true }
    ensures answers { Answers (spec.do_loop depth (spec.under depth) cursor.old) result cursor.new }
    ensures low { IfOk result (λ read. read.height ≤ depth) }
{
    cursor.skip();
    let body = statement(alloc, cursor, depth - 1, true)?;
    let inner = do_tail(alloc, cursor, depth)?;
    Ok(node::do_loop(alloc, body, inner)?)
}

/// A `for` loop (C11 6.8.5.3).
#[cycle(statement)]
fn for_loop(alloc: Global, cursor: &mut Cursor<'_, '_>, depth: u32) -> Result<StatementRead, Stop>
    requires room { 0 < depth }
    requires next { sees (is (keyword Keyword.For)) cursor.old ≡ true }
    ensures answers { Answers (spec.for_loop depth (spec.under depth) cursor.old) result cursor.new }
    ensures low { IfOk result (λ read. read.height ≤ depth) }
{
    cursor.skip();
    let head = for_head(alloc, cursor, depth)?;
    let body = statement(alloc, cursor, depth - 1, true)?;
    Ok(node::for_loop(alloc, head, body)?)
}

/// A part of a block (C11 6.8.2).
#[cycle(statement)]
fn item(
    alloc: Global,
    cursor: &mut Cursor<'_, '_>,
    depth: u32,
    in_loop: bool,
) -> Result<ItemRead, Stop>
    requires { 0 < depth }
    ensures answers { Answers (spec.item depth (spec.under depth) (spec.placed in_loop) cursor.old) result cursor.new }
    ensures low { IfOk result (λ read. read.height < depth) }
{
    if begins_type(cursor) {
        let read = local(alloc, cursor, depth - 1)?;
        return Ok(node::local_item(read));
    }
    let read = statement(alloc, cursor, depth - 1, in_loop)?;
    Ok(node::statement_item(read))
}

/// `{`, and the parts of a block behind it.
#[cycle(statement)]
fn items(
    alloc: Global,
    cursor: &mut Cursor<'_, '_>,
    depth: u32,
    in_loop: bool,
) -> Result<ItemsRead, Stop>
    ensures answers { Answers (spec.items depth (spec.under depth) (spec.placed in_loop) cursor.old) result cursor.new }
    ensures low { IfOk result (λ read. read.height ≤ depth) }
{
    cursor.expect(Punctuator::LeftBrace)?;
    let mut read = node::no_items(alloc);
    while begins_item(cursor, in_loop) {
        if depth == 0 {
            return Err(Stop::Fault(Fault::TooDeep));
        }
        let next = item(alloc, cursor, depth, in_loop)?;
        read = node::with_item(read, next)?;
    }
    Ok(read)
}

/// A block (C11 6.8.2).
#[cycle(statement)]
fn block_in(
    alloc: Global,
    cursor: &mut Cursor<'_, '_>,
    depth: u32,
    in_loop: bool,
) -> Result<BlockRead, Stop>
    ensures answers { Answers (spec.block_in depth (spec.under depth) (spec.placed in_loop) cursor.old) result cursor.new }
    ensures low { IfOk result (λ read. read.height ≤ depth) }
{
    let read = items(alloc, cursor, depth, in_loop)?;
    let right = cursor.expect(Punctuator::RightBrace)?;
    Ok(node::block(read, right))
}

/// A block as a statement.
#[cycle(statement)]
fn compound(
    alloc: Global,
    cursor: &mut Cursor<'_, '_>,
    depth: u32,
    in_loop: bool,
) -> Result<StatementRead, Stop>
    ensures answers { Answers (spec.compound depth (spec.under depth) (spec.placed in_loop) cursor.old) result cursor.new }
    ensures low { IfOk result (λ read. read.height ≤ depth) }
{
    let read = block_in(alloc, cursor, depth, in_loop)?;
    Ok(node::compound(alloc, read)?)
}

/// A loop, or another statement.
#[cycle(statement)]
fn loop_or(
    alloc: Global,
    cursor: &mut Cursor<'_, '_>,
    depth: u32,
    in_loop: bool,
) -> Result<StatementRead, Stop>
    ensures answers { Answers (spec.while_or depth (spec.under depth) (spec.placed in_loop) cursor.old) result cursor.new }
    ensures low { IfOk result (λ read. read.height ≤ depth) }
{
    if cursor.sees_keyword(Keyword::While) {
        if depth == 0 {
            return Err(Stop::Fault(Fault::TooDeep));
        }
        return while_loop(alloc, cursor, depth);
    }
    if cursor.sees_keyword(Keyword::Do) {
        if depth == 0 {
            return Err(Stop::Fault(Fault::TooDeep));
        }
        return do_loop(alloc, cursor, depth);
    }
    if cursor.sees_keyword(Keyword::For) {
        if depth == 0 {
            return Err(Stop::Fault(Fault::TooDeep));
        }
        return for_loop(alloc, cursor, depth);
    }
    if cursor.sees_keyword(Keyword::Return) {
        return returned(alloc, cursor, depth);
    }
    last(alloc, cursor, depth, in_loop)
}

/// A statement (C11 6.8).
#[cycle(statement)]
fn statement(
    alloc: Global,
    cursor: &mut Cursor<'_, '_>,
    depth: u32,
    in_loop: bool,
) -> Result<StatementRead, Stop>
    ensures answers { Answers (spec.statement depth (spec.under depth) (spec.placed in_loop) cursor.old) result cursor.new }
    ensures low { IfOk result (λ read. read.height ≤ depth) }
{
    if cursor.sees(Punctuator::LeftBrace) {
        return compound(alloc, cursor, depth, in_loop);
    }
    if cursor.sees_keyword(Keyword::If) {
        if depth == 0 {
            return Err(Stop::Fault(Fault::TooDeep));
        }
        return if_statement(alloc, cursor, depth, in_loop);
    }
    loop_or(alloc, cursor, depth, in_loop)
}

/// A block outside of loops, with at most this many levels below it (C11 6.8.2).
pub fn block(alloc: Global, cursor: &mut Cursor<'_, '_>, depth: u32) -> Result<BlockRead, Stop>
    ensures answers { Answers (spec.block depth cursor.old) result cursor.new }
    ensures low { IfOk result (λ read. read.height ≤ depth) }
{
    block_in(alloc, cursor, depth, false)
}
