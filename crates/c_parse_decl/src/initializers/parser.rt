//! Initializers.

ghost use Rattle.std.specs.Prelude.{◌≡◌, ◌<◌, ◌≤◌, IfOk, true};
ghost use Rattle.c_parse_base.specs.Reading.Answer.{sees};
ghost use Rattle.c_parse_base.specs.Reading.Answers.{Answers};
ghost use Rattle.c_parse_decl.specs.Reading.Initializers as spec;

use crate::initializers::init_read::InitRead;
use crate::initializers::list_read::ListRead;
use c_ast::{Init, Punctuator, Span};
use c_parse_base::{Cursor, Fault, Stop};
use c_parse_expr::{Measured, begins_expression, expression};
use std::alloc::Global;

/// Whether the next token begins an initializer.
#[tactic(auto, using(crate::specs::Laws::Initializers::Code::sees_initial))]
fn begins_initial(cursor: &Cursor<'_, '_>) -> bool
    ensures { result ≡ sees spec.begins_initial cursor.now }
{
    cursor.sees(Punctuator::LeftBrace) || begins_expression(cursor)
}

/// Whether a list goes on: with a comma, and behind that with an initializer.
fn goes_on(cursor: &Cursor<'_, '_>, comma: bool) -> bool
    ensures { result ≡ sees (spec.goes_on_by comma) cursor.now }
{
    if comma {
        begins_initial(cursor)
    } else {
        cursor.sees(Punctuator::Comma)
    }
}

/// An expression as an initializer.
fn value(read: Measured) -> InitRead
    ensures { result ≡ spec.value_of read }
{
    let end = read.tree.span.end;
    InitRead {
        init: Init::One(read.tree),
        height: read.height,
        end,
    }
}

/// A list from its `{` to its `}`.
fn list(left: Span, read: ListRead, right: Span) -> InitRead
    ensures { result ≡ spec.list_of left (read, right) }
{
    let span = Span {
        start: left.start,
        end: right.end,
    };
    InitRead {
        init: Init::List(read.inits, span),
        height: read.height,
        end: right.end,
    }
}

/// A comma behind an initializer of a list, or an initializer behind a comma.
#[cycle(initializer)]
fn turn(
    alloc: Global,
    cursor: &mut Cursor<'_, '_>,
    depth: u32,
    read: ListRead,
) -> Result<ListRead, Stop>
    requires room { 0 < depth }
    requires low { read.height ≤ depth }
    ensures answers { Answers (spec.turn (spec.under depth) read cursor.old) result cursor.new }
    ensures low { IfOk result (λ made. made.height ≤ depth) }
{
    if !read.comma {
        cursor.expect(Punctuator::Comma)?;
        return Ok(read.with_comma());
    }
    let next = initial(alloc, cursor, depth - 1)?;
    Ok(read.with(next)?)
}

/// `initial { , initial } [ , ]`
#[cycle(initializer)]
fn items(alloc: Global, cursor: &mut Cursor<'_, '_>, depth: u32) -> Result<ListRead, Stop>
    requires { 0 < depth }
    ensures answers { Answers (spec.items (spec.under depth) cursor.old) result cursor.new }
    ensures low { IfOk result (λ read. read.height ≤ depth) }
{
    let first = initial(alloc, cursor, depth - 1)?;
    let mut read = ListRead::one(alloc, first)?;
    while goes_on(cursor, read.comma) {
        read = turn(alloc, cursor, depth, read)?;
    }
    Ok(read)
}

/// The initializers of a list and its `}`, behind a `{` that stands there.
#[cycle(initializer)]
fn closed(
    alloc: Global,
    cursor: &mut Cursor<'_, '_>,
    depth: u32,
    left: Span,
) -> Result<InitRead, Stop>
    requires { 0 < depth }
    ensures answers { Answers (spec.closed (spec.under depth) left cursor.old) result cursor.new }
    ensures low { IfOk result (λ read. read.height ≤ depth) }
{
    let read = items(alloc, cursor, depth)?;
    let right = cursor.expect(Punctuator::RightBrace)?;
    Ok(list(left, read, right))
}

/// An initializer with at most this many levels below the level of its expression (C11 6.7.9).
#[cycle(initializer)]
pub fn initial(alloc: Global, cursor: &mut Cursor<'_, '_>, depth: u32) -> Result<InitRead, Stop>
    ensures answers { Answers (spec.initial depth cursor.old) result cursor.new }
    ensures low { IfOk result (λ read. read.height ≤ depth) }
{
    if !cursor.sees(Punctuator::LeftBrace) {
        let read = expression(alloc, cursor, depth)?;
        return Ok(value(read));
    }
    if depth == 0 {
        return Err(Stop::Fault(Fault::TooDeep));
    }
    let left = cursor.expect(Punctuator::LeftBrace)?;
    closed(alloc, cursor, depth, left)
}
