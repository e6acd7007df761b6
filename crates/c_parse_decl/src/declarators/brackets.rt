//! Pairs of brackets behind what was declared.

ghost use Rattle.std.specs.Prelude.{◌≡◌, ◌<◌, ◌≤◌, ◌+◌, IfOk};
ghost use Rattle.c_parse_base.specs.Reading.Answers.{Answers};
ghost use Rattle.c_parse_decl.specs.Reading.Declarators as spec;

use crate::declarators::declared::Declared;
use crate::declarators::lengths::{Lengths, with_lengths};
use c_ast::{Punctuator, Span};
use c_parse_base::{Cursor, Fault, Stop};
use c_parse_expr::{Measured, begins_expression, conditional};
use std::alloc::Global;

/// `[ cond ] "]"`, behind a `[` of this level.
fn size(
    alloc: Global,
    cursor: &mut Cursor<'_, '_>,
    level: u32,
    depth: u32,
) -> Result<(Option<Measured>, Span), Stop>
    requires { level ≤ depth }
    ensures answers { Answers (spec.size depth level cursor.old) result cursor.new }
    ensures low { IfOk result (λ read. level + spec.levels_of read.0 ≤ depth) }
{
    if !begins_expression(cursor) {
        let right = cursor.expect(Punctuator::RightBracket)?;
        return Ok((None, right));
    }
    if level >= depth {
        return Err(Stop::Fault(Fault::TooDeep));
    }
    let length = conditional(alloc, cursor, depth - (level + 1))?;
    let right = cursor.expect(Punctuator::RightBracket)?;
    Ok((Some(length), right))
}

/// A pair of brackets behind others.
fn pair(
    alloc: Global,
    cursor: &mut Cursor<'_, '_>,
    before: Lengths,
    depth: u32,
) -> Result<Lengths, Stop>
    requires level { before.level < depth }
    requires height { before.height ≤ depth }
    ensures answers { Answers (spec.pair depth before cursor.old) result cursor.new }
    ensures low { IfOk result (λ read. (read.level ≤ depth) × (read.height ≤ depth)) }
{
    cursor.expect(Punctuator::LeftBracket)?;
    let (length, right) = size(alloc, cursor, before.level + 1, depth)?;
    Ok(before.with(length, right)?)
}

/// One or more pairs of brackets.
fn pairs(
    alloc: Global,
    cursor: &mut Cursor<'_, '_>,
    before: Lengths,
    depth: u32,
) -> Result<Lengths, Stop>
    requires level { before.level < depth }
    requires height { before.height ≤ depth }
    ensures answers { Answers (spec.pairs depth before cursor.old) result cursor.new }
    ensures low { IfOk result (λ read. read.height ≤ depth) }
{
    let mut read = pair(alloc, cursor, before, depth)?;
    while cursor.sees(Punctuator::LeftBracket) {
        if read.level >= depth {
            return Err(Stop::Fault(Fault::TooDeep));
        }
        read = pair(alloc, cursor, read, depth)?;
    }
    Ok(read)
}

/// One or more pairs of brackets behind what was declared so far (C11 6.7.6.2).
pub fn bracketed(
    alloc: Global,
    cursor: &mut Cursor<'_, '_>,
    read: Declared,
    depth: u32,
) -> Result<Declared, Stop>
    requires { read.height < depth }
    ensures answers { Answers (spec.bracketed depth read cursor.old) result cursor.new }
    ensures low { IfOk result (λ read. read.height ≤ depth) }
{
    let lengths = pairs(alloc, cursor, Lengths::none(alloc, &read), depth)?;
    Ok(with_lengths(alloc, read, lengths)?)
}
