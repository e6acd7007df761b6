//! External declarations.

ghost use Rattle.std.specs.Prelude.{◌≡◌, ◌<◌, ◌≤◌, ◌+◌, ◌^◌, ◌&&◌, IfOk};
ghost use Rattle.c_grammar.specs.Words.{punctuator};
ghost use Rattle.c_parse_base.specs.Reading.Answer.{sees, word};
ghost use Rattle.c_parse_base.specs.Reading.Answers.{Answers};
ghost use Rattle.c_parse_base.specs.Reading.Words.{is};
ghost use Rattle.c_parse.specs.Reading.Values.{height_behind};
ghost use Rattle.c_parse.specs.Reading.Values as values;
ghost use Rattle.c_parse.specs.Reading.Externals as spec;

use crate::behind::{Behind, Ending};
use crate::externals::Externals;
use crate::head::{Head, Specifiers};
use crate::words::{begins_declaration, begins_external, next_storage, sees_include};
use c_ast::{CType, Punctuator, Storage};
use c_parse_base::{Cursor, Fault, Stop, base};
use c_parse_decl::{Declared, ParametersRead, body, parameters, rest, starred};
use c_parse_stmt::block;
use std::alloc::Global;

/// A type without a body.
fn plain_head(alloc: Global, cursor: &mut Cursor<'_, '_>) -> Result<Head, Stop>
    ensures answers { Answers (spec.plain cursor.old) result cursor.new }
    ensures low { IfOk result (λ read. read.height ≡ 0) }
{
    let start = cursor.start();
    let read = base(alloc, cursor)?;
    Ok(Head::plain(alloc, start, read)?)
}

/// A type, and perhaps a struct's body, with this many levels below a member (C11 6.7.2).
fn head(alloc: Global, cursor: &mut Cursor<'_, '_>, depth: u32) -> Result<Head, Stop>
    requires { depth + 2 < 2 ^ 32 }
    ensures answers { Answers (spec.head depth cursor.old) result cursor.new }
    ensures low { IfOk result (λ read. read.height ≤ depth + 2) }
{
    let head = plain_head(alloc, cursor)?;
    if !cursor.sees(Punctuator::LeftBrace) {
        return Ok(head);
    }
    if head.tag.is_none() {
        return Err(Stop::Fault(Fault::Unexpected));
    }
    let read = body(alloc, cursor, depth)?;
    Ok(head.with_body(read))
}

/// A type that stands behind its storage class, if it has one (C11 6.7).
fn specifiers(alloc: Global, cursor: &mut Cursor<'_, '_>, depth: u32) -> Result<Specifiers, Stop>
    requires { depth + 2 < 2 ^ 32 }
    ensures answers { Answers (spec.specifiers depth cursor.old) result cursor.new }
    ensures low { IfOk result (λ read. read.head.height ≤ depth + 2) }
{
    let start = cursor.start();
    let Some(storage) = next_storage(cursor) else {
        let head = head(alloc, cursor, depth)?;
        return Ok(Specifiers {
            storage: Storage::None,
            start: head.span.start,
            head,
        });
    };
    cursor.skip();
    let head = head(alloc, cursor, depth)?;
    Ok(Specifiers {
        storage,
        start,
        head,
    })
}

/// Whether a block comes next that may stand behind these parameters.
#[tactic(auto, using(crate::specs::Laws::Code::sees_both))]
fn sees_block(cursor: &Cursor<'_, '_>, params: &ParametersRead) -> bool
    ensures { result ≡ sees (λ t. params.now.all_named && is (punctuator Punctuator.LeftBrace) t) cursor.now }
{
    params.all_named && cursor.sees(Punctuator::LeftBrace)
}

/// A block behind parameters that all have names, or a semicolon.
fn ending(
    alloc: Global,
    cursor: &mut Cursor<'_, '_>,
    params: &ParametersRead,
    depth: u32,
) -> Result<Ending, Stop>
    requires { depth + 2 < 2 ^ 32 }
    ensures answers { Answers (spec.ending depth params.now cursor.old) result cursor.new }
    ensures low { IfOk result (λ read. read.height ≤ depth + 1) }
{
    if sees_block(cursor, params) {
        let read = block(alloc, cursor, depth + 1)?;
        return Ok(Ending::block(read));
    }
    let place = cursor.expect(Punctuator::Semicolon)?;
    Ok(Ending {
        body: None,
        height: 0,
        end: place.end,
    })
}

/// The parameters and the end of a function (C11 6.7.6.3, 6.9.1).
fn function(
    alloc: Global,
    cursor: &mut Cursor<'_, '_>,
    first: Declared,
    depth: u32,
) -> Result<Behind, Stop>
    requires first { first.height ≤ depth + 1 }
    requires depth { depth + 2 < 2 ^ 32 }
    ensures answers { Answers (spec.function depth first cursor.old) result cursor.new }
    ensures low { IfOk result (λ read. height_behind read ≤ depth + 1) }
{
    let params = parameters(alloc, cursor, depth)?;
    let ending = ending(alloc, cursor, &params, depth)?;
    Ok(Behind::function(first, params, ending))
}

/// What is left behind the first name.
fn after_name(
    alloc: Global,
    cursor: &mut Cursor<'_, '_>,
    base: &CType,
    first: Declared,
    depth: u32,
) -> Result<Behind, Stop>
    requires first { first.height ≤ depth + 1 }
    requires depth { depth + 2 < 2 ^ 32 }
    ensures answers { Answers (spec.after_name depth base.now first cursor.old) result cursor.new }
    ensures low { IfOk result (λ read. height_behind read ≤ depth + 1) }
{
    if cursor.sees(Punctuator::LeftParen) {
        return function(alloc, cursor, first, depth);
    }
    let read = rest(alloc, cursor, base, first, depth + 1)?;
    Ok(Behind::Objects(read))
}

/// The first name, and what is left behind it.
fn named(
    alloc: Global,
    cursor: &mut Cursor<'_, '_>,
    base: &CType,
    depth: u32,
) -> Result<Behind, Stop>
    requires { depth + 2 < 2 ^ 32 }
    ensures answers { Answers (spec.named depth base.now cursor.old) result cursor.new }
    ensures low { IfOk result (λ read. height_behind read ≤ depth + 1) }
{
    let first = starred(alloc, cursor, base, depth + 1)?;
    after_name(alloc, cursor, base, first, depth)
}

/// Whether a semicolon comes next that may stand alone behind these words.
#[tactic(auto, using(crate::specs::Laws::Code::sees_both))]
fn sees_lone(cursor: &Cursor<'_, '_>, specifiers: &Specifiers) -> bool
    ensures { result ≡ sees (λ t. values.is_lone specifiers.now && is (punctuator Punctuator.Semicolon) t) cursor.now }
{
    specifiers.is_lone() && cursor.sees(Punctuator::Semicolon)
}

/// What stands behind a type: a semicolon alone, objects or a function.
fn tail(
    alloc: Global,
    cursor: &mut Cursor<'_, '_>,
    specifiers: &Specifiers,
    depth: u32,
) -> Result<Behind, Stop>
    requires { depth + 2 < 2 ^ 32 }
    ensures answers { Answers (spec.tail depth specifiers.now cursor.old) result cursor.new }
    ensures low { IfOk result (λ read. height_behind read ≤ depth + 1) }
{
    if sees_lone(cursor, specifiers) {
        cursor.skip();
        return Ok(Behind::Lone);
    }
    named(alloc, cursor, &specifiers.head.base, depth)
}

/// A declaration or a definition with this many levels below its own and that of what it holds (C11 6.7, 6.9.1).
fn declaration(alloc: Global, cursor: &mut Cursor<'_, '_>, depth: u32) -> Result<Externals, Stop>
    requires { depth + 2 < 2 ^ 32 }
    ensures answers { Answers (spec.declaration depth cursor.old) result cursor.new }
    ensures low { IfOk result (λ read. read.height ≤ depth + 2) }
{
    let specifiers = specifiers(alloc, cursor, depth)?;
    let behind = tail(alloc, cursor, &specifiers, depth)?;
    Ok(Externals::one(alloc, specifiers, behind)?)
}

/// The line `#include <stdio.h>` (C11 6.10.2).
fn include(alloc: Global, cursor: &mut Cursor<'_, '_>) -> Result<Externals, Stop>
    ensures answers { Answers (word spec.pick_include cursor.old) result cursor.new }
    ensures low { IfOk result (λ read. read.height ≡ 0) }
{
    if !sees_include(cursor) {
        return Err(Stop::Fault(Fault::Unexpected));
    }
    cursor.skip();
    Ok(Externals::include(alloc)?)
}

/// An external declaration, with this many levels below its own and that of what it holds (C11 6.9).
fn external(alloc: Global, cursor: &mut Cursor<'_, '_>, depth: u32) -> Result<Externals, Stop>
    requires { depth + 2 < 2 ^ 32 }
    ensures answers { Answers (spec.external depth cursor.old) result cursor.new }
    ensures low { IfOk result (λ read. read.height ≤ depth + 2) }
{
    if !begins_declaration(cursor) {
        return include(alloc, cursor);
    }
    declaration(alloc, cursor, depth)
}

/// One external declaration or more, with this many levels below their own and those of what they hold (C11 6.9).
pub fn unit(alloc: Global, cursor: &mut Cursor<'_, '_>, depth: u32) -> Result<Externals, Stop>
    requires { depth + 2 < 2 ^ 32 }
    ensures answers { Answers (spec.unit depth cursor.old) result cursor.new }
    ensures low { IfOk result (λ read. read.height ≤ depth + 2) }
{
    let mut read = external(alloc, cursor, depth)?;
    while begins_external(cursor) {
        let next = external(alloc, cursor, depth)?;
        read = read.with(next)?;
    }
    Ok(read)
}
