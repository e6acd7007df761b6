//! One parameter.

ghost use Rattle.std.specs.Prelude.{◌≡◌, ◌≤◌, IfOk};
ghost use Rattle.c_parse_base.specs.Reading.Answer.{sees};
ghost use Rattle.c_parse_base.specs.Reading.Answers.{Answers};
ghost use Rattle.c_parse_decl.specs.Laws.Parameters.Code as code;
ghost use Rattle.c_parse_decl.specs.Reading.Parameters as spec;

use crate::declarators::Declared;
use c_ast::{Lexeme, Name, Punctuator, Span};
use c_parse_base::{Cursor, Fault, Named, Stop, TypeRead, type_name};
use std::alloc::Global;

/// Whether a name comes next.
fn sees_name(cursor: &Cursor<'_, '_>) -> bool
    ensures { result ≡ sees spec.is_name cursor.now }
{
    match cursor.peek() {
        Some(next) => matches!(next.kind, Lexeme::Name(_)),
        None => false,
    }
}

/// A type that starts there, without a name.
fn unnamed(alloc: Global, start: u32, read: TypeRead) -> Declared
    ensures { result ≡ spec.unnamed (start, read) }
{
    Declared {
        name: Name::from_vec(Vec::new(alloc)),
        ty: read.ty,
        height: read.height,
        span: Span {
            start,
            end: read.end,
        },
    }
}

/// A type with a name behind it.
fn named(read: Declared, name: Named) -> Declared
    ensures { result ≡ spec.named read name }
{
    Declared {
        name: name.name,
        ty: read.ty,
        height: read.height,
        span: Span {
            start: read.span.start,
            end: name.place.end,
        },
    }
}

/// Perhaps a name behind a type.
fn with_name(alloc: Global, cursor: &mut Cursor<'_, '_>, read: Declared) -> Result<Declared, Stop>
    ensures answers { Answers (code.name_follows read cursor.old) result cursor.new }
    ensures low { IfOk result (λ made. made.height ≡ read.height) }
{
    if !sees_name(cursor) {
        return Ok(read);
    }
    let name = cursor.name(alloc)?;
    Ok(named(read, name))
}

/// Perhaps brackets behind what was read so far.
fn with_brackets(
    alloc: Global,
    cursor: &mut Cursor<'_, '_>,
    read: Declared,
    depth: u32,
) -> Result<Declared, Stop>
    requires { read.height ≤ depth }
    ensures answers { Answers (code.bracket_follows depth read cursor.old) result cursor.new }
    ensures low { IfOk result (λ made. made.height ≤ depth) }
{
    if !cursor.sees(Punctuator::LeftBracket) {
        return Ok(read);
    }
    if read.height >= depth {
        return Err(Stop::Fault(Fault::TooDeep));
    }
    crate::declarators::bracketed(alloc, cursor, read, depth)
}

/// Perhaps a name, and perhaps brackets, behind a type.
fn behind(
    alloc: Global,
    cursor: &mut Cursor<'_, '_>,
    read: Declared,
    depth: u32,
) -> Result<Declared, Stop>
    requires { read.height ≤ depth }
    ensures answers { Answers (code.behind depth read cursor.old) result cursor.new }
    ensures low { IfOk result (λ made. made.height ≤ depth) }
{
    let read = with_name(alloc, cursor, read)?;
    with_brackets(alloc, cursor, read, depth)
}

/// A parameter whose type has at most this many levels (C11 6.7.6.3).
pub fn parameter(alloc: Global, cursor: &mut Cursor<'_, '_>, depth: u32) -> Result<Declared, Stop>
    ensures answers { Answers (spec.parameter depth cursor.old) result cursor.new }
    ensures low { IfOk result (λ made. made.height ≤ depth) }
{
    let start = cursor.start();
    let read = type_name(alloc, cursor, depth)?;
    let read = unnamed(alloc, start, read);
    behind(alloc, cursor, read, depth)
}
