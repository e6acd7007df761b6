//! Declarators.

ghost use Rattle.std.specs.Prelude.{◌≡◌, ◌<◌, ◌≤◌, IfOk};
ghost use Rattle.c_parse_base.specs.Reading.Answers.{Answers};
ghost use Rattle.c_parse_decl.specs.Laws.Declarators.Code as code;
ghost use Rattle.c_parse_decl.specs.Reading.Declarators as spec;

use crate::declarators::brackets::bracketed;
use crate::declarators::declared::Declared;
use c_ast::{CType, Punctuator, Span, copy_type};
use c_parse_base::{Cursor, Fault, Named, Stop, TypeRead, stars};
use std::alloc::{AllocError, Global};

/// A base as a type without stars.
fn plain(alloc: Global, base: &CType) -> Result<TypeRead, AllocError>
    ensures { IfOk result (λ read. read ≡ spec.plain base.now) }
{
    Ok(TypeRead {
        ty: copy_type(alloc, base)?,
        height: 0,
        end: 0,
    })
}

/// Stars behind a type, if there are any.
fn pointed(
    alloc: Global,
    cursor: &mut Cursor<'_, '_>,
    base: TypeRead,
    depth: u32,
) -> Result<TypeRead, Stop>
    requires { base.height ≤ depth }
    ensures answers { Answers (code.pointed depth base cursor.old) result cursor.new }
    ensures low { IfOk result (λ read. read.height ≤ depth) }
{
    if !cursor.sees(Punctuator::Star) {
        return Ok(base);
    }
    if base.height >= depth {
        return Err(Stop::Fault(Fault::TooDeep));
    }
    stars(alloc, cursor, base, depth)
}

/// What is declared by tokens that begin at this byte.
fn named(start: u32, read: TypeRead, name: Named) -> Declared
    ensures { result ≡ spec.named_of (start, (read, name)) }
{
    Declared {
        name: name.name,
        ty: read.ty,
        height: read.height,
        span: Span {
            start,
            end: name.place.end,
        },
    }
}

/// Stars and a name behind a base (C11 6.7.6.1).
pub fn starred(
    alloc: Global,
    cursor: &mut Cursor<'_, '_>,
    base: &CType,
    depth: u32,
) -> Result<Declared, Stop>
    ensures answers { Answers (spec.starred depth base.now cursor.old) result cursor.new }
    ensures low { IfOk result (λ read. read.height ≤ depth) }
{
    let start = cursor.start();
    let base = plain(alloc, base)?;
    let read = pointed(alloc, cursor, base, depth)?;
    let name = cursor.name(alloc)?;
    Ok(named(start, read, name))
}

/// A declarator behind a base, with at most this many levels (C11 6.7.6).
pub fn declarator(
    alloc: Global,
    cursor: &mut Cursor<'_, '_>,
    base: &CType,
    depth: u32,
) -> Result<Declared, Stop>
    ensures answers { Answers (spec.declarator depth base.now cursor.old) result cursor.new }
    ensures low { IfOk result (λ read. read.height ≤ depth) }
{
    let read = starred(alloc, cursor, base, depth)?;
    if !cursor.sees(Punctuator::LeftBracket) {
        return Ok(read);
    }
    if read.height >= depth {
        return Err(Stop::Fault(Fault::TooDeep));
    }
    bracketed(alloc, cursor, read, depth)
}
