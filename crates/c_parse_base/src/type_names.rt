//! Type names.

ghost use Rattle.std.specs.Prelude.{◌≡◌, ◌<◌, ◌≤◌, ◌+◌, ◌^◌, IfOk};
ghost use Rattle.c_parse_base.specs.Reading.Answer.{sees};
ghost use Rattle.c_parse_base.specs.Reading.Answers.{Answers, next_value};
ghost use Rattle.c_parse_base.specs.Laws.TypeCode as code;
ghost use Rattle.c_parse_base.specs.Reading.TypeNames as spec;

use crate::cursor::{Cursor, place_of};
use crate::fault::{Fault, Stop};
use crate::type_read::TypeRead;
use crate::type_words::{TypeWords, next_first, next_size};
use crate::words::Named;
use c_ast::{CType, Keyword, Punctuator, Span};
use sqlite_items::Boxed;
use std::alloc::{AllocError, Global};

/// The first word of an integer type.
fn first_word(cursor: &mut Cursor<'_, '_>) -> Result<TypeWords, Stop>
    ensures { Answers (spec.first_word cursor.old) result cursor.new }
{
    let Some(word) = next_first(cursor) else {
        return Err(Stop::Fault(Fault::Unexpected));
    };
    let place = cursor.take()?;
    Ok(TypeWords::first(word, place.end))
}

/// A first word, and perhaps a size.
fn sized(cursor: &mut Cursor<'_, '_>) -> Result<TypeWords, Stop>
    ensures { Answers (spec.sized cursor.old) result cursor.new }
{
    let first = first_word(cursor)?;
    let Some(size) = next_size(cursor) else {
        return Ok(first);
    };
    if !first.takes_size {
        return Err(Stop::Fault(Fault::Unexpected));
    }
    let place = cursor.take()?;
    Ok(first.sized(size, place.end))
}

/// All words of an integer type.
fn type_words(cursor: &mut Cursor<'_, '_>) -> Result<TypeWords, Stop>
    ensures { Answers (spec.type_words cursor.old) result cursor.new }
{
    let words = sized(cursor)?;
    if !cursor.sees_keyword(Keyword::Int) {
        return Ok(words);
    }
    if !words.takes_int {
        return Err(Stop::Fault(Fault::Unexpected));
    }
    let place = cursor.expect_keyword(Keyword::Int)?;
    Ok(words.int(place))
}

/// An integer type.
fn integer(cursor: &mut Cursor<'_, '_>) -> Result<TypeRead, Stop>
    ensures answers { Answers (spec.integer cursor.old) result cursor.new }
    ensures low { IfOk result (λ read. read.height ≡ 0) }
{
    let words = type_words(cursor)?;
    Ok(TypeRead {
        ty: CType::Int(words.ty),
        height: 0,
        end: words.end,
    })
}

/// `void`
fn void_type(cursor: &mut Cursor<'_, '_>) -> Result<TypeRead, Stop>
    ensures answers { Answers (spec.void_type cursor.old) result cursor.new }
    ensures low { IfOk result (λ read. read.height ≡ 0) }
{
    let place = cursor.expect_keyword(Keyword::Void)?;
    Ok(TypeRead {
        ty: CType::Void,
        height: 0,
        end: place.end,
    })
}

/// The struct of a tag.
fn tagged(tag: Named) -> TypeRead
    ensures { result ≡ spec.tagged tag }
{
    TypeRead {
        ty: CType::Struct(tag.name),
        height: 0,
        end: tag.place.end,
    }
}

/// `struct` and a tag.
fn struct_type(alloc: Global, cursor: &mut Cursor<'_, '_>) -> Result<TypeRead, Stop>
    ensures answers { Answers (spec.struct_type cursor.old) result cursor.new }
    ensures low { IfOk result (λ read. read.height ≡ 0) }
{
    cursor.expect_keyword(Keyword::Struct)?;
    let tag = cursor.name(alloc)?;
    Ok(tagged(tag))
}

/// What stars can stand behind: integer types, `void` and structs (C11 6.7.2).
pub fn base(alloc: Global, cursor: &mut Cursor<'_, '_>) -> Result<TypeRead, Stop>
    ensures answers { Answers (spec.base cursor.old) result cursor.new }
    ensures low { IfOk result (λ read. read.height ≡ 0) }
{
    if cursor.sees_keyword(Keyword::Struct) {
        return struct_type(alloc, cursor);
    }
    if cursor.sees_keyword(Keyword::Void) {
        return void_type(cursor);
    }
    integer(cursor)
}

/// Where a star stands that comes next.
#[tactic(auto, using(crate::specs::Laws::TypeCode::star_seen, crate::specs::Laws::TypeCode::star_unseen, crate::specs::Laws::TypeCode::star_at_end))]
fn next_star(cursor: &Cursor<'_, '_>) -> Option<Span>
    ensures { result ≡ next_value spec.pick_star cursor.now }
{
    let Some(token) = cursor.peek() else {
        return None;
    };
    if !cursor.sees(Punctuator::Star) {
        return None;
    }
    Some(place_of(token))
}

/// A star behind a type.
fn star(alloc: Global, read: TypeRead, place: Span) -> Result<TypeRead, AllocError>
    requires { read.height + 1 < 2 ^ 32 }
    ensures { IfOk result (λ made. made ≡ spec.star_of read place) }
{
    Ok(TypeRead {
        ty: CType::Pointer(Boxed::new(alloc, read.ty)?),
        height: read.height + 1,
        end: place.end,
    })
}

/// The stars that are left behind a type.
fn more_stars(
    alloc: Global,
    cursor: &mut Cursor<'_, '_>,
    mut read: TypeRead,
    depth: u32,
) -> Result<TypeRead, Stop>
    requires { read.height ≤ depth }
    ensures answers { Answers (code.more_stars depth read cursor.old) result cursor.new }
    ensures low { IfOk result (λ read. read.height ≤ depth) }
{
    while let Some(place) = next_star(cursor) {
        if read.height >= depth {
            return Err(Stop::Fault(Fault::TooDeep));
        }
        cursor.skip();
        read = star(alloc, read, place)?;
    }
    Ok(read)
}

/// One or more stars behind a type (C11 6.7.6.1).
pub fn stars(
    alloc: Global,
    cursor: &mut Cursor<'_, '_>,
    read: TypeRead,
    depth: u32,
) -> Result<TypeRead, Stop>
    requires { read.height < depth }
    ensures answers { Answers (spec.stars depth read cursor.old) result cursor.new }
    ensures low { IfOk result (λ read. read.height ≤ depth) }
{
    let place = cursor.expect(Punctuator::Star)?;
    let first = star(alloc, read, place)?;
    more_stars(alloc, cursor, first, depth)
}

/// A type name with at most this many stars (C11 6.7.7).
pub fn type_name(alloc: Global, cursor: &mut Cursor<'_, '_>, depth: u32) -> Result<TypeRead, Stop>
    ensures answers { Answers (spec.type_name depth cursor.old) result cursor.new }
    ensures low { IfOk result (λ read. read.height ≤ depth) }
{
    let read = base(alloc, cursor)?;
    more_stars(alloc, cursor, read, depth)
}

/// Whether the next token begins a type.
pub fn begins_type(cursor: &Cursor<'_, '_>) -> bool
    ensures { result ≡ sees spec.begins_type cursor.now }
{
    cursor.sees_keyword(Keyword::Struct)
        || cursor.sees_keyword(Keyword::Void)
        || next_first(cursor).is_some()
}
