//! Declarations of objects.

ghost use Rattle.std.specs.Prelude.{◌≡◌, ◌<◌, ◌≤◌, IfOk, true};
ghost use Rattle.c_parse_base.specs.Reading.Answer.{sees};
ghost use Rattle.c_parse_base.specs.Reading.Answers.{Answers};
ghost use Rattle.c_parse_decl.specs.Reading.Objects as spec;

use crate::declarators::{Declared, bracketed, declarator, starred};
use crate::initializers::initial;
use crate::objects::objects_read::{ObjectRead, ObjectsRead};
use c_ast::{CType, Punctuator};
use c_parse_base::{Cursor, Fault, Stop, base};
use std::alloc::Global;

/// The `=` that comes next behind a declarator, and the initializer.
fn value(
    alloc: Global,
    cursor: &mut Cursor<'_, '_>,
    read: Declared,
    depth: u32,
) -> Result<ObjectRead, Stop>
    requires low { read.height ≤ depth }
    requires room { 1 < depth }
    requires next { sees spec.equal cursor.old ≡ true }
    ensures answers { Answers (spec.value depth (spec.plain_of read) cursor.old) result cursor.new }
    ensures low { IfOk result (λ made. made.height ≤ depth) }
{
    cursor.skip();
    let behind = initial(alloc, cursor, depth - 2)?;
    Ok(ObjectRead::valued(read, behind))
}

/// A declarator, and perhaps an initializer.
fn object(
    alloc: Global,
    cursor: &mut Cursor<'_, '_>,
    base: &CType,
    depth: u32,
) -> Result<ObjectRead, Stop>
    ensures answers { Answers (spec.object depth base.now cursor.old) result cursor.new }
    ensures low { IfOk result (λ read. read.height ≤ depth) }
{
    let read = declarator(alloc, cursor, base, depth)?;
    if !cursor.sees(Punctuator::Equal) {
        return Ok(ObjectRead::plain(read));
    }
    if depth < 2 {
        return Err(Stop::Fault(Fault::TooDeep));
    }
    value(alloc, cursor, read, depth)
}

/// Further objects behind a first one, and the semicolon.
fn ended(
    alloc: Global,
    cursor: &mut Cursor<'_, '_>,
    base: &CType,
    first: ObjectRead,
    depth: u32,
) -> Result<ObjectsRead, Stop>
    requires { first.height ≤ depth }
    ensures answers { Answers (spec.ended depth base.now (spec.one_object first) cursor.old) result cursor.new }
    ensures low { IfOk result (λ read. read.height ≤ depth) }
{
    let mut read = ObjectsRead::one(alloc, first)?;
    while cursor.sees(Punctuator::Comma) {
        cursor.skip();
        let next = object(alloc, cursor, base, depth)?;
        read = read.with(next)?;
    }
    cursor.expect(Punctuator::Semicolon)?;
    Ok(read)
}

/// What is left behind a first declarator: an initializer, further objects and the semicolon.
fn valued_rest(
    alloc: Global,
    cursor: &mut Cursor<'_, '_>,
    base: &CType,
    first: Declared,
    depth: u32,
) -> Result<ObjectsRead, Stop>
    requires { first.height ≤ depth }
    ensures answers { Answers (spec.valued_rest depth base.now first cursor.old) result cursor.new }
    ensures low { IfOk result (λ read. read.height ≤ depth) }
{
    if !cursor.sees(Punctuator::Equal) {
        return ended(alloc, cursor, base, ObjectRead::plain(first), depth);
    }
    if depth < 2 {
        return Err(Stop::Fault(Fault::TooDeep));
    }
    let valued = value(alloc, cursor, first, depth)?;
    ended(alloc, cursor, base, valued, depth)
}

/// What is left of a declaration behind the base and the first name: brackets, an initializer, further objects and the semicolon.
pub fn rest(
    alloc: Global,
    cursor: &mut Cursor<'_, '_>,
    base: &CType,
    first: Declared,
    depth: u32,
) -> Result<ObjectsRead, Stop>
    requires { first.height ≤ depth }
    ensures answers { Answers (spec.rest depth base.now first cursor.old) result cursor.new }
    ensures low { IfOk result (λ read. read.height ≤ depth) }
{
    if !cursor.sees(Punctuator::LeftBracket) {
        return valued_rest(alloc, cursor, base, first, depth);
    }
    if first.height >= depth {
        return Err(Stop::Fault(Fault::TooDeep));
    }
    let declared = bracketed(alloc, cursor, first, depth)?;
    valued_rest(alloc, cursor, base, declared, depth)
}

/// The objects behind a base, and the semicolon.
fn named(
    alloc: Global,
    cursor: &mut Cursor<'_, '_>,
    base: &CType,
    depth: u32,
) -> Result<ObjectsRead, Stop>
    ensures answers { Answers (spec.named depth base.now cursor.old) result cursor.new }
    ensures low { IfOk result (λ read. read.height ≤ depth) }
{
    let first = starred(alloc, cursor, base, depth)?;
    rest(alloc, cursor, base, first, depth)
}

/// A declaration in a block, with at most this many levels (C11 6.7, 6.8.2).
pub fn local(alloc: Global, cursor: &mut Cursor<'_, '_>, depth: u32) -> Result<ObjectsRead, Stop>
    ensures answers { Answers (spec.local depth cursor.old) result cursor.new }
    ensures low { IfOk result (λ read. read.height ≤ depth) }
{
    let read = base(alloc, cursor)?;
    named(alloc, cursor, &read.ty, depth)
}
