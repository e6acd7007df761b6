//! Members of structs.

ghost use Rattle.std.specs.Prelude.{◌≡◌, ◌≤◌, IfOk};
ghost use Rattle.c_parse_base.specs.Reading.Answers.{Answers};
ghost use Rattle.c_parse_decl.specs.Reading.Members as spec;

use crate::declarators::declarator;
use crate::members::body_read::BodyRead;
use crate::members::member_list::MemberList;
use c_ast::{CType, Punctuator};
use c_parse_base::{Cursor, Stop, base, begins_type};
use std::alloc::Global;

/// `declr { , declr }`, behind the members that were read.
fn declarators(
    alloc: Global,
    cursor: &mut Cursor<'_, '_>,
    of: &CType,
    depth: u32,
    before: MemberList,
) -> Result<MemberList, Stop>
    requires { before.height ≤ depth }
    ensures answers { Answers (spec.declarators depth of.now before cursor.old) result cursor.new }
    ensures low { IfOk result (λ read. read.height ≤ depth) }
{
    let first = declarator(alloc, cursor, of, depth)?;
    let mut read = before.with(first)?;
    while cursor.sees(Punctuator::Comma) {
        cursor.skip();
        let next = declarator(alloc, cursor, of, depth)?;
        read = read.with(next)?;
    }
    Ok(read)
}

/// Likewise, and `;`.
fn ended(
    alloc: Global,
    cursor: &mut Cursor<'_, '_>,
    of: &CType,
    depth: u32,
    before: MemberList,
) -> Result<MemberList, Stop>
    requires { before.height ≤ depth }
    ensures answers { Answers (spec.ended depth of.now before cursor.old) result cursor.new }
    ensures low { IfOk result (λ read. read.height ≤ depth) }
{
    let read = declarators(alloc, cursor, of, depth, before)?;
    cursor.expect(Punctuator::Semicolon)?;
    Ok(read)
}

/// Members of one type, behind the members that were read.
fn member(
    alloc: Global,
    cursor: &mut Cursor<'_, '_>,
    depth: u32,
    before: MemberList,
) -> Result<MemberList, Stop>
    requires { before.height ≤ depth }
    ensures answers { Answers (spec.member depth before cursor.old) result cursor.new }
    ensures low { IfOk result (λ read. read.height ≤ depth) }
{
    let of = base(alloc, cursor)?;
    ended(alloc, cursor, &of.ty, depth, before)
}

/// `member { member }`
fn members(alloc: Global, cursor: &mut Cursor<'_, '_>, depth: u32) -> Result<MemberList, Stop>
    ensures answers { Answers (spec.members depth cursor.old) result cursor.new }
    ensures low { IfOk result (λ read. read.height ≤ depth) }
{
    let mut read = member(alloc, cursor, depth, MemberList::none(alloc))?;
    while begins_type(cursor) {
        read = member(alloc, cursor, depth, read)?;
    }
    Ok(read)
}

/// A struct's body with its braces, with at most this many levels below a member (C11 6.7.2.1).
pub fn body(alloc: Global, cursor: &mut Cursor<'_, '_>, depth: u32) -> Result<BodyRead, Stop>
    ensures answers { Answers (spec.body depth cursor.old) result cursor.new }
    ensures low { IfOk result (λ read. read.height ≤ depth) }
{
    cursor.expect(Punctuator::LeftBrace)?;
    let read = members(alloc, cursor, depth)?;
    let right = cursor.expect(Punctuator::RightBrace)?;
    Ok(BodyRead {
        members: read.decls,
        height: read.height,
        end: right.end,
    })
}
