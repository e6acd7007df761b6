//! Expressions that may be left out, conditions, and what stands in the parentheses of a `for`.

ghost use Rattle.std.specs.Prelude.{◌≡◌, ◌<◌, ◌≤◌, IfOk};
ghost use Rattle.c_parse_base.specs.Reading.Answers.{Answers};
ghost use Rattle.c_parse_stmt.specs.Reading.Statements as spec;

use crate::clause_read::{FirstRead, ForHead, MaybeRead};
use crate::node;
use c_ast::{Keyword, Punctuator};
use c_parse_base::{Cursor, Fault, Stop, begins_type};
use c_parse_decl::local;
use c_parse_expr::{Measured, begins_expression, expression};
use std::alloc::Global;

/// `( expr )`
pub fn condition(alloc: Global, cursor: &mut Cursor<'_, '_>, depth: u32) -> Result<Measured, Stop>
    requires { 0 < depth }
    ensures answers { Answers (spec.condition depth cursor.old) result cursor.new }
    ensures low { IfOk result (λ read. read.height < depth) }
{
    cursor.expect(Punctuator::LeftParen)?;
    let inner = expression(alloc, cursor, depth - 1)?;
    cursor.expect(Punctuator::RightParen)?;
    Ok(inner)
}

/// `[ expr ]`, and the token that closes it.
pub fn maybe(
    alloc: Global,
    cursor: &mut Cursor<'_, '_>,
    depth: u32,
    mark: Punctuator,
) -> Result<MaybeRead, Stop>
    ensures answers { Answers (spec.maybe depth mark cursor.old) result cursor.new }
    ensures low { IfOk result (λ read. read.height ≤ depth) }
{
    if !begins_expression(cursor) {
        let place = cursor.expect(mark)?;
        return Ok(node::left_out(place));
    }
    if depth == 0 {
        return Err(Stop::Fault(Fault::TooDeep));
    }
    let inner = expression(alloc, cursor, depth - 1)?;
    let place = cursor.expect(mark)?;
    Ok(node::written(inner, place))
}

/// What comes first in a `for` (C11 6.8.5.3).
fn first(alloc: Global, cursor: &mut Cursor<'_, '_>, depth: u32) -> Result<FirstRead, Stop>
    ensures answers { Answers (spec.first depth cursor.old) result cursor.new }
    ensures low { IfOk result (λ read. read.height ≤ depth) }
{
    if !begins_type(cursor) {
        let read = maybe(alloc, cursor, depth, Punctuator::Semicolon)?;
        return Ok(node::first_expression(alloc, read));
    }
    if depth == 0 {
        return Err(Stop::Fault(Fault::TooDeep));
    }
    let read = local(alloc, cursor, depth - 1)?;
    Ok(node::first_local(read))
}

/// What stands in the parentheses of a `for`, with them (C11 6.8.5.3).
pub fn for_head(alloc: Global, cursor: &mut Cursor<'_, '_>, depth: u32) -> Result<ForHead, Stop>
    ensures answers { Answers (spec.for_head depth cursor.old) result cursor.new }
    ensures low { IfOk result (λ read. (read.first.height ≤ depth) × (read.condition.height ≤ depth) × (read.step.height ≤ depth)) }
{
    cursor.expect(Punctuator::LeftParen)?;
    let first = first(alloc, cursor, depth)?;
    let condition = maybe(alloc, cursor, depth, Punctuator::Semicolon)?;
    let step = maybe(alloc, cursor, depth, Punctuator::RightParen)?;
    Ok(ForHead {
        first,
        condition,
        step,
    })
}

/// `while ( expr ) ;`, behind the statement of a `do`.
pub fn do_tail(alloc: Global, cursor: &mut Cursor<'_, '_>, depth: u32) -> Result<Measured, Stop>
    requires { 0 < depth }
    ensures answers { Answers (spec.do_tail depth cursor.old) result cursor.new }
    ensures low { IfOk result (λ read. read.height < depth) }
{
    cursor.expect_keyword(Keyword::While)?;
    let inner = condition(alloc, cursor, depth)?;
    cursor.expect(Punctuator::Semicolon)?;
    Ok(inner)
}
