//! A function's parameters.

ghost use Rattle.std.specs.Prelude.{◌≡◌, ◌<◌, ◌≤◌, ◌+◌, ◌^◌, IfOk};
ghost use Rattle.c_parse_base.specs.Reading.Answers.{Answers};
ghost use Rattle.c_parse_decl.specs.Reading.Parameters as spec;

use crate::parameter_list::parameter::parameter;
use crate::parameter_list::parameters_read::{ListRead, ParametersRead};
use c_ast::Punctuator;
use c_parse_base::{Cursor, Stop, begins_type};
use std::alloc::Global;

/// `param { , param }`, with types of at most this many levels.
fn list(alloc: Global, cursor: &mut Cursor<'_, '_>, depth: u32) -> Result<ListRead, Stop>
    requires { depth + 1 < 2 ^ 32 }
    ensures answers { Answers (spec.list depth cursor.old) result cursor.new }
    ensures low { IfOk result (λ read. read.height ≤ depth + 1) }
{
    let first = parameter(alloc, cursor, depth)?;
    let mut read = ListRead::one(alloc, first)?;
    while cursor.sees(Punctuator::Comma) {
        cursor.skip();
        let next = parameter(alloc, cursor, depth)?;
        read = read.with(next)?;
    }
    Ok(read)
}

/// The parameters and `)`, behind a `(`.
fn inside(alloc: Global, cursor: &mut Cursor<'_, '_>, depth: u32) -> Result<ParametersRead, Stop>
    requires { depth + 1 < 2 ^ 32 }
    ensures answers { Answers (spec.inside depth cursor.old) result cursor.new }
    ensures low { IfOk result (λ read. read.height ≤ depth + 1) }
{
    if !begins_type(cursor) {
        let right = cursor.expect(Punctuator::RightParen)?;
        return Ok(ParametersRead::none(alloc, right));
    }
    let read = list(alloc, cursor, depth)?;
    let right = cursor.expect(Punctuator::RightParen)?;
    Ok(read.closed(alloc, right))
}

/// The parameters of a function with their parentheses, with types of at most this many levels (C11 6.7.6.3).
pub fn parameters(
    alloc: Global,
    cursor: &mut Cursor<'_, '_>,
    depth: u32,
) -> Result<ParametersRead, Stop>
    requires { depth + 1 < 2 ^ 32 }
    ensures answers { Answers (spec.parameters depth cursor.old) result cursor.new }
    ensures low { IfOk result (λ read. read.height ≤ depth + 1) }
{
    cursor.expect(Punctuator::LeftParen)?;
    inside(alloc, cursor, depth)
}
