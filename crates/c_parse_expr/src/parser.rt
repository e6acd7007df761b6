//! Expressions.

ghost use Rattle.std.specs.Prelude.{◌≡◌, ◌<◌, ◌≤◌, ◌+◌, ◌-◌, ◌*◌, Some, IfOk, suc};
ghost use Rattle.c_parse_base.specs.Reading.Answers.{Answers, next_value};
ghost use Rattle.c_parse_expr.specs.Reading.Expressions as spec;
ghost use Rattle.c_parse_expr.specs.Reading.Nodes.{height_behind};
ghost use Rattle.c_parse_expr.specs.Reading.Operators.{pick_binary};
ghost use Rattle.c_parse_expr.specs.Laws.Code.{branches_of, more_suffixes};
ghost use Rattle.c_parse_expr.specs.Laws.WordCode.{next_word};

use crate::assignment::{is_assignable, next_assign};
use crate::begins::{begins_bare, begins_expression};
use crate::measured::Measured;
use crate::node;
use crate::operator::tier_operator;
use crate::plain::plain;
use crate::prefix::{next_step, next_unary};
use crate::suffix::{Arguments, Suffix, sees_suffix, short_suffix};
use c_ast::{BinaryOperator, Keyword, Punctuator, Span, Step, UnaryOperator};
use c_parse_base::{Cursor, Fault, Stop, begins_type, type_name};
use std::alloc::Global;

/// `tname )`, behind `sizeof (`.
fn size_name(
    alloc: Global,
    cursor: &mut Cursor<'_, '_>,
    depth: u32,
    place: Span,
) -> Result<Measured, Stop>
    ensures answers { Answers (spec.size_name depth (spec.under depth) place cursor.old) result cursor.new }
    ensures low { IfOk result (λ read. read.height ≤ depth) }
{
    let read = type_name(alloc, cursor, depth)?;
    let right = cursor.expect(Punctuator::RightParen)?;
    Ok(node::size_name(alloc, place, read, right)?)
}

/// `expr { , expr }`
#[cycle(expression)]
fn arguments(alloc: Global, cursor: &mut Cursor<'_, '_>, depth: u32) -> Result<Arguments, Stop>
    requires { 0 < depth }
    ensures answers { Answers (spec.arguments depth (spec.under depth) cursor.old) result cursor.new }
    ensures low { IfOk result (λ read. read.height < depth) }
{
    let first = assignment(alloc, cursor, depth - 1)?;
    let mut read = Arguments::one(alloc, first)?;
    while cursor.sees(Punctuator::Comma) {
        cursor.skip();
        let next = assignment(alloc, cursor, depth - 1)?;
        read = read.with(next)?;
    }
    Ok(read)
}

/// `[ arguments ] )`, behind a `(`.
#[cycle(expression)]
fn called(alloc: Global, cursor: &mut Cursor<'_, '_>, depth: u32) -> Result<Suffix, Stop>
    requires { 0 < depth }
    ensures answers { Answers (spec.called depth (spec.under depth) cursor.old) result cursor.new }
    ensures low { IfOk result (λ read. height_behind read < depth) }
{
    if cursor.sees(Punctuator::RightParen) {
        let right = cursor.take()?;
        return Ok(Suffix::Call(Arguments::none(alloc), right));
    }
    let read = arguments(alloc, cursor, depth)?;
    let right = cursor.expect(Punctuator::RightParen)?;
    Ok(Suffix::Call(read, right))
}

/// What follows an operand.
#[cycle(expression)]
fn behind(alloc: Global, cursor: &mut Cursor<'_, '_>, depth: u32) -> Result<Suffix, Stop>
    requires { 0 < depth }
    ensures answers { Answers (spec.behind depth (spec.under depth) cursor.old) result cursor.new }
    ensures low { IfOk result (λ read. height_behind read < depth) }
{
    if cursor.sees(Punctuator::LeftBracket) {
        cursor.skip();
        let inner = assignment(alloc, cursor, depth - 1)?;
        let right = cursor.expect(Punctuator::RightBracket)?;
        return Ok(Suffix::Index(inner, right));
    }
    if cursor.sees(Punctuator::LeftParen) {
        cursor.skip();
        return called(alloc, cursor, depth);
    }
    short_suffix(alloc, cursor)
}

/// An operand that was read, and what follows it.
#[cycle(expression)]
fn suffixes(
    alloc: Global,
    cursor: &mut Cursor<'_, '_>,
    depth: u32,
    operand: Measured,
) -> Result<Measured, Stop>
    requires { operand.height ≤ depth }
    ensures answers { Answers (more_suffixes depth operand cursor.old) result cursor.new }
    ensures low { IfOk result (λ read. read.height ≤ depth) }
{
    let mut read = operand;
    while sees_suffix(cursor) {
        if read.height >= depth {
            return Err(Stop::Fault(Fault::TooDeep));
        }
        let suffix = behind(alloc, cursor, depth)?;
        read = node::apply(alloc, read, suffix)?;
    }
    Ok(read)
}

/// `expr )` and what follows, behind a `(` that stands there.
#[cycle(expression)]
fn grouped(
    alloc: Global,
    cursor: &mut Cursor<'_, '_>,
    depth: u32,
    left: Span,
) -> Result<Measured, Stop>
    requires { 0 < depth }
    ensures answers { Answers (spec.grouped depth (spec.under depth) left cursor.old) result cursor.new }
    ensures low { IfOk result (λ read. read.height ≤ depth) }
{
    let inner = assignment(alloc, cursor, depth - 1)?;
    let right = cursor.expect(Punctuator::RightParen)?;
    let read = node::paren(alloc, left, inner, right)?;
    suffixes(alloc, cursor, depth, read)
}

/// `++` or `--`, which comes next, and its operand.
#[cycle(expression)]
fn stepped(
    alloc: Global,
    cursor: &mut Cursor<'_, '_>,
    depth: u32,
    step: Step,
) -> Result<Measured, Stop>
    requires room { 0 < depth }
    requires next { next_word spec.step_word cursor.old ≡ Some step }
    ensures answers { Answers (spec.stepped depth (spec.under depth) cursor.old) result cursor.new }
    ensures low { IfOk result (λ read. read.height ≤ depth) }
{
    let place = cursor.take()?;
    let operand = unary(alloc, cursor, depth - 1)?;
    Ok(node::step(alloc, place, step, operand)?)
}

/// The operator that comes next, and its operand.
#[cycle(expression)]
fn operated(
    alloc: Global,
    cursor: &mut Cursor<'_, '_>,
    depth: u32,
    operator: UnaryOperator,
) -> Result<Measured, Stop>
    requires room { 0 < depth }
    requires next { next_word spec.unary_word cursor.old ≡ Some operator }
    ensures answers { Answers (spec.operated depth (spec.under depth) cursor.old) result cursor.new }
    ensures low { IfOk result (λ read. read.height ≤ depth) }
{
    let place = cursor.take()?;
    let operand = binary(alloc, cursor, depth - 1, 0)?;
    Ok(node::unary(alloc, place, operator, operand)?)
}

/// What stands behind `sizeof (`: an expression, which is two levels below, or a type name.
#[cycle(expression)]
fn size_opened(
    alloc: Global,
    cursor: &mut Cursor<'_, '_>,
    depth: u32,
    place: Span,
    left: Span,
) -> Result<Measured, Stop>
    ensures answers { Answers (spec.size_opened depth (spec.under depth) place left cursor.old) result cursor.new }
    ensures low { IfOk result (λ read. read.height ≤ depth) }
{
    if !begins_expression(cursor) {
        return size_name(alloc, cursor, depth, place);
    }
    if depth <= 1 {
        return Err(Stop::Fault(Fault::TooDeep));
    }
    let operand = grouped(alloc, cursor, depth - 1, left)?;
    Ok(node::size_of(alloc, place, operand)?)
}

/// `sizeof`, and its operand or type name (C11 6.5.3.4).
#[cycle(expression)]
fn sized(alloc: Global, cursor: &mut Cursor<'_, '_>, depth: u32) -> Result<Measured, Stop>
    ensures answers { Answers (spec.sized depth (spec.under depth) cursor.old) result cursor.new }
    ensures low { IfOk result (λ read. read.height ≤ depth) }
{
    let place = cursor.expect_keyword(Keyword::Sizeof)?;
    if begins_bare(cursor) {
        if depth == 0 {
            return Err(Stop::Fault(Fault::TooDeep));
        }
        let operand = bare(alloc, cursor, depth - 1)?;
        return Ok(node::size_of(alloc, place, operand)?);
    }
    let left = cursor.expect(Punctuator::LeftParen)?;
    size_opened(alloc, cursor, depth, place, left)
}

/// An operand that is no cast and has no `(` before it.
#[cycle(expression)]
fn bare(alloc: Global, cursor: &mut Cursor<'_, '_>, depth: u32) -> Result<Measured, Stop>
    ensures answers { Answers (spec.bare depth (spec.under depth) cursor.old) result cursor.new }
    ensures low { IfOk result (λ read. read.height ≤ depth) }
{
    if let Some(step) = next_step(cursor) {
        if depth == 0 {
            return Err(Stop::Fault(Fault::TooDeep));
        }
        return stepped(alloc, cursor, depth, step);
    }
    if let Some(operator) = next_unary(cursor) {
        if depth == 0 {
            return Err(Stop::Fault(Fault::TooDeep));
        }
        return operated(alloc, cursor, depth, operator);
    }
    if cursor.sees_keyword(Keyword::Sizeof) {
        return sized(alloc, cursor, depth);
    }
    let read = plain(alloc, cursor)?;
    suffixes(alloc, cursor, depth, read)
}

/// An operand that is no cast.
#[cycle(expression)]
fn unary(alloc: Global, cursor: &mut Cursor<'_, '_>, depth: u32) -> Result<Measured, Stop>
    ensures answers { Answers (spec.unary depth (spec.under depth) cursor.old) result cursor.new }
    ensures low { IfOk result (λ read. read.height ≤ depth) }
{
    if !cursor.sees(Punctuator::LeftParen) {
        return bare(alloc, cursor, depth);
    }
    if depth == 0 {
        return Err(Stop::Fault(Fault::TooDeep));
    }
    let left = cursor.expect(Punctuator::LeftParen)?;
    grouped(alloc, cursor, depth, left)
}

/// `tname ) cast`, behind a `(` that stands there.
#[cycle(expression)]
fn casted(
    alloc: Global,
    cursor: &mut Cursor<'_, '_>,
    depth: u32,
    left: Span,
) -> Result<Measured, Stop>
    requires { 0 < depth }
    ensures answers { Answers (spec.casted depth (spec.under depth) left cursor.old) result cursor.new }
    ensures low { IfOk result (λ read. read.height ≤ depth) }
{
    let read = type_name(alloc, cursor, depth)?;
    let right = cursor.expect(Punctuator::RightParen)?;
    let inner = binary(alloc, cursor, depth - 1, 0)?;
    Ok(node::cast(alloc, left, (read, (right, inner)))?)
}

/// An operand, which may be a cast (C11 6.5.4).
#[cycle(expression)]
fn operand(alloc: Global, cursor: &mut Cursor<'_, '_>, depth: u32) -> Result<Measured, Stop>
    ensures answers { Answers (spec.operand depth (spec.under depth) cursor.old) result cursor.new }
    ensures low { IfOk result (λ read. read.height ≤ depth) }
{
    if !cursor.sees(Punctuator::LeftParen) {
        return bare(alloc, cursor, depth);
    }
    if depth == 0 {
        return Err(Stop::Fault(Fault::TooDeep));
    }
    let left = cursor.expect(Punctuator::LeftParen)?;
    if begins_type(cursor) {
        return casted(alloc, cursor, depth, left);
    }
    grouped(alloc, cursor, depth, left)
}

/// The operator that comes next, and its right operand.
#[cycle(expression)]
fn operation(
    alloc: Global,
    cursor: &mut Cursor<'_, '_>,
    depth: u32,
    tier: u8,
    left: Measured,
    operator: BinaryOperator,
) -> Result<Measured, Stop>
    requires room { left.height < depth }
    requires tier { tier < 10 }
    requires next { next_value (pick_binary (suc tier)) cursor.old ≡ Some operator }
    ensures answers { Answers (spec.operation depth (spec.under depth) tier left cursor.old) result cursor.new }
    ensures low { IfOk result (λ read. read.height ≤ depth) }
{
    cursor.skip();
    let right = binary(alloc, cursor, depth - 1, tier)?;
    Ok(node::binary(alloc, left, operator, right)?)
}

/// Operators of a tier and of the tighter ones, from left to right.
#[cycle(expression)]
fn binary(
    alloc: Global,
    cursor: &mut Cursor<'_, '_>,
    depth: u32,
    tier: u8,
) -> Result<Measured, Stop>
    requires { tier ≤ 10 }
    ensures answers { Answers (spec.tier depth (spec.under depth) tier cursor.old) result cursor.new }
    ensures low { IfOk result (λ read. read.height ≤ depth) }
{
    if tier == 0 {
        return operand(alloc, cursor, depth);
    }
    let mut left = binary(alloc, cursor, depth, tier - 1)?;
    while let Some(operator) = tier_operator(cursor, tier) {
        if left.height >= depth {
            return Err(Stop::Fault(Fault::TooDeep));
        }
        left = operation(alloc, cursor, depth, tier - 1, left, operator)?;
    }
    Ok(left)
}

/// `expr : cond`, behind a `?`.
#[cycle(expression)]
fn branches(
    alloc: Global,
    cursor: &mut Cursor<'_, '_>,
    depth: u32,
) -> Result<(Measured, (Span, Measured)), Stop>
    requires { 0 < depth }
    ensures answers { Answers (branches_of depth cursor.old) result cursor.new }
    ensures low { IfOk result (λ read. (read.0.height < depth) × (read.1.1.height < depth)) }
{
    let chosen = assignment(alloc, cursor, depth - 1)?;
    let colon = cursor.expect(Punctuator::Colon)?;
    let other = conditional(alloc, cursor, depth - 1)?;
    Ok((chosen, (colon, other)))
}

/// A conditional expression with at most this many levels below it: operators between operands, and perhaps a choice (C11 6.5.15).
#[cycle(expression)]
pub fn conditional(alloc: Global, cursor: &mut Cursor<'_, '_>, depth: u32) -> Result<Measured, Stop>
    ensures answers { Answers ((spec.at depth).conditional cursor.old) result cursor.new }
    ensures low { IfOk result (λ read. read.height ≤ depth) }
{
    let condition = binary(alloc, cursor, depth, 10)?;
    if !cursor.sees(Punctuator::Question) {
        return Ok(condition);
    }
    if condition.height >= depth {
        return Err(Stop::Fault(Fault::TooDeep));
    }
    cursor.skip();
    let parts = branches(alloc, cursor, depth)?;
    Ok(node::choice(alloc, condition, parts)?)
}

/// A conditional expression, and perhaps what is assigned to it (C11 6.5.16).
#[cycle(expression)]
fn assignment(alloc: Global, cursor: &mut Cursor<'_, '_>, depth: u32) -> Result<Measured, Stop>
    ensures answers { Answers (spec.assignment depth (spec.under depth) cursor.old) result cursor.new }
    ensures low { IfOk result (λ read. read.height ≤ depth) }
{
    let left = conditional(alloc, cursor, depth)?;
    let Some(operator) = next_assign(cursor) else {
        return Ok(left);
    };
    if !is_assignable(&left) {
        return Err(Stop::Fault(Fault::Unexpected));
    }
    if left.height >= depth {
        return Err(Stop::Fault(Fault::TooDeep));
    }
    cursor.skip();
    let right = assignment(alloc, cursor, depth - 1)?;
    Ok(node::assign(alloc, left, operator, right)?)
}

/// An expression with at most this many levels below it.
pub fn expression(alloc: Global, cursor: &mut Cursor<'_, '_>, depth: u32) -> Result<Measured, Stop>
    ensures answers { Answers ((spec.at depth).expression cursor.old) result cursor.new }
    ensures low { IfOk result (λ read. read.height ≤ depth) }
{
    assignment(alloc, cursor, depth)
}
