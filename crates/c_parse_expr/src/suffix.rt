//! What stands behind an operand.

ghost use Rattle.std.specs.Prelude.{◌≡◌, IfOk};
ghost use Rattle.c_parse_base.specs.Reading.Answer.{word};
ghost use Rattle.c_parse_base.specs.Reading.Answers.{Answers};
ghost use Rattle.c_parse_expr.specs.Reading.Expressions as spec;
ghost use Rattle.c_parse_expr.specs.Reading.Nodes as nodes;

use crate::measured::Measured;
use c_ast::{Expr, Punctuator, Span, Step};
use c_parse_base::{Cursor, Fault, Named, Stop};
use sqlite_items::Items;
use std::alloc::{AllocError, Global};

/// The arguments of a call, and the number of levels below the deepest one.
#[derive(Drop)]
pub struct Arguments {
    pub trees: Items<Expr>,
    pub height: u32,
}

impl Arguments {
    /// No argument.
    pub fn none(alloc: Global) -> Arguments
        ensures { result ≡ nodes.no_arguments }
    {
        Arguments {
            trees: Items::new(alloc),
            height: 0,
        }
    }

    /// The first argument.
    pub fn one(alloc: Global, first: Measured) -> Result<Arguments, AllocError>
        ensures { IfOk result (λ read. read ≡ nodes.one_argument first) }
    {
        let mut trees = Items::new(alloc);
        trees.push(first.tree)?;
        Ok(Arguments {
            trees,
            height: first.height,
        })
    }

    /// One more argument behind them.
    pub fn with(self, next: Measured) -> Result<Arguments, AllocError>
        ensures { IfOk result (λ read. read ≡ nodes.more_arguments self next) }
    {
        let Arguments { mut trees, height } = self;
        trees.push(next.tree)?;
        Ok(Arguments {
            trees,
            height: height.max(next.height),
        })
    }
}

/// What follows an operand (C11 6.5.2), with the place of its last token.
#[derive(Drop)]
pub enum Suffix {
    /// `[ e ]`
    Index(Measured, Span),
    /// `( arguments )`
    Call(Arguments, Span),
    /// `. name`
    Member(Named),
    /// `-> name`
    Arrow(Named),
    /// `++` or `--`
    Step(Step, Span),
}

/// `++` or `--`, behind an operand.
#[tactic(auto, using(crate::specs::Laws::WordCode::step_none))]
fn step_behind(cursor: &mut Cursor<'_, '_>) -> Result<Suffix, Stop>
    ensures answers { Answers (word spec.pick_step cursor.old) result cursor.new }
    ensures low { IfOk result (λ read. nodes.height_behind read ≡ 0) }
{
    if cursor.sees(Punctuator::PlusPlus) {
        let place = cursor.take()?;
        return Ok(Suffix::Step(Step::PostIncrement, place));
    }
    if cursor.sees(Punctuator::MinusMinus) {
        let place = cursor.take()?;
        return Ok(Suffix::Step(Step::PostDecrement, place));
    }
    Err(Stop::Fault(Fault::Unexpected))
}

/// A member, or a step behind an operand.
pub fn short_suffix(alloc: Global, cursor: &mut Cursor<'_, '_>) -> Result<Suffix, Stop>
    ensures answers { Answers (spec.short_suffix cursor.old) result cursor.new }
    ensures low { IfOk result (λ read. nodes.height_behind read ≡ 0) }
{
    if cursor.sees(Punctuator::Dot) {
        cursor.skip();
        let member = cursor.name(alloc)?;
        return Ok(Suffix::Member(member));
    }
    if cursor.sees(Punctuator::Arrow) {
        cursor.skip();
        let member = cursor.name(alloc)?;
        return Ok(Suffix::Arrow(member));
    }
    step_behind(cursor)
}

/// Whether something comes next that follows an operand.
pub fn sees_suffix(cursor: &Cursor<'_, '_>) -> bool
    ensures { result ≡ spec.sees_suffix cursor.now }
{
    if cursor.sees(Punctuator::LeftBracket) {
        return true;
    }
    if cursor.sees(Punctuator::LeftParen) {
        return true;
    }
    if cursor.sees(Punctuator::Dot) {
        return true;
    }
    if cursor.sees(Punctuator::Arrow) {
        return true;
    }
    if cursor.sees(Punctuator::PlusPlus) {
        return true;
    }
    cursor.sees(Punctuator::MinusMinus)
}
