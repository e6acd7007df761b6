//! A whole list of tokens as a program.

ghost use Rattle.std.specs.Prelude.{◌≡◌, ◌<◌, ◌≤◌, ◌+◌, ◌^◌, ℕ, length, MatchResult};
ghost use Rattle.c_ast.specs.declared.program.Program.{Program};
ghost use Rattle.c_grammar.specs.Spells.{Spells};
ghost use Rattle.c_parse_base.specs.Reading.Exact.{ended};
ghost use Rattle.c_parse_base.specs.Reading.Answers.{Answers};
ghost use Rattle.c_parse.specs.Reading.Externals as spec;
ghost use Rattle.c_parse.specs.Parsed.{Parsed, IsTooDeep, limit};
ghost use Rattle.c_parse.specs.Laws.WholeCode as whole;

use crate::externals::Externals;
use crate::parser::unit;
use crate::refusal::ParseRefusal;
use c_ast::{Program, Token};
use c_parse_base::{Cursor, Fault, Stop};
use sqlite_items::Items;
use std::alloc::Global;

/// How many levels a program has at most.
const LIMIT: u32 = 200;

/// One external declaration or more, and nothing behind them.
fn all(alloc: Global, cursor: &mut Cursor<'_, '_>, depth: u32) -> Result<Externals, Stop>
    requires { depth + 2 < 2 ^ 32 }
    ensures { Answers (ended (spec.unit depth) cursor.old) result cursor.new }
{
    let read = unit(alloc, cursor, depth)?;
    cursor.expect_end()?;
    Ok(read)
}

/// The refusal at a place where the parser stopped.
fn refused(stop: Stop, place: u32) -> ParseRefusal
    ensures { result ≡ whole.refused stop place }
{
    match stop {
        Stop::Fault(Fault::Unexpected) => ParseRefusal::Unexpected { place },
        Stop::Fault(Fault::TooDeep) => ParseRefusal::TooDeep { place },
        Stop::NoMemory => ParseRefusal::NoMemory,
    }
}

/// The program that the tokens spell (C11 6.9), if it has at most 200 levels.
///
/// Only want of memory has no cause in the tokens.
pub fn parse(alloc: Global, tokens: &[Token<'_>]) -> Result<Program, ParseRefusal>
    requires { length tokens.now < 2 ^ 32 }
    ensures parsed { Parsed limit tokens.now result }

    // Want of memory aside, each program within the limit is read.
    ensures all { (program : Program) → (depth : ℕ) → Spells tokens.now program depth → depth ≤ limit →
        MatchResult result (λ found. found ≡ program) (λ refusal. refusal ≡ ParseRefusal.NoMemory) }

    // Want of memory aside, each program beyond the limit is too deep.
    ensures deep { (program : Program) → (depth : ℕ) → Spells tokens.now program depth → limit < depth → IsTooDeep result }
{
    if tokens.len() == 0 {
        return Ok(Program {
            items: Items::new(alloc),
        });
    }
    let mut cursor = Cursor::new(tokens);
    match all(alloc, &mut cursor, LIMIT - 2) {
        Ok(read) => Ok(read.program()),
        Err(stop) => {
            let place = tokens.len().saturating_sub(cursor.left());
            Err(refused(stop, place as u32))
        }
    }
}
