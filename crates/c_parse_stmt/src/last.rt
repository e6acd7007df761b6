//! Statements without a statement in them: expressions, `;`, `return`, `break` and `continue`.

ghost use Rattle.std.specs.Prelude.{◌≡◌, ◌≤◌, true, IfOk};
ghost use Rattle.c_grammar.specs.Words.{keyword};
ghost use Rattle.c_grammar.specs.Statements.{InLoop};
ghost use Rattle.c_parse_base.specs.Reading.Answer.{sees};
ghost use Rattle.c_parse_base.specs.Reading.Answers.{Answers};
ghost use Rattle.c_parse_base.specs.Reading.Words.{is};
ghost use Rattle.c_parse_stmt.specs.Reading.Statements as spec;

use crate::clauses::maybe;
use crate::node;
use crate::statement_read::StatementRead;
use c_ast::{Keyword, Punctuator};
use c_parse_base::{Cursor, Stop};
use std::alloc::Global;

/// `[ expr ] ;` (C11 6.8.3).
fn simple(alloc: Global, cursor: &mut Cursor<'_, '_>, depth: u32) -> Result<StatementRead, Stop>
    ensures answers { Answers (spec.simple depth cursor.old) result cursor.new }
    ensures low { IfOk result (λ read. read.height ≤ depth) }
{
    let read = maybe(alloc, cursor, depth, Punctuator::Semicolon)?;
    Ok(node::simple(alloc, read)?)
}

/// `return [ expr ] ;` (C11 6.8.6.4).
pub fn returned(
    alloc: Global,
    cursor: &mut Cursor<'_, '_>,
    depth: u32,
) -> Result<StatementRead, Stop>
    requires { sees (is (keyword Keyword.Return)) cursor.old ≡ true }
    ensures answers { Answers (spec.returned depth cursor.old) result cursor.new }
    ensures low { IfOk result (λ read. read.height ≤ depth) }
{
    let start = cursor.start();
    cursor.skip();
    let read = maybe(alloc, cursor, depth, Punctuator::Semicolon)?;
    Ok(node::returned(alloc, start, read)?)
}

/// `break ;` (C11 6.8.6.3).
fn broken(alloc: Global, cursor: &mut Cursor<'_, '_>) -> Result<StatementRead, Stop>
    requires { sees (is (keyword Keyword.Break)) cursor.old ≡ true }
    ensures answers { Answers (spec.broken cursor.old) result cursor.new }
    ensures low { IfOk result (λ read. read.height ≡ 0) }
{
    let start = cursor.start();
    cursor.skip();
    let end = cursor.expect(Punctuator::Semicolon)?;
    Ok(node::broken(alloc, start, end)?)
}

/// `continue ;` (C11 6.8.6.2).
fn continued(alloc: Global, cursor: &mut Cursor<'_, '_>) -> Result<StatementRead, Stop>
    requires { sees (is (keyword Keyword.Continue)) cursor.old ≡ true }
    ensures answers { Answers (spec.continued cursor.old) result cursor.new }
    ensures low { IfOk result (λ read. read.height ≡ 0) }
{
    let start = cursor.start();
    cursor.skip();
    let end = cursor.expect(Punctuator::Semicolon)?;
    Ok(node::continued(alloc, start, end)?)
}

/// `break`, `continue`, an expression or `;`, in a loop's body.
fn jump_or(alloc: Global, cursor: &mut Cursor<'_, '_>, depth: u32) -> Result<StatementRead, Stop>
    ensures answers { Answers (spec.last depth InLoop cursor.old) result cursor.new }
    ensures low { IfOk result (λ read. read.height ≤ depth) }
{
    if cursor.sees_keyword(Keyword::Break) {
        return broken(alloc, cursor);
    }
    if cursor.sees_keyword(Keyword::Continue) {
        return continued(alloc, cursor);
    }
    simple(alloc, cursor, depth)
}

/// An expression or `;`, and in a loop's body `break` or `continue`.
pub fn last(
    alloc: Global,
    cursor: &mut Cursor<'_, '_>,
    depth: u32,
    in_loop: bool,
) -> Result<StatementRead, Stop>
    ensures answers { Answers (spec.last depth (spec.placed in_loop) cursor.old) result cursor.new }
    ensures low { IfOk result (λ read. read.height ≤ depth) }
{
    if in_loop {
        return jump_or(alloc, cursor, depth);
    }
    simple(alloc, cursor, depth)
}
