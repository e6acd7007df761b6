//! Whether an expression begins.

ghost use Rattle.std.specs.Prelude.{◌≡◌};
ghost use Rattle.c_parse_base.specs.Reading.Answer.{sees};
ghost use Rattle.c_parse_expr.specs.Reading.Expressions as spec;
ghost use Rattle.c_parse_expr.specs.Reading.Levels.{begins};
ghost use Rattle.c_parse_expr.specs.Laws.WordCode.{plain_kind};
ghost use Rattle.c_parse_base.specs.Reading.Words.{among};

use crate::prefix::{next_step, next_unary};
use c_ast::{Keyword, Lexeme, Punctuator};
use c_parse_base::Cursor;

/// Whether a lexeme is a name, a constant or a text.
fn is_plain(kind: &Lexeme) -> bool
    ensures { result ≡ plain_kind kind.now }
{
    matches!(
        kind,
        Lexeme::Name(_) | Lexeme::Number(_, _) | Lexeme::Character(_) | Lexeme::Text(_)
    )
}

/// Whether a name, a constant or a text comes next.
#[tactic(auto, using(crate::specs::Laws::WordCode::plain_next, crate::specs::Laws::WordCode::plain_end))]
fn begins_plain(cursor: &Cursor<'_, '_>) -> bool
    ensures { result ≡ sees (among spec.plain_words) cursor.now }
{
    match cursor.peek() {
        Some(token) => is_plain(&token.kind),
        None => false,
    }
}

/// Whether an operand begins that is no cast and has no `(` before it.
#[tactic(auto, using(crate::specs::Laws::WordCode::bare_seen))]
pub fn begins_bare(cursor: &Cursor<'_, '_>) -> bool
    ensures { result ≡ sees spec.begins_bare cursor.now }
{
    next_step(cursor).is_some()
        || next_unary(cursor).is_some()
        || cursor.sees_keyword(Keyword::Sizeof)
        || begins_plain(cursor)
}

/// Whether an expression begins with the next token (C11 6.5).
#[tactic(auto, using(crate::specs::Laws::WordCode::first_seen))]
pub fn begins_expression(cursor: &Cursor<'_, '_>) -> bool
    ensures { result ≡ sees begins cursor.now }
{
    cursor.sees(Punctuator::LeftParen) || begins_bare(cursor)
}
