//! The words with which statements begin.

ghost use Rattle.std.specs.Prelude.{◌≡◌};
ghost use Rattle.c_parse_base.specs.Reading.Answer.{sees};
ghost use Rattle.c_parse_stmt.specs.Reading.Statements as spec;

use c_ast::{Keyword, Punctuator};
use c_parse_base::{Cursor, begins_type};
use c_parse_expr::begins_expression;

/// Whether a statement that is no expression, `;`, `break` or `continue` begins here.
#[tactic(auto, using(crate::specs::Laws::WordCode::first_words_are))]
fn begins_first(cursor: &Cursor<'_, '_>) -> bool
    ensures { result ≡ sees spec.begins_first_statement cursor.now }
{
    cursor.sees(Punctuator::LeftBrace)
        || cursor.sees_keyword(Keyword::If)
        || cursor.sees_keyword(Keyword::While)
        || cursor.sees_keyword(Keyword::Do)
        || cursor.sees_keyword(Keyword::For)
        || cursor.sees_keyword(Keyword::Return)
}

/// Whether a `break` or `continue` begins here.
#[tactic(auto, using(crate::specs::Laws::WordCode::jump_words_are))]
fn begins_jump(cursor: &Cursor<'_, '_>) -> bool
    ensures { result ≡ sees spec.begins_jump cursor.now }
{
    cursor.sees_keyword(Keyword::Break) || cursor.sees_keyword(Keyword::Continue)
}

/// Whether an expression, `;`, `break` or `continue` begins here.
#[tactic(auto, using(crate::specs::Laws::WordCode::last_in_loop, crate::specs::Laws::WordCode::last_outside))]
fn begins_last(cursor: &Cursor<'_, '_>, in_loop: bool) -> bool
    ensures { result ≡ sees (spec.begins_last (spec.placed in_loop)) cursor.now }
{
    if in_loop && begins_jump(cursor) {
        return true;
    }
    cursor.sees(Punctuator::Semicolon) || begins_expression(cursor)
}

/// Whether a part of a block begins here (C11 6.8.2).
#[tactic(auto, using(crate::specs::Laws::WordCode::item_is))]
pub fn begins_item(cursor: &Cursor<'_, '_>, in_loop: bool) -> bool
    ensures { result ≡ sees (spec.begins_item (spec.placed in_loop)) cursor.now }
{
    begins_type(cursor) || begins_first(cursor) || begins_last(cursor, in_loop)
}
