//! Which external declaration comes next.

ghost use Rattle.std.specs.Prelude.{◌≡◌};
ghost use Rattle.c_parse_base.specs.Reading.Answer.{sees};
ghost use Rattle.c_parse_base.specs.Reading.Answers.{next_value};
ghost use Rattle.c_grammar.specs.Words.{word_of};
ghost use Rattle.c_parse.specs.Reading.Externals as spec;

use c_ast::{Keyword, Lexeme, Storage};
use c_parse_base::{Cursor, begins_type};

/// The storage class that comes next, if one does (C11 6.7.1).
#[tactic(auto, using(crate::specs::Laws::Code::storage_static, crate::specs::Laws::Code::storage_extern, crate::specs::Laws::Code::storage_none))]
pub fn next_storage(cursor: &Cursor<'_, '_>) -> Option<Storage>
    ensures { result ≡ next_value (λ t. spec.storage_at (word_of t)) cursor.now }
{
    if cursor.sees_keyword(Keyword::Static) {
        return Some(Storage::Static);
    }
    if cursor.sees_keyword(Keyword::Extern) {
        return Some(Storage::Extern);
    }
    None
}

/// Whether the line `#include <stdio.h>` comes next.
pub fn sees_include(cursor: &Cursor<'_, '_>) -> bool
    ensures { result ≡ sees spec.is_include cursor.now }
{
    match cursor.peek() {
        Some(token) => matches!(token.kind, Lexeme::Include),
        None => false,
    }
}

/// Whether the next token begins a declaration.
pub fn begins_declaration(cursor: &Cursor<'_, '_>) -> bool
    ensures { result ≡ sees spec.begins_declaration cursor.now }
{
    next_storage(cursor).is_some() || begins_type(cursor)
}

/// Whether the next token begins an external declaration.
pub fn begins_external(cursor: &Cursor<'_, '_>) -> bool
    ensures { result ≡ sees spec.begins_external cursor.now }
{
    begins_declaration(cursor) || sees_include(cursor)
}
