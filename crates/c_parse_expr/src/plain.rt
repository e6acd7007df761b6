//! Expressions without others in them: names, constants and texts.

ghost use Rattle.std.specs.Prelude.{◌≡◌, ◌≤◌, IfOk, MatchOption, Some, None};
ghost use Rattle.c_ast.specs.Seen.{seen};
ghost use Rattle.c_parse_base.specs.Reading.Answers.{Answers, next_value};
ghost use Rattle.c_parse_expr.specs.Reading.Expressions as spec;

use crate::measured::Measured;
use crate::node;
use c_ast::{Expr, IntType, Lexeme, Node, Span, Token};
use c_parse_base::{Cursor, Fault, Stop, place_of};
use std::alloc::{AllocError, Global};

/// What a token is that is an expression by itself.
fn constant_node(alloc: Global, kind: &Lexeme) -> Result<Option<Node>, AllocError>
    ensures { IfOk result (λ found. found ≡ spec.constant_node kind.now) }
{
    Ok(match kind {
        Lexeme::Name(name) => Some(Node::Variable(name.copy(alloc)?)),
        Lexeme::Number(value, ty) => Some(Node::Constant(*value, *ty)),
        Lexeme::Character(value) => Some(Node::Constant(u64::from(*value), IntType::Int)),
        _ => None,
    })
}

/// The expression that a token is by itself, if it is one.
fn constant_of(alloc: Global, token: &Token<'_>) -> Result<Option<Measured>, AllocError>
    ensures { IfOk result (λ found. found ≡ spec.pick_constant (seen token.now)) }
{
    let Some(node) = constant_node(alloc, &token.kind)? else {
        return Ok(None);
    };
    Ok(Some(Measured {
        tree: Expr::new(alloc, place_of(token), node)?,
        height: 0,
    }))
}

/// A name, a number or a character.
#[tactic(auto, using(crate::specs::Laws::WordCode::constant_end, crate::specs::Laws::WordCode::constant_other, crate::specs::Laws::WordCode::constant_taken))]
fn constant(alloc: Global, cursor: &mut Cursor<'_, '_>) -> Result<Measured, Stop>
    ensures answers { Answers (spec.constant cursor.old) result cursor.new }
    ensures low { IfOk result (λ read. read.height ≡ 0) }
{
    let Some(token) = cursor.peek() else {
        return Err(Stop::Fault(Fault::Unexpected));
    };
    let Some(read) = constant_of(alloc, token)? else {
        return Err(Stop::Fault(Fault::Unexpected));
    };
    cursor.skip();
    Ok(read)
}

/// The bytes of a text, and where it stands.
#[derive(Clone, Copy)]
struct Quote<'t> {
    bytes: &'t [u8],
    place: Span,
}

/// The text that comes next, if one does.
#[tactic(auto, using(crate::specs::Laws::WordCode::value_at, crate::specs::Laws::WordCode::value_none))]
fn next_text<'s>(cursor: &Cursor<'s, '_>) -> Option<Quote<'s>>
    ensures { MatchOption result (next_value spec.pick_text cursor.now ≡ None) (λ q. next_value spec.pick_text cursor.now ≡ Some (q.bytes.now, q.place)) }
{
    match cursor.peek() {
        Some(token) => match &token.kind {
            Lexeme::Text(bytes) => Some(Quote {
                bytes: bytes.as_slice(),
                place: place_of(token),
            }),
            _ => None,
        },
        None => None,
    }
}

/// Adjacent texts, which are one (C11 5.1.1.2, phase 6).
fn texts(alloc: Global, cursor: &mut Cursor<'_, '_>) -> Result<Measured, Stop>
    ensures answers { Answers (spec.texts cursor.old) result cursor.new }
    ensures low { IfOk result (λ read. read.height ≡ 0) }
{
    let Some(first) = next_text(cursor) else {
        return Err(Stop::Fault(Fault::Unexpected));
    };
    cursor.skip();
    let mut bytes = Vec::from_slice(alloc, first.bytes)?;
    let mut place = first.place;
    while let Some(next) = next_text(cursor) {
        cursor.skip();
        bytes.extend_from_slice(next.bytes)?;
        place = Span {
            start: place.start,
            end: next.place.end,
        };
    }
    Ok(node::text(alloc, place, bytes)?)
}

/// Adjacent texts, a name, a number or a character.
pub fn plain(alloc: Global, cursor: &mut Cursor<'_, '_>) -> Result<Measured, Stop>
    ensures answers { Answers (spec.plain cursor.old) result cursor.new }
    ensures low { IfOk result (λ read. read.height ≡ 0) }
{
    match next_text(cursor) {
        Some(_) => texts(alloc, cursor),
        None => constant(alloc, cursor),
    }
}
