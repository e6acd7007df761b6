//! Characters and strings.

ghost use Rattle.std.specs.Prelude.{◌≡◌, ◌<◌, ◌+◌, ◌^◌, length, IfOk};
ghost use Rattle.c_lex.specs.Scan.Reading as spec;

use crate::escape::{Item, item_at};
use crate::fault::Fault;
use crate::reading::Reading;
use c_ast::{Bytes, Lexeme};
use std::alloc::{AllocError, Global};

/// The end of a character: what stands at the place of its closing quote.
fn closing_quote(value: u8, place: usize, rest: &[u8]) -> Reading
    requires { place + 1 < 2 ^ 64 }
    ensures { result ≡ spec.closing_quote value place rest.now }
{
    match rest {
        [] | [b'\n', ..] => Reading::Fault(Fault::UnclosedText, 0),
        [b'\'', ..] => Reading::Token(Lexeme::Character(value), place + 1),
        _ => Reading::Fault(Fault::BadByte, place),
    }
}

#[tactic(auto, unfolding(crate::specs::Scan::Reading::read_character))]
/// The character at the front of a text that begins with its quote.
pub fn read_character(text: &[u8]) -> Reading
    requires { 0 < length text.now }
    ensures { result ≡ spec.read_character text.now }
{
    match item_at(b'\'', &text[1..]) {
        Item::Byte(value, bytes) => closing_quote(value, 1 + bytes, &text[1 + bytes..]),
        Item::Close => Reading::Fault(Fault::BadByte, 1),
        Item::Wrong(fault) => Reading::Fault(fault, 1),
        Item::Cut => Reading::Fault(Fault::UnclosedText, 0),
    }
}

#[tactic(auto, unfolding(crate::specs::Scan::Reading::read_text))]
/// The string at the front of a text that begins with its quote.
pub fn read_text(alloc: Global, text: &[u8]) -> Result<Reading, AllocError>
    requires { 0 < length text.now }
    ensures { IfOk result (λ reading. reading ≡ spec.read_text text.now) }
{
    let mut values = Vec::new(alloc);
    let mut place = 1;
    loop {
        match item_at(b'"', &text[place..]) {
            Item::Byte(value, bytes) => {
                values.push(value)?;
                place += bytes;
            }
            Item::Close => {
                return Ok(Reading::Token(Lexeme::Text(Bytes::from_vec(values)), place + 1));
            }
            Item::Wrong(fault) => return Ok(Reading::Fault(fault, place)),
            Item::Cut => return Ok(Reading::Fault(Fault::UnclosedText, 0)),
        }
    }
}
