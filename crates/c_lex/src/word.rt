//! Names, keywords and punctuators.

ghost use Rattle.std.specs.Prelude.{◌≡◌, ◌≤◌, length, IfOk};
ghost use Rattle.c_lex.specs.Scan.Reading as spec;
ghost use Rattle.c_lex.specs.Scan.Words.{is_second_of_punctuator};

use crate::bytes::{Kind, byte, run};
use crate::fault::Fault;
use crate::reading::Reading;
use c_ast::{Lexeme, Name, keyword_of, punctuator_of};
use std::alloc::{AllocError, Global};

#[tactic(auto, unfolding(crate::specs::Scan::Reading::read_word))]
/// The name or keyword at the front of a text.
pub fn read_word(alloc: Global, text: &[u8]) -> Result<Reading, AllocError>
    ensures { IfOk result (λ reading. reading ≡ spec.read_word text.now) }
{
    let bytes = run(Kind::Word, text);
    let word = &text[..bytes];
    match keyword_of(word) {
        Some(number) => Ok(Reading::Token(Lexeme::Keyword(number), bytes)),
        None => {
            let name = Name::from_slice(alloc, word)?;
            Ok(Reading::Token(Lexeme::Name(name), bytes))
        }
    }
}

fn punctuator_at(bytes: usize, text: &[u8]) -> Option<u8>
    ensures { result ≡ spec.punctuator_at bytes text.now }
{
    if bytes <= text.len() {
        punctuator_of(&text[..bytes])
    } else {
        None
    }
}

/// Whether a byte stands second in some punctuator.
fn is_second_of_punctuator(b: u8) -> bool
    ensures { result ≡ is_second_of_punctuator b }
{
    b == b'=' || b == b'+' || b == b'-' || b == b'<' || b == b'>' || b == b'&' || b == b'|'
}

fn read_single(text: &[u8]) -> Reading
    ensures { result ≡ spec.read_single text.now }
{
    match punctuator_at(1, text) {
        Some(number) => Reading::Token(Lexeme::Punct(number), 1),
        None => Reading::Fault(Fault::BadByte, 0),
    }
}

#[tactic(auto, unfolding(crate::specs::Scan::Reading::read_punctuator))]
fn read_longest(text: &[u8]) -> Reading
    ensures { result ≡ spec.read_punctuator text.now }
{
    if let Some(number) = punctuator_at(3, text) {
        return Reading::Token(Lexeme::Punct(number), 3);
    }
    match punctuator_at(2, text) {
        Some(number) => Reading::Token(Lexeme::Punct(number), 2),
        None => read_single(text),
    }
}

/// The longest punctuator at the front of a text.
pub fn read_punctuator(text: &[u8]) -> Reading
    ensures { result ≡ spec.read_punctuator text.now }
{
    if is_second_of_punctuator(byte(text, 1)) {
        read_longest(text)
    } else {
        read_single(text)
    }
}
