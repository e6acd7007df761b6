//! One byte of a character or a string, as it is written.

ghost use Rattle.std.specs.Prelude.{ℕ, ◌≡◌, ◌+◌, ◌<◌, ◌≤◌, ◌^◌, length};
ghost use Rattle.std.specs.Option.{SomeIff};
ghost use Rattle.c_lex.specs.Escape as spec;
ghost use Rattle.c_lex.specs.Scan.Escape as scan;
ghost use Rattle.c_lex.specs.Scan.Words.{ItemFits};

use crate::bytes::byte;
use crate::digits::{digit_count, value_of};
use crate::fault::Fault;

/// What stands at a place between quotes.
#[derive(Clone, Copy)]
pub enum Item {
    /// A byte by its value, and how many bytes write it.
    Byte(u8, usize),
    /// The closing quote.
    Close,
    /// Something that may not stand there.
    Wrong(Fault),
    /// A newline or the end, there or within the escape that begins there.
    Cut,
}

fn simple_escape(b: u8) -> Option<u8>
    ensures { result ≡ spec.simple_escape b }
{
    match b {
        b'a' => Some(7),
        b'b' => Some(8),
        b'f' => Some(12),
        b'n' => Some(10),
        b'r' => Some(13),
        b't' => Some(9),
        b'v' => Some(11),
        b'\\' | b'\'' | b'"' | b'?' => Some(b),
        _ => None,
    }
}

fn numeric_escape(value: Option<u64>, bytes: usize) -> Item
    ensures { (n : ℕ) → SomeIff value (n < 2 ^ 64) n → result ≡ scan.numeric_escape n bytes }
{
    match value {
        Some(value) if value <= 255 => Item::Byte(value as u8, bytes),
        _ => Item::Wrong(Fault::NumberTooLarge),
    }
}

fn octal_count(rest: &[u8]) -> usize
    ensures value { result ≡ scan.octal_count rest.now }
    ensures within { result ≤ length rest.now }
{
    digit_count(8, rest).min(3)
}

/// Where the next byte of an escape is missing: a newline or the end cuts it off, and another byte makes it wrong.
fn no_escape(rest: &[u8]) -> Item
    ensures { result ≡ scan.no_escape rest.now }
{
    match rest {
        [] | [b'\n', ..] => Item::Cut,
        _ => Item::Wrong(Fault::BadByte),
    }
}

fn hex_digits(rest: &[u8]) -> Item
    ensures { result ≡ scan.hex_digits rest.now }
{
    let count = digit_count(16, rest);
    if count == 0 {
        return no_escape(rest);
    }
    numeric_escape(value_of(16, &rest[..count]), 2 + count)
}

fn hexadecimal_escape(rest: &[u8]) -> Item
    ensures { result ≡ scan.hexadecimal_escape rest.now }
{
    if byte(rest, 0) != b'x' {
        return no_escape(rest);
    }
    hex_digits(&rest[1..])
}

fn digits_escape(rest: &[u8]) -> Item
    ensures { result ≡ scan.digits_escape rest.now }
{
    let count = octal_count(rest);
    if count == 0 {
        return hexadecimal_escape(rest);
    }
    numeric_escape(value_of(8, &rest[..count]), 1 + count)
}

#[tactic(auto, using(crate::specs::Laws::EscapeLaws::escape_fits), unfolding(crate::specs::Scan::Escape::escape))]
/// The escape whose backslash stands before the text.
fn escape(rest: &[u8]) -> Item
    ensures value { result ≡ scan.escape rest.now }
    ensures within { ItemFits result (1 + length rest.now) }
{
    match simple_escape(byte(rest, 0)) {
        Some(value) => Item::Byte(value, 2),
        None => digits_escape(rest),
    }
}

fn is_plain(quote: u8, b: u8) -> bool
    ensures { result ≡ spec.is_plain quote b }
{
    (32 <= b && b <= 126) || (quote == b'"' && 128 <= b)
}

#[tactic(auto, using(crate::specs::Laws::EscapeLaws::item_fits), unfolding(crate::specs::Scan::Escape::item_at))]
/// What stands at the front, between quotes of this kind.
pub fn item_at(quote: u8, text: &[u8]) -> Item
    ensures value { result ≡ scan.item_at quote text.now }
    ensures within { ItemFits result (length text.now) }
{
    match text {
        [] => Item::Cut,
        [b, rest @ ..] => match *b {
            b'\n' => Item::Cut,
            b if b == quote => Item::Close,
            b'\\' => escape(rest),
            b if is_plain(quote, b) => Item::Byte(b, 1),
            _ => Item::Wrong(Fault::BadByte),
        },
    }
}
