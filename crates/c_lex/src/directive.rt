//! The one directive line.

ghost use Rattle.std.specs.Prelude.{◌≡◌, ◌<◌, ◌≤◌, length, slice_index};
ghost use Rattle.c_lex.specs.Directive as spec;
ghost use Rattle.c_lex.specs.Scan.Reading as spec_reading;

use crate::bytes::{Kind, byte, run};
use crate::fault::Fault;
use crate::reading::{Line, Reading};
use c_ast::Lexeme;

fn after_blanks(text: &[u8]) -> &[u8]
    ensures { result.now ≡ spec.after_blanks text.now }
{
    &text[run(Kind::Blank, text)..]
}

fn ends_line(text: &[u8]) -> bool
    ensures { result ≡ spec.ends_line text.now }
{
    let left = after_blanks(text);
    let end = if byte(left, 0) == b'\r' {
        &left[1..]
    } else {
        left
    };
    end.is_empty() || end[0] == b'\n'
}

/// How many bytes the directive has, where its line begins with the `#` at the front.
fn include_bytes(text: &[u8]) -> Option<usize>
    requires some { 0 < length text.now }
    requires hash { slice_index text.now 0 ≡ 35 }
    ensures { result ≡ spec.include_line text.now }
{
    let word = after_blanks(&text[1..]);
    if !word.starts_with(b"include") {
        return None;
    }
    let header = after_blanks(&word[7..]);
    if !header.starts_with(b"<stdio.h>") {
        return None;
    }
    let behind = &header[9..];
    if ends_line(behind) {
        Some(text.len() - behind.len())
    } else {
        None
    }
}

#[tactic(auto, unfolding(crate::specs::Scan::Reading::read_directive))]
/// The directive whose `#` stands at the front of a text.
pub fn read_directive(line: Line, text: &[u8]) -> Reading
    requires some { 0 < length text.now }
    requires hash { slice_index text.now 0 ≡ 35 }
    ensures { result ≡ spec_reading.read_directive line text.now }
{
    match line {
        Line::Used => Reading::Fault(Fault::BadByte, 0),
        Line::Spaced => Reading::Fault(Fault::BadDirective, 0),
        Line::Clear => match include_bytes(text) {
            Some(bytes) => Reading::Token(Lexeme::Include, bytes),
            None => Reading::Fault(Fault::BadDirective, 0),
        },
    }
}
