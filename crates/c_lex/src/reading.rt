//! What stands at a place of a text.

ghost use Rattle.std.specs.Prelude.{◌≡◌, ◌<◌, length, slice_index, IfOk};
ghost use Rattle.c_lex.specs.Scan.Reading as spec;
ghost use Rattle.c_lex.specs.Scan.Words.{line_behind};

use crate::bytes::{Kind, is_blank, is_letter, is_white, run};
use crate::directive::read_directive;
use crate::fault::Fault;
use crate::gap::{begins_block_comment, begins_line_comment, block_comment};
use crate::numeral::read_number;
use crate::quoted::{read_character, read_text};
use crate::word::{read_punctuator, read_word};
use c_ast::Lexeme;
use std::alloc::{AllocError, Global};

/// What stands on a line before a place.
#[derive(Clone, Copy)]
pub enum Line {
    /// Spaces and tabs alone, or nothing.
    Clear,
    /// Other white space or a comment, and no token.
    Spaced,
    /// A token.
    Used,
}

/// What stands at a place of a text.
#[derive(Drop)]
pub enum Reading {
    /// White space or a comment of so many bytes.
    Gap(usize),
    /// A token, and its bytes.
    Token(Lexeme, usize),
    /// A fault, and how many bytes behind the place it stands.
    Fault(Fault, usize),
}

impl Line {
    /// What stands on the line behind a gap that begins with this byte.
    pub fn behind(self, b: u8) -> Line
        ensures { result ≡ line_behind self b }
    {
        if b == b'\n' {
            Line::Clear
        } else if is_blank(b) {
            self
        } else {
            match self {
                Line::Used => Line::Used,
                Line::Clear | Line::Spaced => Line::Spaced,
            }
        }
    }
}

#[tactic(auto, unfolding(crate::specs::Scan::Reading::read_token))]
/// The token at the front of a text where no gap begins.
fn read_token(alloc: Global, line: Line, text: &[u8]) -> Result<Reading, AllocError>
    requires { 0 < length text.now }
    ensures { IfOk result (λ reading. reading ≡ spec.read_token line (slice_index text.now 0) text.now) }
{
    match text[0] {
        b if is_letter(b) => read_word(alloc, text),
        b'0'..=b'9' => Ok(read_number(text)),
        b'\'' => Ok(read_character(text)),
        b'"' => read_text(alloc, text),
        b'#' => Ok(read_directive(line, text)),
        _ => Ok(read_punctuator(text)),
    }
}

#[tactic(auto, unfolding(crate::specs::Scan::Reading::read))]
/// What stands at the front of a text, on a line where this stands before it.
pub fn read(alloc: Global, line: Line, text: &[u8]) -> Result<Reading, AllocError>
    requires { 0 < length text.now }
    ensures { IfOk result (λ reading. reading ≡ spec.read line text.now) }
{
    if is_white(text[0]) {
        return Ok(Reading::Gap(1));
    }
    if begins_line_comment(text) {
        return Ok(Reading::Gap(run(Kind::InLine, text)));
    }
    if begins_block_comment(text) {
        return Ok(match block_comment(text) {
            Some(bytes) => Reading::Gap(bytes),
            None => Reading::Fault(Fault::UnclosedComment, 0),
        });
    }
    read_token(alloc, line, text)
}
