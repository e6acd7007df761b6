//! The tokens of a text.

ghost use Rattle.std.specs.Prelude.{◌≡◌, ◌<◌, ◌≤◌, ◌↔◌, ◌⊎◌, ℕ, List, length, IfOk, IfErr, IsErrOf, IsErrAnd, MatchResult, All};
ghost use Rattle.c_ast.specs.Seen.{Seen, all_seen};
ghost use Rattle.c_lex.specs.declared.fault.Fault.{Fault};
ghost use Rattle.c_lex.specs.Refusal.{refusal_of, text_limit, IsCause};
ghost use Rattle.c_lex.specs.Tokens.{Tokens, IsInText, FirstFault, IsReadOneWay};

use crate::fault::LexRefusal;
use crate::reading::{Line, Reading, read};
use c_ast::Token;
use std::alloc::Global;

/// The greatest number of bytes of a text.
const TEXT_LIMIT: usize = 65536;

/// Each text is read in one way: it has tokens or a first fault, never both, and one of each at most.
pub fn reads_one_way()
    ensures { (text : List ℕ) → IsReadOneWay text }
{}

/// Each token of a text is a slice of it from its start on, and a number has one of four types and is in its range.
pub fn tokens_are_in_text()
    ensures { (text : List ℕ) (tokens : List Seen) → Tokens text tokens → All (IsInText text) tokens }
{}

/// The tokens of a text, where it is within the limit.
fn lex_within<'a>(alloc: Global, text: &'a [u8]) -> Result<Vec<Token<'a>>, LexRefusal>
    requires { length text.now ≤ text_limit }
    ensures tokens { IfOk result (λ tokens. Tokens text.now (all_seen tokens.items)) }
    ensures refused { IfErr result (IsCause text.now) }
    ensures short { IsErrOf result LexRefusal.TextTooLong → ⊥ }
{
    let mut tokens = Vec::new(alloc);
    let mut place = 0;
    let mut line = Line::Clear;
    while place < text.len() {
        let rest = &text[place..];
        let Ok(reading) = read(alloc, line, rest) else {
            return Err(LexRefusal::NoMemory);
        };
        match reading {
            Reading::Gap(bytes) => {
                line = line.behind(rest[0]);
                place += bytes;
            }
            Reading::Token(kind, bytes) => {
                let token = Token {
                    kind,
                    text: &rest[..bytes],
                    start: place as u32,
                };
                let Ok(()) = tokens.push(token) else {
                    return Err(LexRefusal::NoMemory);
                };
                line = Line::Used;
                place += bytes;
            }
            Reading::Fault(fault, offset) => {
                return Err(fault.refusal((place + offset) as u32));
            }
        }
    }
    Ok(tokens)
}

/// The tokens of a text of at most 65,536 bytes, each with its slice of the text, or the text's first fault.
///
/// Only want of memory has no cause in the text.
pub fn lex<'a>(alloc: Global, text: &'a [u8]) -> Result<Vec<Token<'a>>, LexRefusal>
    ensures tokens { IfOk result (λ tokens. Tokens text.now (all_seen tokens.items)) }
    ensures refused { IfErr result (IsCause text.now) }
    ensures too_long { IsErrOf result LexRefusal.TextTooLong ↔ (text_limit < length text.now) }

    // Want of memory aside, the tokens and the first fault of a text within the limit are answered.
    ensures all_tokens { (tokens : List Seen) → Tokens text.now tokens → length text.now ≤ text_limit →
        MatchResult result (λ found. all_seen found.items ≡ tokens) (λ e. e ≡ LexRefusal.NoMemory) }
    ensures first_fault { (what : Fault) (at : ℕ) → FirstFault text.now what at → length text.now ≤ text_limit →
        IsErrAnd result (λ e. (e ≡ refusal_of what at) ⊎ (e ≡ LexRefusal.NoMemory)) }
{
    if text.len() > TEXT_LIMIT {
        return Err(LexRefusal::TextTooLong);
    }
    lex_within(alloc, text)
}
