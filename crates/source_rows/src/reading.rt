// What becomes of a text, as rows write it.
use crate::shape::Shape;
use crate::tokens::{fault_shown, lexemes_shown};
use c_ast::{Lexeme, Program, Token, copy};
use c_lex::lex;
use c_parse::{ParseRefusal, parse};
use c_print::print;
use std::alloc::{AllocError, Global};

/// A text has no more tokens than bytes, and these are few.
const MOST_TOKENS: usize = 65_536;

/// What became of a text: its program, or the line that says why it has none.
enum Found {
    Program(Program),
    Refused(String),
}

fn read(alloc: Global, text: &[u8]) -> Result<Found, AllocError> {
    let tokens = match lex(alloc, text) {
        Ok(tokens) => tokens,
        Err(refusal) => return Ok(Found::Refused(fault_shown(alloc, refusal)?)),
    };
    let tokens = tokens.as_slice();
    if tokens.len() > MOST_TOKENS {
        return Ok(Found::Refused(String::from_str(alloc, "too many tokens")?));
    }
    match parse(alloc, tokens) {
        Ok(program) => Ok(Found::Program(program)),
        Err(refusal) => Ok(Found::Refused(refused(alloc, text, tokens, &refusal)?)),
    }
}

/// A refusal of the parser, with the byte of its token, or the text's end.
fn refused(
    alloc: Global,
    text: &[u8],
    tokens: &[Token<'_>],
    refusal: &ParseRefusal,
) -> Result<String, AllocError> {
    match refusal {
        ParseRefusal::NoMemory => String::from_str(alloc, "NoMemory"),
        _ => format!(in alloc; "{refusal} {}", byte_of(text, tokens, refusal.place())),
    }
}

fn byte_of(text: &[u8], tokens: &[Token<'_>], place: u32) -> usize {
    match tokens.get(place as usize) {
        Some(token) => token.start as usize,
        None => text.len(),
    }
}

/// `ok` where a text is a program, or its refusal.
pub fn outcome(alloc: Global, text: &[u8]) -> Result<String, AllocError> {
    match read(alloc, text)? {
        Found::Program(_) => String::from_str(alloc, "ok"),
        Found::Refused(line) => Ok(line),
    }
}

fn shape_of(alloc: Global, program: &Program, spans: bool) -> Result<String, AllocError> {
    let mut shape = Shape::new(alloc, spans);
    shape.program(program);
    shape.told()
}

/// The tree of a text with its spans.
pub fn spans_of(alloc: Global, text: &[u8]) -> Result<String, AllocError> {
    match read(alloc, text)? {
        Found::Program(program) => shape_of(alloc, &program, true),
        Found::Refused(line) => Ok(line),
    }
}

/// The tree of a text. Where it is another when it is printed and read again, or copied, that is told.
pub fn tree_of(alloc: Global, text: &[u8]) -> Result<String, AllocError> {
    match read(alloc, text)? {
        Found::Program(program) => checked_tree(alloc, &program),
        Found::Refused(line) => Ok(line),
    }
}

fn checked_tree(alloc: Global, program: &Program) -> Result<String, AllocError> {
    let tree = shape_of(alloc, program, false)?;
    let again = printed_tree(alloc, program)?;
    if again.as_str() != tree.as_str() {
        return format!(in alloc; "{tree}, printed {again}");
    }
    let copied = shape_of(alloc, &copy(alloc, program)?, true)?;
    let spans = shape_of(alloc, program, true)?;
    if copied.as_str() != spans.as_str() {
        return format!(in alloc; "{spans}, copied {copied}");
    }
    Ok(tree)
}

/// Tokens with these lexemes, without places.
fn placeless(alloc: Global, lexemes: Vec<Lexeme>) -> Result<Vec<Token<'static>>, AllocError> {
    let mut tokens = Vec::new(alloc);
    for kind in lexemes {
        tokens.push(Token {
            kind,
            text: b"",
            start: 0,
        })?;
    }
    Ok(tokens)
}

/// The tree of what a program is printed as.
fn printed_tree(alloc: Global, program: &Program) -> Result<String, AllocError> {
    let printed = placeless(alloc, print(alloc, program)?)?;
    let printed = printed.as_slice();
    if printed.len() > MOST_TOKENS {
        return String::from_str(alloc, "too many lexemes");
    }
    match parse(alloc, printed) {
        Ok(program) => shape_of(alloc, &program, false),
        Err(refusal) => refused(alloc, b"", printed, &refusal),
    }
}

/// The number of lexemes that the program of a text is printed as.
pub fn printed_size(alloc: Global, text: &[u8]) -> Result<String, AllocError> {
    match read(alloc, text)? {
        Found::Program(program) => format!(in alloc; "{}", print(alloc, &program)?.len()),
        Found::Refused(line) => Ok(line),
    }
}

/// The lexemes that the program of a text is printed as.
pub fn printed(alloc: Global, text: &[u8]) -> Result<String, AllocError> {
    match read(alloc, text)? {
        Found::Program(program) => lexemes_shown(alloc, &print(alloc, &program)?),
        Found::Refused(line) => Ok(line),
    }
}
