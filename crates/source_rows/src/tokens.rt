// The tokens of a text, as rows write them.
use c_ast::{IntType, Lexeme, Token};
use c_lex::{LexRefusal, lex};
use std::alloc::{AllocError, Global};

/// The tokens of a text, or its fault.
pub fn tokens_of(alloc: Global, text: &[u8]) -> Result<String, AllocError> {
    match lex(alloc, text) {
        Ok(tokens) => tokens_shown(alloc, &tokens),
        Err(refusal) => fault_shown(alloc, refusal),
    }
}

/// A fault of the lexer: its number, its name and its byte.
pub fn fault_shown(alloc: Global, refusal: LexRefusal) -> Result<String, AllocError> {
    let number = refusal.number();
    match refusal {
        LexRefusal::TextTooLong | LexRefusal::NoMemory => format!(in alloc; "{number} {refusal}"),
        _ => format!(in alloc; "{number} {refusal} {}", refusal.place()),
    }
}

/// Each token by the number of its first byte, its bytes and what it is.
fn tokens_shown(alloc: Global, tokens: &[Token]) -> Result<String, AllocError> {
    let mut all = String::new(alloc);
    for token in tokens {
        let kind = kind_shown(alloc, &token.kind)?;
        let one = format!(in alloc; "{}+{}:{kind} ", token.start, token.text.len())?;
        all.push_str(&one)?;
    }
    String::from_str(alloc, all.as_str().trim_end())
}

/// Lexemes, without places.
pub fn lexemes_shown(alloc: Global, lexemes: &[Lexeme]) -> Result<String, AllocError> {
    let mut all = String::new(alloc);
    for lexeme in lexemes {
        let kind = kind_shown(alloc, lexeme)?;
        all.push_str(&kind)?;
        all.push_str(" ")?;
    }
    String::from_str(alloc, all.as_str().trim_end())
}

/// What a token is: a name by `n`, a keyword by `k` and a punctuator by `p` with its number, a number with its type, a
/// character by `c` and a text by `t` with its bytes.
fn kind_shown(alloc: Global, kind: &Lexeme) -> Result<String, AllocError> {
    match kind {
        Lexeme::Include => format!(in alloc; "#"),
        Lexeme::Name(_) => format!(in alloc; "n"),
        Lexeme::Number(value, ty) => format!(in alloc; "{value}{}", type_name(*ty)),
        Lexeme::Character(value) => format!(in alloc; "c{value}"),
        Lexeme::Text(bytes) => format!(in alloc; "t{:?}", bytes.as_slice()),
        Lexeme::Keyword(number) => format!(in alloc; "k{number}"),
        Lexeme::Punct(number) => format!(in alloc; "p{number}"),
    }
}

/// The name of a number's type.
fn type_name(ty: IntType) -> &'static str {
    match ty {
        IntType::Int => "int",
        IntType::UInt => "uint",
        IntType::Long => "long",
        IntType::ULong => "ulong",
        _ => "other",
    }
}
