//! Tokens, and where they stand in a text.

use crate::int_type::IntType;
use crate::names::{Bytes, Name};

/// A part of a text, by the numbers of its first byte and of the byte after its last one.
#[derive(Clone, Copy, Debug, PartialEq, Eq)]
pub struct Span {
    pub start: u32,
    pub end: u32,
}

/// What a token is (C11 6.4).
#[derive(Debug, Drop)]
pub enum Lexeme {
    /// The line `#include <stdio.h>`.
    Include,
    /// An identifier that is no keyword.
    Name(Name),
    /// An integer constant: its value and its type, which is int, unsigned int, long or unsigned long.
    Number(u64, IntType),
    /// A character constant, whose type is int.
    Character(u8),
    /// A string literal: its bytes without the final zero, which comes with the object that holds it (C11 6.4.5).
    Text(Bytes),
    /// By its number, see `Keyword`.
    Keyword(u8),
    /// By its number, see `Punctuator`.
    Punct(u8),
}

/// A token of a text, which it borrows.
#[derive(Debug, Drop)]
pub struct Token<'a> {
    pub kind: Lexeme,
    /// The slice of the text that spells the token.
    pub text: &'a [u8],
    /// The number of its first byte in the text, from 0.
    pub start: u32,
}
