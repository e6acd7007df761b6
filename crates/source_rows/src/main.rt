//! Compares rows of C texts with what the lexer, the parser, the printer and the copy make of them. A row is one of these:
//!
//!     tokens "TEXT" => TOKENS    the tokens, each by its first byte, its count of bytes and what it is
//!     tree "TEXT" => TREE        the tree; printed and read again, and copied, it has to be the same
//!     spans "TEXT" => TREE       the tree with the bytes that each node stands in
//!     printed "TEXT" => LEXEMES  what the program is printed as, and size "TEXT" => N how many lexemes that are
//!     word "TEXT" => WORD        the keyword or punctuator, and named N => WORD, WORD those of a number
//!     text "TEXT" => N           the number of bytes of a text, which the next rows cut and change
//!     cut N => ANSWER            `ok` where its first N bytes are a program, and else its refusal
//!     change N+M "TEXT" => ANSWER   the same of the text with TEXT in the place of M bytes from N on
//!
//! A refusal is a fault of the lexer with its number, or the parser's, and the byte at which it stands. Numbers are decimal.
//! `unquoted` of `test_rows` says how texts are written. `tools/source-rows/make.py` makes and compares the rows.
#![tactic(auto)]

mod answers;
mod reading;
mod shape;
mod tokens;
mod words;

use answers::answer;
use std::io;
use test_rows::{Row, Tally};

fn main(rt: HostRuntime) -> io::Result<()> {
    let mut tally = Tally::new();
    let mut text = Vec::new(rt.alloc());
    for line in rt.lines(rt.alloc()) {
        let line = line?;
        if let Some(row) = Row::of(line.as_str()) {
            let found = answer(rt.alloc(), &mut text, row.question)?;
            if tally.differs(row.answer, found.as_str()) {
                println!(rt; "{}: {found}, not {}", row.question, row.answer)?;
            }
        }
    }
    println!(rt; "{tally}")
}
