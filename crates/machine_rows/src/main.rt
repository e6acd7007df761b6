//! Compares rows of machine code with what the machine makes of them. Numbers are in hexadecimal. A row is one of these:
//!
//!     WORD WORD .. | before => END after      the words stand at `CODE`, with what is said before them
//!     memory ACCESS, ACCESS .. => ANSWER ..   accesses to the same memory, one after another
//!     holds NZCV => MASK                      the conditions that hold at flags, the lowest bit for condition 0
//!     not32 V => V, not64 V => V              the complement at a width
//!
//! The words are followed by code that puts out what the answer asks for, and exits with 0. What may stand before and after
//! is said in `before.rt` and `after.rt`, the accesses in `accesses.rt`, and the memory in `layout.rt`. Each row runs by
//! `run` at once, by `run` in pieces, and by `step`, and these have to agree. `tools/step-vectors/make.py` makes the rows
//! that a processor can tell.
#![tactic(auto)]

mod accesses;
mod after;
mod arithmetic;
mod before;
mod code;
mod layout;
mod running;
mod told;

use std::alloc::{AllocError, Global};
use std::io;
use test_rows::{Row, Tally};

fn main(rt: HostRuntime) -> io::Result<()> {
    let mut tally = Tally::new();
    for line in rt.lines(rt.alloc()) {
        let line = line?;
        if let Some(row) = Row::of(line.as_str()) {
            let found = answer(rt.alloc(), row)?;
            if tally.differs(row.answer, found.as_str()) {
                println!(rt; "{}: {found}, not {}", row.question, row.answer)?;
            }
        }
    }
    println!(rt; "{tally}")
}

/// The answer to a row's question.
fn answer(alloc: Global, row: Row) -> Result<String, AllocError> {
    let (name, rest) = match row.question.split_once(' ') {
        Some((name, rest)) => (name, rest),
        None => ("", ""),
    };
    match name {
        "memory" => accesses::answer(alloc, rest),
        "holds" => arithmetic::holding(alloc, rest),
        "not32" => arithmetic::complement(alloc, false, rest),
        "not64" => arithmetic::complement(alloc, true, rest),
        _ => running::answer(alloc, row),
    }
}
