//! Compares rows of frames with what the code that tags them does on the machine. A row is
//!
//!     "SOURCE" TAG CALLS => STATE / STATE ..     what stands after each call but `at`, by a processor
//!     "SOURCE" TAG CALLS => words                asks for the bytes of the frame and the words of each call's list
//!
//! SOURCE is a C source with one function, TAG the tag that is drawn, a hexadecimal digit, and a call is one of
//!
//!     entry    enter:SLOT    leave:FIRST:LAST    at:SLOT:REGISTER    exit
//!
//! with numbers of slots in order of declaration. What a state says is told in `told.rt`, and the memory in `running.rt`.
//! `tools/plan-vectors/make.py` makes the rows.
#![tactic(auto)]

mod answers;
mod calls;
mod code;
mod frames;
mod running;
mod told;

use std::io;
use test_rows::{Row, Tally};

fn main(rt: HostRuntime) -> io::Result<()> {
    let mut tally = Tally::new();
    for line in rt.lines(rt.alloc()) {
        let line = line?;
        if let Some(row) = Row::of(line.as_str()) {
            let found = answers::answer(rt.alloc(), row)?;
            if tally.differs(row.answer, found.as_str()) {
                println!(rt; "{}: {found}, not {}", row.question, row.answer)?;
            }
        }
    }
    println!(rt; "{tally}")
}
