//! Compares rows of images with what their code finds in memory at the start, by the rules of docs/FILES.md. A row is
//!
//!     TAGS BYTES => OUTPUT       the random tags of the run, a hexadecimal digit each, an image file, and what its code puts out
//!     TAGS BYTES => NAME PLACE   the same, and why the image does not start
//!
//! BYTES are hexadecimal numbers of two digits, and `@N`, zeros up to place N. OUTPUT is in hexadecimal, two digits a byte.
//! `tools/start_rows.py` makes the rows.
#![tactic(auto)]

mod bytes;
mod starting;

use std::io;
use test_rows::{Row, Tally};

fn main(rt: HostRuntime) -> io::Result<()> {
    let mut tally = Tally::new();
    for line in rt.lines(rt.alloc()) {
        let line = line?;
        if let Some(row) = Row::of(line.as_str()) {
            let found = starting::answer(rt.alloc(), row.question)?;
            if tally.differs(row.answer, found.as_str()) {
                println!(rt; "{}: {found}, not {}", row.question, row.answer)?;
            }
        }
    }
    println!(rt; "{tally}")
}
