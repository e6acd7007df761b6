//! Reads rows from its input, each of them objects and the image of their link by the rules of docs/FILES.md, and prints the rows for
//! which the linker says something else. A row is one of these:
//!
//!     object NAME PART..             from here on there is this object, under this name
//!     link NAME.. => ANSWER          the image of these objects, or why there is none
//!
//! A part is a letter and a word, as `w 94000000,2*d503201f`:
//!
//!     w ITEM,..                      the words of the code, each in hexadecimal
//!     r ITEM,..                      the bytes of the read-only data
//!     i ITEM,..                      the bytes of the filled data
//!     z N                            how many zero bytes there are
//!     s NAME:HOME:VALUE:SIZE:FLAGS   a symbol; its home is U, T, R, I or Z, and its flags are `l`, local, and `f`, a function
//!     c OFFSET:KIND:SYMBOL:ADDEND    a relocation of the code; symbols are counted from 0
//!     d OFFSET:KIND:SYMBOL:ADDEND    a relocation of the filled data
//!     t SYMBOL                       a tagged symbol
//!
//! `N*ITEM` is an item so many times. The program lays each object out as a file, which `read_object` has to take.
#![tactic(auto)]

mod answer;
mod draft;
mod file;
mod objects;
mod runs;

use crate::objects::Shelf;
use std::io;
use test_rows::{Row, Tally};

fn main(rt: HostRuntime) -> io::Result<()> {
    let alloc = rt.alloc();
    let mut tally = Tally::new();
    let mut shelf = Shelf::new(alloc);
    for line in rt.lines(rt.alloc()) {
        let line = line?;
        if let Some(text) = line.as_str().strip_prefix("object ") {
            shelf.put(alloc, text)?;
        } else if let Some(row) = Row::of(line.as_str()) {
            let found = answer::answer(alloc, &shelf, row.question)?;
            if tally.differs(row.answer, found.as_str()) {
                println!(rt; "{}: {found}, not {}", row.question, row.answer)?;
            }
        }
    }
    println!(rt; "{tally}")
}
