//! Reads rows on image files from its input, each of them bytes and what they are read as by the rules of docs/FILES.md, and prints
//! the rows for which the reader and the writer say something else.
#![tactic(auto)]

mod images;

use std::io;

fn main(rt: HostRuntime) -> io::Result<()> {
    let mut base = Vec::new(rt.alloc());
    let mut rows: u64 = 0;
    let mut differ: u64 = 0;
    for line in rt.lines(rt.alloc()) {
        let line = line?;
        let Some((row, wanted)) = line.as_str().split_once('|') else {
            continue;
        };
        let answer = images::answer(rt.alloc(), &mut base, row)?;
        rows = rows.saturating_add(1);
        if answer.as_str() != wanted.trim() {
            differ = differ.saturating_add(1);
            println!(rt; "{row}|{wanted}: {answer}")?;
        }
    }
    println!(rt; "{rows} rows, {differ} differ")
}
