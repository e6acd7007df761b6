//! Runs small C programs and compares what they do with what was written down, from the definition of the meaning alone, before any of
//! them was run. The input's first lines say how a row is written.
#![tactic(auto)]

mod asked;
mod run;

use asked::Asked;
use run::{differences, outcome};
use std::alloc::{AllocError, Global};
use std::io;

fn main(rt: HostRuntime) -> io::Result<()> {
    let alloc = rt.alloc();
    let mut rows: u64 = 0;
    let mut differ: u64 = 0;
    let mut asked = Asked::new(alloc);
    for line in rt.lines(alloc) {
        let line = line?;
        if !line.is_empty() {
            asked.read(alloc, line.as_str())?;
            continue;
        }
        let said = said_of(alloc, &asked)?;
        if let Some(said) = said {
            rows = rows.saturating_add(1);
            if !said.is_empty() {
                differ = differ.saturating_add(1);
                println!(rt; "{}: {said}", asked.name)?;
            }
        }
        asked = Asked::new(alloc);
    }
    println!(rt; "{rows} rows, {differ} differ")
}

/// How a row's program differs from what the row says, if a row was read.
fn said_of(alloc: Global, asked: &Asked) -> Result<Option<String>, AllocError> {
    if asked.sources.is_empty() {
        return Ok(None);
    }
    match outcome(alloc, asked, asked.work)? {
        Ok(found) => Ok(Some(differences(alloc, asked, &found)?)),
        Err(refused) => Ok(Some(refused)),
    }
}
