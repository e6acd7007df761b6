//! The program `mtcc`: makes the objects of the host, and calls the driver.
#![tactic(auto)]

use mt_outside::{HostFiles, StdSink, StdSource};
use mt_pipeline::{NoWords, drive, end_without_words};
use std::io::ErrorKind;
use std::process::ExitCode;
use std::{env, io};

fn main(rt: HostRuntime) -> ExitCode {
    let mut err = StdSink::new(rt.stderr());
    let ended = match words(&rt) {
        Ok(words) => {
            let mut input = StdSource::new(rt.stdin());
            let mut out = StdSink::new(rt.stdout());
            let alloc = rt.alloc();
            let mut files = HostFiles::new(rt);
            drive(alloc, &words, &mut files, &mut input, &mut out, &mut err)
        }
        Err(error) => {
            let cause = match error.kind() {
                ErrorKind::OutOfMemory => NoWords::NoMemory,
                _ => NoWords::NotText,
            };
            end_without_words(&mut err, cause)
        }
    };
    ExitCode::from(ended.status)
}

// The words after the program's name.
fn words(rt: &HostRuntime) -> io::Result<Vec<String>> {
    let words = env::args(rt)?.skip(1).collect(rt.alloc())?;
    Ok(words)
}
