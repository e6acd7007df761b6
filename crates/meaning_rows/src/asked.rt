//! A row: a program, and what it does.

use std::alloc::{AllocError, Global};
use test_rows::unquoted;

/// The frame bytes of a function.
#[derive(Drop)]
pub struct FrameBytes {
    pub function: String,
    pub bytes: u64,
}

/// What a row has said so far.
#[derive(Drop)]
pub struct Asked {
    pub name: String,
    /// The names and the bytes of the files.
    pub names: Vec<String>,
    pub sources: Vec<Vec<u8>>,
    pub frames: Vec<FrameBytes>,
    pub input: Vec<u8>,
    /// The number of the read, from 0, that fails, and that of the write.
    pub input_fails: Option<u64>,
    pub output_fails: Option<u64>,
    pub work: u64,
    pub stack: u64,
    pub output: Vec<u8>,
    pub end: String,
    /// None where the row does not say it.
    pub left: Option<Vec<u8>>,
    /// Likewise.
    pub spends: Option<u64>,
}

impl Asked {
    pub fn new(alloc: Global) -> Asked {
        Asked {
            name: String::new(alloc),
            names: Vec::new(alloc),
            sources: Vec::new(alloc),
            frames: Vec::new(alloc),
            input: Vec::new(alloc),
            input_fails: None,
            output_fails: None,
            work: 0,
            stack: 8_388_608,
            output: Vec::new(alloc),
            end: String::new(alloc),
            left: None,
            spends: None,
        }
    }

    /// Reads a line.
    pub fn read(&mut self, alloc: Global, line: &str) -> Result<(), AllocError> {
        if let Some(text) = line.strip_prefix('|') {
            return self.add_line(text.strip_prefix(' ').unwrap_or(text));
        }
        let Some((word, rest)) = line.split_once(' ') else {
            return Ok(());
        };
        match word {
            "program" => self.name = String::from_str(alloc, rest)?,
            "file" => {
                self.names.push(String::from_str(alloc, rest)?)?;
                self.sources.push(Vec::new(alloc))?;
            }
            "frames" => {
                if let Some((function, bytes)) = rest.split_once(' ') {
                    self.frames.push(FrameBytes {
                        function: String::from_str(alloc, function)?,
                        bytes: number(bytes),
                    })?;
                }
            }
            "input" => self.input = unquoted(alloc, rest)?,
            "input_fails" => self.input_fails = Some(number(rest)),
            "output_fails" => self.output_fails = Some(number(rest)),
            "work" => self.work = number(rest),
            "stack" => self.stack = number(rest),
            "output" => self.output = unquoted(alloc, rest)?,
            "end" => self.end = String::from_str(alloc, rest)?,
            "left" => self.left = Some(unquoted(alloc, rest)?),
            "spends" => self.spends = Some(number(rest)),
            _ => {}
        }
        Ok(())
    }

    /// Adds a line to the last file.
    fn add_line(&mut self, text: &str) -> Result<(), AllocError> {
        if let Some(source) = self.sources.last_mut() {
            source.extend_from_slice(text.as_bytes())?;
            source.push(b'\n')?;
        }
        Ok(())
    }
}

fn number(digits: &str) -> u64 {
    u64::from_str_radix(digits, 10).unwrap_or(0)
}
