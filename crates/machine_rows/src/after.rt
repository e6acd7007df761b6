// What a row's answer says, after how the run ended:
//
//     xN=V, sp=V       what a register holds
//     nzcv=V           the flags, N the highest of four bits
//     mA=V             the eight bytes at the address A
//     tA=T             the tag of the granule at A
//     out=BYTES        what was put out
use crate::before::register_of;
use crate::code::Code;
use crate::told::Told;
use mte_machine::MachineEnd;
use std::alloc::{AllocError, Global};
use std::fmt::Write;
use test_rows::hex;

/// What a word of an answer asks for.
#[derive(Clone, Copy)]
enum Asked {
    /// A register; number 31 is SP.
    Register(u32),
    Flags,
    Loaded(u64),
    Tag(u64),
    Output,
}

fn meaning(key: &str) -> Option<Asked> {
    match key {
        "sp" => Some(Asked::Register(31)),
        "nzcv" => Some(Asked::Flags),
        "out" => Some(Asked::Output),
        _ => match (key.strip_prefix('m'), key.strip_prefix('t')) {
            (Some(at), _) => hex(at).map(Asked::Loaded),
            (_, Some(at)) => hex(at).map(Asked::Tag),
            _ => register_of(key).map(Asked::Register),
        },
    }
}

/// The code that puts out what an answer asks for, eight bytes each, and exits with 0.
pub fn code_of(alloc: Global, answer: &str) -> Result<Code, AllocError> {
    let mut code = Code {
        words: Vec::new(alloc),
    };
    code.keep()?;
    for word in answer.split_whitespace() {
        if let Some((key, _)) = word.split_once('=') {
            put(&mut code, key)?;
        }
    }
    code.exit()?;
    Ok(code)
}

fn put(code: &mut Code, key: &str) -> Result<(), AllocError> {
    match meaning(key) {
        Some(Asked::Register(register)) => code.put_register(register),
        Some(Asked::Flags) => code.put_flags(),
        Some(Asked::Loaded(at)) => code.put_loaded(at),
        Some(Asked::Tag(at)) => code.put_tag(at),
        Some(Asked::Output) | None => Ok(()),
    }
}

/// How many bytes that code puts out.
fn bytes_asked(answer: &str) -> usize {
    let mut count: usize = 0;
    for word in answer.split_whitespace() {
        if let Some((key, _)) = word.split_once('=') {
            if !matches!(meaning(key), Some(Asked::Output) | None) {
                count = count.saturating_add(8);
            }
        }
    }
    count
}

/// What a run tells of what an answer asks for: how it ended, and the bytes that it put out.
pub fn told(
    alloc: Global,
    answer: &str,
    end: MachineEnd,
    out: &[u8],
) -> Result<String, AllocError> {
    let asked_bytes = match end {
        MachineEnd::Exited(0) => bytes_asked(answer),
        _ => 0,
    };
    let (own, mut values) = out.split_at(out.len().saturating_sub(asked_bytes));
    let mut told = format!(in alloc; "{}", Told(end))?;
    for word in answer.split_whitespace() {
        if let Some((key, _)) = word.split_once('=') {
            match meaning(key) {
                None => {}
                Some(Asked::Output) => tell_bytes(&mut told, own)?,
                Some(asked) => {
                    let (first, others) = values.split_at(values.len().min(8));
                    let value = shown(asked, number_of(first));
                    write!(told, " {key}={value:X}")?;
                    values = others;
                }
            }
        }
    }
    Ok(told)
}

fn tell_bytes(told: &mut String, bytes: &[u8]) -> Result<(), AllocError> {
    told.push_str(" out=")?;
    for byte in bytes {
        write!(told, "{byte:02X}")?;
    }
    Ok(())
}

/// What a row says of a number that was put out: of an address with a tag the tag.
fn shown(asked: Asked, value: u64) -> u64 {
    match asked {
        Asked::Tag(_) => value >> 56 & 15,
        _ => value,
    }
}

/// The number of bytes, the lowest first.
fn number_of(bytes: &[u8]) -> u64 {
    let mut number: u64 = 0;
    for byte in bytes.iter().rev() {
        number = number << 8 | u64::from(*byte);
    }
    number
}
