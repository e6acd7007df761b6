// What a row says before its words run:
//
//     xN=V, sp=V       a register holds this; the others hold 0
//     tags=TTTT        the tags of the data's granules, a digit for each
//     choices=T..      the tags that are drawn in turn, a digit for each, and drawn=N how many were drawn
//     in=BYTES         the bytes of the source, and read=N the number of its call that fails, from 0
//     room=N           how many bytes the sink takes, and write=N the number of its call that fails
//     pc=V             the address of the first instruction, where it is not `CODE`; X30 holds it too
//     steps=N          at most so many steps after those that set registers up
use crate::code::Code;
use crate::layout::CODE;
use mt_base::Tag;
use std::alloc::{AllocError, Global};
use test_rows::{bytes_of, hex};

/// No call has this number.
const NEVER: u64 = u64::MAX;

/// Numbers that a row may give.
#[derive(Clone, Copy)]
pub struct Numbers {
    pub failing_read: u64,
    pub failing_write: u64,
    pub room: u64,
    pub drawn: u64,
    pub pc: u64,
    pub steps: u64,
}

#[derive(Drop)]
pub struct Before {
    /// Sets the registers up, and goes to the row's first instruction.
    pub setup: Code,
    pub tags: Vec<Tag>,
    pub choices: Vec<Tag>,
    pub input: Vec<u8>,
    pub numbers: Numbers,
}

impl Before {
    fn new(alloc: Global) -> Before {
        Before {
            setup: Code {
                words: Vec::new(alloc),
            },
            tags: Vec::new(alloc),
            choices: Vec::new(alloc),
            input: Vec::new(alloc),
            numbers: Numbers {
                failing_read: NEVER,
                failing_write: NEVER,
                room: 2000,
                drawn: 0,
                pc: CODE,
                steps: 10_000,
            },
        }
    }

    /// What the words of a row say; None where one of them says nothing.
    pub fn of(alloc: Global, text: &str) -> Result<Option<Before>, AllocError> {
        let mut before = Before::new(alloc);
        for word in text.split_whitespace() {
            let understood = match word.split_once('=') {
                Some((key, value)) => before.take(alloc, key, value)?,
                None => false,
            };
            if !understood {
                return Ok(None);
            }
        }
        before.setup.go_to(before.numbers.pc)?;
        Ok(Some(before))
    }

    /// Takes a word, and says whether it is one.
    fn take(&mut self, alloc: Global, key: &str, value: &str) -> Result<bool, AllocError> {
        match key {
            "tags" => self.tags = tags_of(alloc, value)?,
            "choices" => self.choices = tags_of(alloc, value)?,
            "in" => self.input = bytes_of(alloc, value)?,
            _ => {
                return match hex(value) {
                    Some(number) => self.take_number(key, number),
                    None => Ok(false),
                };
            }
        }
        Ok(true)
    }

    fn take_number(&mut self, key: &str, number: u64) -> Result<bool, AllocError> {
        match key {
            "read" => self.numbers.failing_read = number,
            "write" => self.numbers.failing_write = number,
            "room" => self.numbers.room = number,
            "drawn" => self.numbers.drawn = number,
            "pc" => self.numbers.pc = number,
            "steps" => self.numbers.steps = number,
            "sp" => self.setup.set_sp(number)?,
            _ => match register_of(key) {
                Some(register) => self.setup.set(register, number)?,
                None => return Ok(false),
            },
        }
        Ok(true)
    }
}

/// The number of a register that is written as `x` and its number.
pub fn register_of(word: &str) -> Option<u32> {
    word.strip_prefix('x')?.parse().ok()
}

/// Tags that are written as a digit each, up to the first that is none.
fn tags_of(alloc: Global, digits: &str) -> Result<Vec<Tag>, AllocError> {
    let mut tags = Vec::new(alloc);
    for digit in digits.chars() {
        match digit
            .to_digit(16)
            .and_then(|value| u8::try_from(value).ok())
            .and_then(Tag::new)
        {
            Some(tag) => tags.push(tag)?,
            None => break,
        }
    }
    Ok(tags)
}
