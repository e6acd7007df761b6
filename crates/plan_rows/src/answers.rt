// The answer to a row's question.
ghost use Rattle.frame_layout.specs.WellFormed.{IsWellFormed};

use crate::calls::words_of;
use crate::frames::frame_of;
use crate::running::state_after;
use frame_layout::Frame;
use mt_base::Tag;
use std::alloc::{AllocError, Global};
use std::fmt::Write;
use test_rows::{Row, hex, unquoted};

/// The list of a call.
#[derive(Drop)]
struct List {
    words: Vec<u32>,
    /// Whether it makes a pointer alone. The state after it is not told, since the next one has its register too.
    is_pointer: bool,
}

/// What the row asks for: the states after its calls, or their words.
pub fn answer(alloc: Global, row: Row) -> Result<String, AllocError> {
    let Some((quoted, rest)) = row.question.rsplit_once('"') else {
        return String::from_str(alloc, "no source");
    };
    let source = unquoted(alloc, quoted.strip_prefix('"').unwrap_or(quoted))?;
    match frame_of(alloc, &source) {
        Some(frame) => answer_for(alloc, &frame, rest.trim(), row.answer),
        None => String::from_str(alloc, "no frame"),
    }
}

/// The answer for a frame, to a tag and calls.
fn answer_for(alloc: Global, frame: &Frame, asked: &str, answer: &str) -> Result<String, AllocError>
    requires { IsWellFormed frame.now }
{
    let (digit, calls) = asked.split_once(' ').unwrap_or((asked, ""));
    let Some(tag) = tag_of(digit) else {
        return String::from_str(alloc, "no tag");
    };
    match lists_of(alloc, frame, calls)? {
        None => String::from_str(alloc, "no call"),
        Some(lists) => {
            if answer == "words" {
                words_told(alloc, frame.bytes, &lists)
            } else {
                states_told(alloc, frame.bytes, tag, &lists)
            }
        }
    }
}

/// The tag of a hexadecimal digit.
fn tag_of(digit: &str) -> Option<Tag> {
    Tag::new(u8::try_from(hex(digit)?).ok()?)
}

/// The lists of calls; None where one of them is no call.
fn lists_of(alloc: Global, frame: &Frame, calls: &str) -> Result<Option<Vec<List>>, AllocError>
    requires { IsWellFormed frame.now }
{
    let mut lists = Vec::new(alloc);
    for call in calls.split_whitespace() {
        match words_of(alloc, frame, call)? {
            None => return Ok(None),
            Some(words) => lists.push(List {
                words,
                is_pointer: call.starts_with("at:"),
            })?,
        }
    }
    Ok(Some(lists))
}

/// The bytes of a frame, and words in hexadecimal.
fn words_told(alloc: Global, bytes: u64, lists: &[List]) -> Result<String, AllocError> {
    let mut told = format!(in alloc; "{bytes}")?;
    for list in lists {
        told.push_str(" /")?;
        for word in &list.words {
            write!(told, " {word:X}")?;
        }
    }
    Ok(told)
}

/// The states after one list, after two, and so on.
fn states_told(alloc: Global, bytes: u64, tag: Tag, lists: &[List]) -> Result<String, AllocError> {
    let mut told = String::new(alloc);
    let mut words = Vec::new(alloc);
    for list in lists {
        words.extend_from_slice(&list.words)?;
        if list.is_pointer {
            continue;
        }
        if !told.is_empty() {
            told.push_str(" / ")?;
        }
        let state = state_after(alloc, bytes, tag, &words)?;
        told.push_str(state.as_str())?;
    }
    Ok(told)
}
