// How a call ends with each answer. No program that can be built today ends in some of these ways.
use crate::calls::shown;
use c_lex::LexRefusal;
use c_parse::ParseRefusal;
use elf_base::Name;
use mt_base::Tag;
use mt_outside::MemSink;
use mt_pipeline::{Answer, CompileRefusal, LinkRefusal, NoWords, end_without_words, finish};
use mte_machine::MachineEnd;
use std::alloc::{AllocError, Global};
use test_rows::hex;

/// How a call ends with the answer of a row: a name and numbers in hexadecimal.
pub fn ended(alloc: Global, row: &str) -> Result<String, AllocError> {
    let mut numbers = [0; 3];
    let mut words = row.split_whitespace();
    let name = words.next().unwrap_or("");
    for (number, word) in numbers.iter_mut().zip(words) {
        *number = hex(word).unwrap_or(0);
    }
    let mut err = MemSink::new(alloc, 100, Vec::new(alloc))?;
    let ended = match (no_words(name), answer_of(alloc, name, numbers)?) {
        (Some(cause), _) => end_without_words(&mut err, cause),
        (None, Some(answer)) => finish(&mut err, &["a.c"], answer),
        (None, None) => return String::from_str(alloc, "no answer"),
    };
    shown(alloc, ended, b"", err.taken())
}

/// Why the words could not be had.
fn no_words(name: &str) -> Option<NoWords> {
    match name {
        "no_text" => Some(NoWords::NotText),
        "no_memory_for_words" => Some(NoWords::NoMemory),
        _ => None,
    }
}

/// The answer of this name.
fn answer_of(alloc: Global, name: &str, numbers: [u64; 3]) -> Result<Option<Answer>, AllocError> {
    if let Some(end) = end_of(name, numbers) {
        return Ok(Some(Answer::Ran(end)));
    }
    if let Some(refusal) = link_refusal(alloc, name, numbers[0])? {
        return Ok(Some(Answer::Link(refusal)));
    }
    let place = low(numbers[0]);
    Ok(refusal_of(name, place, low(numbers[1])).map(|refusal| Answer::Refused {
        file: 0,
        place,
        refusal,
    }))
}

/// The end of a run.
fn end_of(name: &str, numbers: [u64; 3]) -> Option<MachineEnd> {
    let [at, pointer, memory] = numbers;
    let end = match name {
        "Exited" => MachineEnd::Exited((at & 0xff) as u8),
        "TagFault" => MachineEnd::TagFault {
            at,
            pointer_tag: Tag::new((pointer & 0xff) as u8)?,
            memory_tag: Tag::new((memory & 0xff) as u8)?,
        },
        "MemoryFault" => MachineEnd::MemoryFault { at },
        "AlignFault" => MachineEnd::AlignFault { at },
        "StackFault" => MachineEnd::StackFault,
        "BadCode" => MachineEnd::BadCode { at },
        "Divide" => MachineEnd::Divide,
        "OutOfSteps" => MachineEnd::OutOfSteps,
        "OutputFault" => MachineEnd::OutputFault,
        "InputFault" => MachineEnd::InputFault,
        _ => return None,
    };
    Some(end)
}

/// The refusal of a source, whose place is a byte or, where the parser refuses, the number of tokens before it.
fn refusal_of(name: &str, at: u32, token: u32) -> Option<CompileRefusal> {
    let refusal = match name {
        "BadByte" => CompileRefusal::Lex(LexRefusal::BadByte { at }),
        "UnclosedText" => CompileRefusal::Lex(LexRefusal::UnclosedText { at }),
        "UnclosedComment" => CompileRefusal::Lex(LexRefusal::UnclosedComment { at }),
        "NumberTooLarge" => CompileRefusal::Lex(LexRefusal::NumberTooLarge { at }),
        "BadDirective" => CompileRefusal::Lex(LexRefusal::BadDirective { at }),
        "TextTooLong" => CompileRefusal::Lex(LexRefusal::TextTooLong),
        "Unexpected" => CompileRefusal::Parse(ParseRefusal::Unexpected { place: token }),
        "TooDeep" => CompileRefusal::Parse(ParseRefusal::TooDeep { place: token }),
        "NotYet" => CompileRefusal::NotYet,
        _ => return None,
    };
    Some(refusal)
}

/// The refusal of a link.
fn link_refusal(alloc: Global, name: &str, count: u64) -> Result<Option<LinkRefusal>, AllocError> {
    match name {
        "TooManyObjects" => Ok(Some(LinkRefusal::TooManyObjects { count })),
        "Duplicate" => Ok(Some(LinkRefusal::Duplicate {
            name: Name::from_slice(alloc, b"main")?,
        })),
        "NoMain" => Ok(Some(LinkRefusal::NoMain)),
        _ => Ok(None),
    }
}

/// The low 32 bits.
fn low(number: u64) -> u32 {
    (number & 0xffff_ffff) as u32
}
