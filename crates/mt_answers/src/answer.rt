// What a command answers.
ghost use Rattle.std.specs.Prelude.{◌≡◌};
ghost use Rattle.mt_answers.specs.Answer.{ended_of};
ghost use Rattle.mt_answers.specs.Refusals.{answer_to_link, answer_to_object, answer_to_source, file_in};

use crate::ended::{Ended, Why};
use crate::refusal::RunRefusal;
use crate::undefined::Undefined;
use elf_obj::ObjectRefusal;
use linker::LinkRefusal;
use memtag_dump::DumpRefusal;
use mt_compile::{CompileRefusal, Refused};
use mte_machine::MachineEnd;

/// What a command answers: how its run ended, or why there was none. Want of memory is an answer of its own, and
/// never a refusal.
#[derive(Drop)]
pub enum Answer {
    /// The file that was asked for is written, or the text is put.
    Done,
    /// The program ran.
    Ran(MachineEnd),
    /// A step of the program is undefined, at this byte of a source.
    Undefined {
        file: u32,
        place: u32,
        why: Undefined,
    },
    /// The words ask for nothing that there is.
    Usage,
    /// The refusal of a source, and the byte that is told of it.
    Refused {
        file: u32,
        place: u32,
        refusal: CompileRefusal,
    },
    /// There is no such file.
    NoFile {
        file: u32,
    },
    /// The code of the sources, or the objects, are not linked.
    Link(LinkRefusal),
    /// The refusal of an object.
    BadObject {
        file: u32,
        refusal: ObjectRefusal,
    },
    /// The refusal of an image.
    BadImage {
        file: u32,
        refusal: RunRefusal,
    },
    /// The refusal of an ELF file that says nothing of memory tagging.
    BadDump {
        file: u32,
        refusal: DumpRefusal,
    },
    /// Want of memory.
    NoMemory,
    /// A file could not be written.
    WriteFault {
        file: u32,
    },
    /// The output could not be written.
    OutputFault,
    /// A file could not be read.
    ReadFault {
        file: u32,
    },
}

impl Answer {
    /// What is answered where the source with this number is refused.
    pub fn of_source(number: u32, refused: Refused<CompileRefusal>) -> Answer
        ensures { result ≡ answer_to_source number refused.refusal refused.place }
    {
        let Refused { refusal, place } = refused;
        match refusal {
            CompileRefusal::NoMemory => Answer::NoMemory,
            refusal => Answer::Refused {
                file: number,
                place,
                refusal,
            },
        }
    }

    /// What is answered where code is not linked.
    pub fn of_link(refusal: LinkRefusal) -> Answer
        ensures { result ≡ answer_to_link refusal }
    {
        match refusal {
            LinkRefusal::NoMemory => Answer::NoMemory,
            refusal => Answer::Link(refusal),
        }
    }

    /// What is answered where the file with this number is no object's.
    pub fn of_object(number: u32, refusal: ObjectRefusal) -> Answer
        ensures { result ≡ answer_to_object number refusal }
    {
        match refusal {
            ObjectRefusal::NoMemory => Answer::NoMemory,
            refusal => Answer::BadObject {
                file: number,
                refusal,
            },
        }
    }

    /// The number of the file that this answer names, 0 where it names none.
    pub fn file(&self) -> u32
        ensures { result ≡ file_in self.now }
    {
        match self {
            Answer::Undefined { file, .. }
            | Answer::Refused { file, .. }
            | Answer::NoFile { file }
            | Answer::BadObject { file, .. }
            | Answer::BadImage { file, .. }
            | Answer::BadDump { file, .. }
            | Answer::WriteFault { file }
            | Answer::ReadFault { file } => *file,
            Answer::Done
            | Answer::Ran(_)
            | Answer::Usage
            | Answer::Link(_)
            | Answer::NoMemory
            | Answer::OutputFault => 0,
        }
    }

    /// The status and the reason of this answer.
    pub fn ended(&self) -> Ended
        ensures { result ≡ ended_of self.now }
    {
        let why = match self {
            Answer::Done => Why::Done,
            Answer::Ran(end) => return Ended::from(*end),
            Answer::Undefined { file, place, why } => Why::UndefinedStep {
                why: *why,
                file: *file,
                place: *place,
            },
            Answer::Usage => Why::Usage,
            Answer::Refused {
                file,
                place,
                refusal,
            } => Why::Refused {
                file: *file,
                number: refusal.number(),
                place: *place,
            },
            Answer::NoFile { file } => Why::NoFile { file: *file },
            Answer::Link(refusal) => Why::Link {
                number: refusal.number(),
            },
            Answer::BadObject { file, refusal } => Why::BadImage {
                file: *file,
                number: refusal.number(),
                place: refusal.place(),
            },
            Answer::BadImage { file, refusal } => Why::BadImage {
                file: *file,
                number: refusal.number(),
                place: refusal.place(),
            },
            Answer::BadDump { file, refusal } => Why::BadImage {
                file: *file,
                number: refusal.number(),
                place: refusal.place(),
            },
            Answer::NoMemory => Why::NoMemory,
            Answer::WriteFault { file } => Why::WriteFault { file: *file },
            Answer::OutputFault => Why::OutputFault,
            Answer::ReadFault { file } => Why::ReadFault { file: *file },
        };
        why.ended(0)
    }
}
