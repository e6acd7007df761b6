// How a call of the program ends.

use crate::undefined::Undefined;
use mt_base::Tag;
use mte_machine::MachineEnd;

/// Why a call of the program ended. A file is named by its place, from 0, among those that the job reads, and at
/// `WriteFault` among those that it writes.
#[derive(Clone, Copy, Debug)]
pub enum Why {
    /// What was asked for is done: the image is written, or the lines are put.
    Done,
    /// The program that was run ended itself.
    Exited,
    /// The words ask for nothing that there is.
    Usage,
    /// A source is refused, by the refusal's number, at this byte: 0 where it names none.
    Refused {
        file: u32,
        number: u8,
        place: u32,
    },
    /// There is no such file.
    NoFile {
        file: u32,
    },
    /// The code of the sources is not linked, by the refusal's number.
    Link {
        number: u8,
    },
    /// An image is refused, by the refusal's number, at this place.
    BadImage {
        file: u32,
        number: u8,
        place: u64,
    },
    /// Want of memory.
    NoMemory,
    /// A file could not be written.
    WriteFault {
        file: u32,
    },
    /// The output could not be written.
    OutputFault,
    /// A file could not be read.
    ReadFault {
        file: u32,
    },
    /// The input could not be read.
    InputFault,
    /// An access met a granule of another tag than the pointer's.
    TagFault {
        at: u64,
        pointer_tag: Tag,
        memory_tag: Tag,
    },
    /// An access met a byte that no region holds, or wrote to a region that is not writable.
    MemoryFault {
        at: u64,
    },
    /// An access was not at a multiple of its size.
    AlignFault {
        at: u64,
    },
    /// An access met the guard below the stack.
    StackFault,
    /// No instruction stands at this address of the machine.
    BadCode {
        at: u64,
    },
    /// The program reported a division by zero.
    Divide,
    /// The steps, or the units of work, that were allowed are over.
    OutOfSteps,
    /// A step of the program is undefined, in the source of this number and at this byte.
    UndefinedStep {
        why: Undefined,
        file: u32,
        place: u32,
    },
}

/// How a call of the program ends: with a status from 0 to 255, and why.
#[derive(Clone, Copy, Debug)]
pub struct Ended {
    pub status: u8,
    pub why: Why,
}

impl Why {
    ghost use Rattle.std.specs.Prelude.{◌≡◌};
    ghost use Rattle.mt_answers.specs.Status.{status_of, ended_so};

    /// The status for this reason, where the program that was run has the status `own`.
    fn status(&self, own: u8) -> u8
        ensures { result ≡ status_of own self.now }
    {
        match self {
            Why::Done => 0,
            Why::Exited => own,
            Why::Usage => 64,
            Why::Refused { .. } => 65,
            Why::NoFile { .. } => 66,
            Why::Link { .. } => 67,
            Why::BadImage { .. } => 68,
            Why::NoMemory => 71,
            Why::WriteFault { .. } | Why::OutputFault => 73,
            Why::ReadFault { .. } | Why::InputFault => 74,
            Why::TagFault { .. } => 80,
            Why::MemoryFault { .. } => 81,
            Why::AlignFault { .. } => 82,
            Why::StackFault => 83,
            Why::BadCode { .. } => 84,
            Why::Divide => 85,
            Why::OutOfSteps => 86,
            Why::UndefinedStep { .. } => 87,
        }
    }

    /// The end of a call for this reason, where the program that was run has the status `own`.
    pub(crate) fn ended(self, own: u8) -> Ended
        ensures { result ≡ ended_so own self }
    {
        let status = self.status(own);
        Ended { status, why: self }
    }
}

impl From<MachineEnd> for Ended {
    ghost use Rattle.std.specs.Prelude.{◌≡◌};
    ghost use Rattle.mt_answers.specs.Status.{ended_by};

    ghost from_gives = { λ end ended. ended ≡ ended_by end };

    fn from(end: MachineEnd) -> Ended {
        match end {
            MachineEnd::Exited(status) => Why::Exited.ended(status),
            MachineEnd::OutputFault => Why::OutputFault.ended(0),
            MachineEnd::InputFault => Why::InputFault.ended(0),
            MachineEnd::TagFault {
                at,
                pointer_tag,
                memory_tag,
            } => Why::TagFault {
                at,
                pointer_tag,
                memory_tag,
            }
            .ended(0),
            MachineEnd::MemoryFault { at } => Why::MemoryFault { at }.ended(0),
            MachineEnd::AlignFault { at } => Why::AlignFault { at }.ended(0),
            MachineEnd::StackFault => Why::StackFault.ended(0),
            MachineEnd::BadCode { at } => Why::BadCode { at }.ended(0),
            MachineEnd::Divide => Why::Divide.ended(0),
            MachineEnd::OutOfSteps => Why::OutOfSteps.ended(0),
        }
    }
}
