// How a run ends.

use mt_base::Tag;

/// How a run of the machine ends. `at` is the address of an access, without the pointer's top byte, and at `BadCode` the whole PC.
#[derive(Clone, Copy, Debug, PartialEq, Eq)]
pub enum MachineEnd {
    /// The program ended itself, with this status.
    Exited(u8),
    /// An access met a granule of another tag than the pointer's.
    TagFault {
        at: u64,
        pointer_tag: Tag,
        memory_tag: Tag,
    },
    /// An access met a byte that no region holds, or wrote to a region that is not writable.
    MemoryFault {
        at: u64,
    },
    /// An access was not at a multiple of what it has to be: its size, 8 for a pair, 16 for a store of tags.
    AlignFault {
        at: u64,
    },
    /// An access met the guard below the stack.
    StackFault,
    /// No instruction of the table can be fetched at this address, or it asks for a service that there is not.
    BadCode {
        at: u64,
    },
    /// The program told a division by zero.
    Divide,
    /// As many steps ran as were allowed, and none of them ended the run.
    OutOfSteps,
    /// The source failed.
    InputFault,
    /// The sink failed.
    OutputFault,
}
