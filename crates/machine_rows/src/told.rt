use mte_machine::MachineEnd;
use std::fmt;

/// How a run ended, as rows write it: a word, with its numbers after colons.
#[derive(Clone, Copy)]
pub struct Told(pub MachineEnd);

impl fmt::Display for Told {
    fn fmt<W: fmt::Write>(&self, f: &mut fmt::Formatter<W>) -> fmt::Result {
        match self.0 {
            MachineEnd::Exited(status) => write!(f, "exit:{status}"),
            MachineEnd::TagFault {
                at,
                pointer_tag,
                memory_tag,
            } => {
                let pointer = pointer_tag.value();
                let memory = memory_tag.value();
                write!(f, "tag:{at:X}:{pointer:X}:{memory:X}")
            }
            MachineEnd::MemoryFault { at } => write!(f, "memory:{at:X}"),
            MachineEnd::AlignFault { at } => write!(f, "align:{at:X}"),
            MachineEnd::StackFault => f.write_str("stack"),
            MachineEnd::BadCode { at } => write!(f, "code:{at:X}"),
            MachineEnd::Divide => f.write_str("divide"),
            MachineEnd::OutOfSteps => f.write_str("steps"),
            MachineEnd::InputFault => f.write_str("input"),
            MachineEnd::OutputFault => f.write_str("output"),
        }
    }
}
