// Why a step of a program is undefined, as it is told.

use block_meaning::Reason;
use std::fmt;

/// Why a step is undefined, which is told by the name of the reason.
#[derive(Clone, Copy)]
pub struct Undefined {
    pub reason: Reason,
}

impl Undefined {
    // The reason's name.
    fn name(&self) -> &'static str {
        match self.reason {
            Reason::Misaligned => "Misaligned",
            Reason::Null => "Null",
            Reason::Dead => "Dead",
            Reason::Outside => "Outside",
            Reason::ReadOnly => "ReadOnly",
            Reason::Indeterminate => "Indeterminate",
            Reason::Part => "Part",
            Reason::Overlap => "Overlap",
            Reason::Compare => "Compare",
            Reason::Signature => "Signature",
        }
    }
}

impl fmt::Display for Undefined {
    fn fmt<W: fmt::Write>(&self, f: &mut fmt::Formatter<W>) -> fmt::Result {
        f.write_str(self.name())
    }
}

impl fmt::Debug for Undefined {
    fn fmt<W: fmt::Write>(&self, f: &mut fmt::Formatter<W>) -> fmt::Result {
        f.write_str(self.name())
    }
}
