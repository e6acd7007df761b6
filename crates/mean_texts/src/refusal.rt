//! Why texts mean nothing.

ghost use Rattle.std.specs.Prelude.{◌≡◌};
ghost use Rattle.mean_texts.specs.Refusal as spec;
ghost use Rattle.mean_texts.specs.declared.refusal.MeanRefusal.TheVariants.{NoMemory};

use linker::LinkRefusal;
use mean_program::MeanFault;
use mt_compile::CompileRefusal;
use std::alloc::AllocError;

/// Why texts mean nothing, or their meaning is not told. A refusal inside is never the want of memory.
#[derive(Drop)]
pub enum MeanRefusal {
    /// The text of this number, from 0, is refused.
    Compile { file: u32, refusal: CompileRefusal },
    /// Their names are not linked.
    Link(LinkRefusal),
    /// The source or the sink failed.
    Fault(MeanFault),
    /// Want of memory.
    NoMemory,
}

impl MeanRefusal {
    /// The text of this number, from 0, is refused.
    pub(crate) fn of_source(number: usize, refusal: CompileRefusal) -> MeanRefusal
        ensures { result ≡ spec.of_source number refusal }
    {
        match refusal {
            CompileRefusal::NoMemory => MeanRefusal::NoMemory,
            refusal => MeanRefusal::Compile {
                file: u32::try_from(number).unwrap_or(u32::MAX),
                refusal,
            },
        }
    }

    /// The names are not linked.
    pub(crate) fn of_link(refusal: LinkRefusal) -> MeanRefusal
        ensures { result ≡ spec.of_link refusal }
    {
        match refusal {
            LinkRefusal::NoMemory => MeanRefusal::NoMemory,
            refusal => MeanRefusal::Link(refusal),
        }
    }

    /// The run failed.
    pub(crate) fn of_fault(fault: MeanFault) -> MeanRefusal
        ensures { result ≡ spec.of_fault fault }
    {
        match fault {
            MeanFault::NoMemory => MeanRefusal::NoMemory,
            fault => MeanRefusal::Fault(fault),
        }
    }
}

impl From<AllocError> for MeanRefusal {
    ghost from_gives = { λ _ refusal. refusal ≡ NoMemory };

    fn from(_: AllocError) -> MeanRefusal {
        MeanRefusal::NoMemory
    }
}
