// Why an image does not start.
ghost use Rattle.std.specs.Prelude.{◌≡◌};
ghost use Rattle.tag_startup.specs.declared.refusal.StartRefusal.TheVariants.{NoMemory};

use memtag_desc::DescRefusal;
use std::alloc::{AllocError, AllocFailed};
use thiserror::Error;

/// Why an image does not start: the first condition that fails. A refusal inside is never the want of memory.
#[derive(Debug, Drop, Error)]
pub enum StartRefusal {
    /// Its descriptors describe no objects.
    #[error("{0}")]
    Descriptors(DescRefusal),
    /// An object is not within the writable part, or the place of a relocation is not, or is no multiple of 8. The index is that
    /// of the object in their order, or that of the relocation, counted on after the objects.
    #[error("Outside")]
    Outside { index: u32 },
    /// Memory ran out, which says nothing of the image.
    #[error("NoMemory")]
    NoMemory,
}

impl StartRefusal {
    ghost use Rattle.tag_startup.specs.Refusal.{number_of, place_of};

    /// The refusal's number, 35 to 37 or 43, and 0 for want of memory.
    pub fn number(&self) -> u8
        ensures { result ≡ number_of self.now }
    {
        match self {
            StartRefusal::Descriptors(refusal) => refusal.number(),
            StartRefusal::Outside { .. } => 43,
            StartRefusal::NoMemory => 0,
        }
    }

    /// The place that the refusal names: a byte of the descriptors, or an index; 0 where it names none.
    pub fn place(&self) -> u64
        ensures { result ≡ place_of self.now }
    {
        match self {
            StartRefusal::Descriptors(refusal) => refusal.place(),
            StartRefusal::Outside { index } => u64::from(*index),
            StartRefusal::NoMemory => 0,
        }
    }
}

impl From<DescRefusal> for StartRefusal {
    ghost use Rattle.std.specs.Prelude.{◌≡◌};
    ghost use Rattle.tag_startup.specs.Refusal.{of_descriptors};

    ghost from_gives = { λ e refusal. refusal ≡ of_descriptors e };

    fn from(refusal: DescRefusal) -> StartRefusal {
        match refusal {
            DescRefusal::NoMemory => StartRefusal::NoMemory,
            refusal => StartRefusal::Descriptors(refusal),
        }
    }
}

impl From<AllocError> for StartRefusal {
    ghost from_gives = { λ _ refusal. refusal ≡ NoMemory };

    fn from(_: AllocError) -> StartRefusal {
        StartRefusal::NoMemory
    }
}
