ghost use Rattle.std.specs.Prelude.{◌≡◌};
ghost use Rattle.memtag_desc.specs.declared.refusal.DescRefusal.TheVariants.{NoMemory};

use std::alloc::{AllocError, AllocFailed};
use thiserror::Error;

/// Why bytes describe no intervals: the first number or interval that breaks a rule, with its place in the bytes.
#[derive(Debug, Drop, Error)]
pub enum DescRefusal {
    /// The bytes, of which there are `at`, end before the last byte of a number.
    #[error("Cut")]
    Cut { at: u64 },
    /// The number at `at` has a shorter spelling, or its descriptor has one.
    #[error("LongForm")]
    LongForm { at: u64 },
    /// The number at `at` has more than eight bytes, or the interval of the descriptor at `at` ends above 2^48.
    #[error("TooFar")]
    TooFar { at: u64 },
    /// Memory ran out, which says nothing of the bytes.
    #[error("NoMemory")]
    NoMemory,
}

impl DescRefusal {
    ghost use Rattle.std.specs.Prelude.{◌≡◌};
    ghost use Rattle.memtag_desc.specs.Refusal.{number_of, place_of};

    /// The refusal's number, 35 to 37 in the order above, and 0 for want of memory.
    pub fn number(&self) -> u8
        ensures { result ≡ number_of self.now }
    {
        match self {
            DescRefusal::Cut { .. } => 35,
            DescRefusal::LongForm { .. } => 36,
            DescRefusal::TooFar { .. } => 37,
            DescRefusal::NoMemory => 0,
        }
    }

    /// The place of the fault, and 0 where it has none.
    pub fn place(&self) -> u64
        ensures { result ≡ place_of self.now }
    {
        match self {
            DescRefusal::Cut { at } | DescRefusal::LongForm { at } | DescRefusal::TooFar { at } =>
                *at,
            DescRefusal::NoMemory => 0,
        }
    }
}

impl From<AllocError> for DescRefusal {
    ghost from_gives = { λ _ e. e ≡ NoMemory };

    fn from(_e: AllocError) -> DescRefusal {
        DescRefusal::NoMemory
    }
}

impl<T: Drop> From<AllocFailed<T>> for DescRefusal {
    ghost from_gives = { λ _ e. e ≡ NoMemory };

    fn from(_e: AllocFailed<T>) -> DescRefusal {
        DescRefusal::NoMemory
    }
}
