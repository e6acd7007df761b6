ghost use Rattle.std.specs.Prelude.{◌≡◌};
ghost use Rattle.elf_base.specs.Index.{told_index};
ghost use Rattle.elf_obj.specs.declared.refusal.ObjectRefusal.TheVariants.{NoMemory};

use std::alloc::{AllocError, AllocFailed};
use thiserror::Error;

/// Why bytes are the file of no object: the first condition that fails, with its place.
#[derive(Debug, Drop, Error)]
pub enum ObjectRefusal {
    /// A byte of the identification is another.
    #[error("NotElf")]
    NotElf,
    /// The file is no object, or none for this machine.
    #[error("NotThisMachine")]
    NotThisMachine,
    /// The bytes, of which there are `at`, end before what they name.
    #[error("Truncated")]
    Truncated { at: u64 },
    /// The header, the place or the fixed bytes of this section are other ones; 0 is the file's header, 12 what follows the last section.
    #[error("BadSection")]
    BadSection { index: u32 },
    /// This symbol breaks a rule, by its number in the file. A number past 32 bits is told as the greatest of them, here and below.
    #[error("BadSymbol")]
    BadSymbol { index: u32 },
    /// This relocation breaks a rule, counted over those of the instructions, of the data and of the tagged objects.
    #[error("BadRelocation")]
    BadRelocation { index: u32 },
    /// Memory ran out, which says nothing of the bytes.
    #[error("NoMemory")]
    NoMemory,
}

impl ObjectRefusal {
    ghost use Rattle.elf_obj.specs.Refusal.{number_of, place_of};

    /// The refusal's number, 24 to 29, and 0 for want of memory.
    pub fn number(&self) -> u8
        ensures { result ≡ number_of self.now }
    {
        match self {
            ObjectRefusal::NotElf => 24,
            ObjectRefusal::NotThisMachine => 25,
            ObjectRefusal::Truncated { .. } => 26,
            ObjectRefusal::BadSection { .. } => 27,
            ObjectRefusal::BadSymbol { .. } => 28,
            ObjectRefusal::BadRelocation { .. } => 29,
            ObjectRefusal::NoMemory => 0,
        }
    }

    /// The number inside the refusal, and 0 where it has none.
    pub fn place(&self) -> u64
        ensures { result ≡ place_of self.now }
    {
        match self {
            ObjectRefusal::Truncated { at } => *at,
            ObjectRefusal::BadSection { index }
            | ObjectRefusal::BadSymbol { index }
            | ObjectRefusal::BadRelocation { index } => u64::from(*index),
            _ => 0,
        }
    }
}

/// The number of a record as 32 bits tell it.
pub(crate) fn told(number: u64) -> u32
    ensures { result ≡ told_index number }
{
    u32::try_from(number).unwrap_or(u32::MAX)
}

impl From<AllocError> for ObjectRefusal {
    ghost from_gives = { λ _ e. e ≡ NoMemory };

    fn from(_e: AllocError) -> ObjectRefusal {
        ObjectRefusal::NoMemory
    }
}

impl<T: Drop> From<AllocFailed<T>> for ObjectRefusal {
    ghost from_gives = { λ _ e. e ≡ NoMemory };

    fn from(_e: AllocFailed<T>) -> ObjectRefusal {
        ObjectRefusal::NoMemory
    }
}
