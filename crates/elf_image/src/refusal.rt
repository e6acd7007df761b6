ghost use Rattle.std.specs.Prelude.{◌≡◌};
ghost use Rattle.elf_image.specs.declared.refusal.ImageRefusal.TheVariants.{NoMemory};

use std::alloc::{AllocError, AllocFailed};
use thiserror::Error;

/// Why bytes are no image file, or say nothing of memory tagging: the first condition that fails, with its place. docs/FILES.md lists
/// the conditions in order.
#[derive(Debug, Drop, Error)]
pub enum ImageRefusal {
    /// A byte of the identification differs.
    #[error("NotElf")]
    NotElf,
    /// The file is no shared object for AArch64.
    #[error("NotThisMachine")]
    NotThisMachine,
    /// The file, of `at` bytes, ends before what its headers say.
    #[error("Truncated")]
    Truncated { at: u64 },
    /// The program header of this number, or what stands in its segment, is not that of an image.
    #[error("BadSegment")]
    BadSegment { index: u32 },
    /// The dynamic entry of this number is not that of an image.
    #[error("BadDynamic")]
    BadDynamic { index: u32 },
    /// Memory ran out, which says nothing of the bytes.
    #[error("NoMemory")]
    NoMemory,
}

impl ImageRefusal {
    ghost use Rattle.elf_image.specs.Refusal.{number_of, place_of};

    /// The refusal's number, 30 to 34 in the order above, and 0 for want of memory.
    pub fn number(&self) -> u8
        ensures { result ≡ number_of self.now }
    {
        match self {
            ImageRefusal::NotElf => 30,
            ImageRefusal::NotThisMachine => 31,
            ImageRefusal::Truncated { .. } => 32,
            ImageRefusal::BadSegment { .. } => 33,
            ImageRefusal::BadDynamic { .. } => 34,
            ImageRefusal::NoMemory => 0,
        }
    }

    /// The number inside the refusal, and 0 where it has none.
    pub fn place(&self) -> u64
        ensures { result ≡ place_of self.now }
    {
        match self {
            ImageRefusal::Truncated { at } => *at,
            ImageRefusal::BadSegment { index } | ImageRefusal::BadDynamic { index } => {
                u64::from(*index)
            }
            _ => 0,
        }
    }
}

impl From<AllocError> for ImageRefusal {
    ghost from_gives = { λ _ e. e ≡ NoMemory };

    fn from(_e: AllocError) -> ImageRefusal {
        ImageRefusal::NoMemory
    }
}

impl<T: Drop> From<AllocFailed<T>> for ImageRefusal {
    ghost from_gives = { λ _ e. e ≡ NoMemory };

    fn from(_e: AllocFailed<T>) -> ImageRefusal {
        ImageRefusal::NoMemory
    }
}
