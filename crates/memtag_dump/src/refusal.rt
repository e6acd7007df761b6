ghost use Rattle.std.specs.Prelude.{◌≡◌};
ghost use Rattle.memtag_dump.specs.declared.refusal.DumpRefusal.TheVariants.{NoMemory};

use elf_image::ImageRefusal;
use memtag_desc::DescRefusal;
use std::alloc::{AllocError, AllocFailed};
use thiserror::Error;

/// Why a file has no lines. A refusal inside is never the want of memory.
#[derive(Debug, Drop, Error)]
pub enum DumpRefusal {
    /// The file is none that has a dynamic segment for AArch64, or its descriptors are not there.
    #[error("{0}")]
    File(ImageRefusal),
    /// The descriptors describe nothing.
    #[error("{0}")]
    Descriptors(DescRefusal),
    /// Memory ran out, which says nothing of the file.
    #[error("NoMemory")]
    NoMemory,
}

impl DumpRefusal {
    ghost use Rattle.std.specs.Prelude.{◌≡◌};
    ghost use Rattle.memtag_dump.specs.Refusal.{number_of, place_of};

    /// The refusal's number, 30 to 37, and 0 for want of memory.
    pub fn number(&self) -> u8
        ensures { result ≡ number_of self.now }
    {
        match self {
            DumpRefusal::File(refusal) => refusal.number(),
            DumpRefusal::Descriptors(refusal) => refusal.number(),
            DumpRefusal::NoMemory => 0,
        }
    }

    /// The place that the refusal names, 0 where it names none.
    pub fn place(&self) -> u64
        ensures { result ≡ place_of self.now }
    {
        match self {
            DumpRefusal::File(refusal) => refusal.place(),
            DumpRefusal::Descriptors(refusal) => refusal.place(),
            DumpRefusal::NoMemory => 0,
        }
    }
}

impl From<ImageRefusal> for DumpRefusal {
    ghost use Rattle.std.specs.Prelude.{◌≡◌};
    ghost use Rattle.memtag_dump.specs.Refusal.{of_file};

    ghost from_gives = { λ e refusal. refusal ≡ of_file e };

    fn from(refusal: ImageRefusal) -> DumpRefusal {
        match refusal {
            ImageRefusal::NoMemory => DumpRefusal::NoMemory,
            refusal => DumpRefusal::File(refusal),
        }
    }
}

impl From<DescRefusal> for DumpRefusal {
    ghost use Rattle.std.specs.Prelude.{◌≡◌};
    ghost use Rattle.memtag_dump.specs.Refusal.{of_descriptors};

    ghost from_gives = { λ e refusal. refusal ≡ of_descriptors e };

    fn from(refusal: DescRefusal) -> DumpRefusal {
        match refusal {
            DescRefusal::NoMemory => DumpRefusal::NoMemory,
            refusal => DumpRefusal::Descriptors(refusal),
        }
    }
}

impl From<AllocError> for DumpRefusal {
    ghost from_gives = { λ _ e. e ≡ NoMemory };

    fn from(_e: AllocError) -> DumpRefusal {
        DumpRefusal::NoMemory
    }
}

impl<T: Drop> From<AllocFailed<T>> for DumpRefusal {
    ghost from_gives = { λ _ e. e ≡ NoMemory };

    fn from(_e: AllocFailed<T>) -> DumpRefusal {
        DumpRefusal::NoMemory
    }
}
