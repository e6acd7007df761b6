ghost use Rattle.std.specs.Prelude.{◌≡◌};
ghost use Rattle.linker.specs.declared.refusal.LinkRefusal.TheVariants.{NoMemory};

use elf_base::Name;
use std::alloc::{AllocError, AllocFailed};
use thiserror::Error;

/// Why objects have no image: the first condition that fails, in this order.
#[derive(Debug, Drop, Error)]
pub enum LinkRefusal {
    /// There are more than 16 objects, so many.
    #[error("TooManyObjects")]
    TooManyObjects { count: u64 },
    /// Two objects define this name for all objects.
    #[error("Duplicate")]
    Duplicate { name: Name },
    /// No object defines a function `main` for all objects.
    #[error("NoMain")]
    NoMain,
    /// An object names what none defines for all objects.
    #[error("Undefined")]
    Undefined { name: Name },
    /// The image takes more than 256 MiB of memory, or its code alone more than 128 MiB: so many bytes, or the greatest number of 64 bits.
    #[error("ImageTooLarge")]
    ImageTooLarge { bytes: u64 },
    /// Memory ran out, which says nothing of the objects.
    #[error("NoMemory")]
    NoMemory,
}

impl LinkRefusal {
    ghost use Rattle.linker.specs.Refusal.{number_of};

    /// The refusal's number, 38 to 42, and 0 for want of memory.
    pub fn number(&self) -> u8
        ensures { result ≡ number_of self.now }
    {
        match self {
            LinkRefusal::TooManyObjects { .. } => 41,
            LinkRefusal::Duplicate { .. } => 39,
            LinkRefusal::NoMain => 40,
            LinkRefusal::Undefined { .. } => 38,
            LinkRefusal::ImageTooLarge { .. } => 42,
            LinkRefusal::NoMemory => 0,
        }
    }
}

impl From<AllocError> for LinkRefusal {
    ghost from_gives = { λ _ e. e ≡ NoMemory };

    fn from(_e: AllocError) -> LinkRefusal {
        LinkRefusal::NoMemory
    }
}

impl<T: Drop> From<AllocFailed<T>> for LinkRefusal {
    ghost from_gives = { λ _ e. e ≡ NoMemory };

    fn from(_e: AllocFailed<T>) -> LinkRefusal {
        LinkRefusal::NoMemory
    }
}
