ghost use Rattle.std.specs.Prelude.{◌≡◌};
ghost use Rattle.frame_plan.specs.declared.refusal.PlanRefusal.TheVariants.{NoMemory};

use c_ast::Span;
use std::alloc::{AllocError, AllocFailed};
use thiserror::Error;

/// Why a program has no lines.
#[derive(Clone, Copy, Debug, Error)]
pub enum PlanRefusal {
    /// It defines more than 512 functions, so many.
    #[error("TooManyFunctions")]
    TooManyFunctions {
        count: u64,
    },
    /// The frame of a function would have more than 262,144 bytes: so many, or the greatest number if they are more.
    #[error("FrameTooLarge")]
    FrameTooLarge {
        bytes: u64,
        /// Of the function's definition.
        span: Span,
    },
    /// Memory ran out, which says nothing of the program.
    #[error("NoMemory")]
    NoMemory,
}

impl PlanRefusal {
    ghost use Rattle.std.specs.Prelude.{◌≡◌};
    ghost use Rattle.frame_plan.specs.Refusal.{number_of, place_of};

    /// The refusal's number, 22 or 23, and 0 for want of memory.
    pub fn number(&self) -> u8
        ensures { result ≡ number_of self.now }
    {
        match self {
            PlanRefusal::TooManyFunctions { .. } => 23,
            PlanRefusal::FrameTooLarge { .. } => 22,
            PlanRefusal::NoMemory => 0,
        }
    }

    /// The byte of the source that is told of it: where the function starts, and 0 where none is told.
    pub fn place(&self) -> u32
        ensures { result ≡ place_of self.now }
    {
        match self {
            PlanRefusal::FrameTooLarge { span, .. } => span.start,
            PlanRefusal::TooManyFunctions { .. } | PlanRefusal::NoMemory => 0,
        }
    }
}

impl From<AllocError> for PlanRefusal {
    ghost from_gives = { λ _ e. e ≡ NoMemory };

    fn from(_e: AllocError) -> PlanRefusal {
        PlanRefusal::NoMemory
    }
}

impl<T: Drop> From<AllocFailed<T>> for PlanRefusal {
    ghost from_gives = { λ _ e. e ≡ NoMemory };

    fn from(_e: AllocFailed<T>) -> PlanRefusal {
        PlanRefusal::NoMemory
    }
}
