// Why a source is refused.

use c_lex::LexRefusal;
use c_parse::ParseRefusal;
use c_types::TypeRefusal;
use frame_plan::PlanRefusal;
use std::alloc::AllocError;
use thiserror::Error;

/// Why a source is refused. A refusal inside is never the want of memory.
#[derive(Debug, Drop, Error)]
pub enum CompileRefusal {
    /// Its text is too long, or not gaps and tokens in turn.
    #[error("{0}")]
    Lex(LexRefusal),
    /// Its tokens spell no program that is read.
    #[error("{0}")]
    Parse(ParseRefusal),
    /// Its program breaks a rule on types.
    #[error("{0}")]
    Types(TypeRefusal),
    /// Its program has too many functions, or a frame that is too large.
    #[error("{0}")]
    Plan(PlanRefusal),
    /// Its program is not of the form that is compiled today.
    #[error("NotYet")]
    NotYet,
    /// Want of memory.
    #[error("NoMemory")]
    NoMemory,
}

impl CompileRefusal {
    ghost use Rattle.std.specs.Prelude.{◌≡◌};
    ghost use Rattle.mt_compile.specs.Refused.{number_of};

    /// The refusal's number, and 0 for want of memory.
    pub fn number(&self) -> u8
        ensures { result ≡ number_of self.now }
    {
        match self {
            CompileRefusal::Lex(refusal) => refusal.number(),
            CompileRefusal::Parse(refusal) => refusal.number(),
            CompileRefusal::Types(refusal) => refusal.number(),
            CompileRefusal::Plan(refusal) => refusal.number(),
            CompileRefusal::NotYet => 44,
            CompileRefusal::NoMemory => 0,
        }
    }
}

impl From<AllocError> for CompileRefusal {
    ghost use Rattle.std.specs.Prelude.{◌≡◌};
    ghost use Rattle.mt_compile.specs.declared.refusal.CompileRefusal.TheVariants.{NoMemory};

    ghost from_gives = { λ _ refusal. refusal ≡ NoMemory };

    fn from(_: AllocError) -> CompileRefusal {
        CompileRefusal::NoMemory
    }
}
