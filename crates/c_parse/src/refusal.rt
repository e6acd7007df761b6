//! Why tokens are refused.

use thiserror::Error;

/// Why a list of tokens is no program that is taken. A place is the number of tokens before it.
#[derive(Debug, Drop, Error)]
pub enum ParseRefusal {
    /// No program begins with the tokens up to and including this one, or the tokens end too early.
    #[error("Unexpected")]
    Unexpected { place: u32 },
    /// A program begins with the tokens up to and including this one, and each that does has more than 200 levels.
    #[error("TooDeep")]
    TooDeep { place: u32 },
    /// Memory ran out, which says nothing of the tokens.
    #[error("NoMemory")]
    NoMemory,
}

impl ParseRefusal {
    ghost use Rattle.std.specs.Prelude.{◌≡◌};
    ghost use Rattle.c_parse.specs.Refusal.{number_of, place_of};

    /// The refusal's number, 7 or 8, and 0 for want of memory.
    pub fn number(&self) -> u8
        ensures { result ≡ number_of self.now }
    {
        match self {
            ParseRefusal::Unexpected { .. } => 7,
            ParseRefusal::TooDeep { .. } => 8,
            ParseRefusal::NoMemory => 0,
        }
    }

    /// How many tokens stand before the one that the refusal names, and 0 where it names none.
    pub fn place(&self) -> u32
        ensures { result ≡ place_of self.now }
    {
        match self {
            ParseRefusal::Unexpected { place } | ParseRefusal::TooDeep { place } => *place,
            ParseRefusal::NoMemory => 0,
        }
    }
}
