//! What can be wrong with a text.

use thiserror::Error;

/// What is wrong at a byte of a text.
#[derive(Clone, Copy, Debug)]
pub enum Fault {
    /// A byte that begins no token, or that may not stand in the token that it is in.
    BadByte,
    /// A character or a string that a newline or the end cuts off, at its opening quote.
    UnclosedText,
    /// A comment without an end, at its first byte.
    UnclosedComment,
    /// A number that no type of its list holds, at its first byte, or an escape over 255, at its backslash.
    NumberTooLarge,
    /// A line that begins with `#` and is not the one directive, at the `#`.
    BadDirective,
}

/// Why a text is not gaps and tokens in turn: its first fault, at the first place where neither a gap nor a token stands,
/// with the number of the byte that the fault names, from 0.
#[derive(Debug, Drop, Error)]
pub enum LexRefusal {
    #[error("BadByte")]
    BadByte { at: u32 },
    #[error("UnclosedText")]
    UnclosedText { at: u32 },
    #[error("UnclosedComment")]
    UnclosedComment { at: u32 },
    #[error("NumberTooLarge")]
    NumberTooLarge { at: u32 },
    #[error("BadDirective")]
    BadDirective { at: u32 },
    /// The text has more than 65,536 bytes.
    #[error("TextTooLong")]
    TextTooLong,
    /// Memory ran out, which says nothing of the text.
    #[error("NoMemory")]
    NoMemory,
}

impl LexRefusal {
    ghost use Rattle.std.specs.Prelude.{◌≡◌};
    ghost use Rattle.c_lex.specs.Refusal.{number_of, place_of};

    /// The refusal's number, 1 to 6 in the order above, and 0 for want of memory.
    pub fn number(&self) -> u8
        ensures { result ≡ number_of self.now }
    {
        match self {
            LexRefusal::BadByte { .. } => 1,
            LexRefusal::UnclosedText { .. } => 2,
            LexRefusal::UnclosedComment { .. } => 3,
            LexRefusal::NumberTooLarge { .. } => 4,
            LexRefusal::BadDirective { .. } => 5,
            LexRefusal::TextTooLong => 6,
            LexRefusal::NoMemory => 0,
        }
    }

    /// The byte that the refusal names, and 0 where it names none.
    pub fn place(&self) -> u32
        ensures { result ≡ place_of self.now }
    {
        match self {
            LexRefusal::BadByte { at }
            | LexRefusal::UnclosedText { at }
            | LexRefusal::UnclosedComment { at }
            | LexRefusal::NumberTooLarge { at }
            | LexRefusal::BadDirective { at } => *at,
            LexRefusal::TextTooLong | LexRefusal::NoMemory => 0,
        }
    }
}

impl Fault {
    ghost use Rattle.std.specs.Prelude.{◌≡◌};
    ghost use Rattle.c_lex.specs.Refusal.{refusal_of};

    /// The refusal for this fault at a byte.
    pub fn refusal(self, at: u32) -> LexRefusal
        ensures { result ≡ refusal_of self at }
    {
        match self {
            Fault::BadByte => LexRefusal::BadByte { at },
            Fault::UnclosedText => LexRefusal::UnclosedText { at },
            Fault::UnclosedComment => LexRefusal::UnclosedComment { at },
            Fault::NumberTooLarge => LexRefusal::NumberTooLarge { at },
            Fault::BadDirective => LexRefusal::BadDirective { at },
        }
    }
}
