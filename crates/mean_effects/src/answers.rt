//! What a run answers to what its memory tells.

ghost use Rattle.std.specs.Prelude.{◌≡◌};
ghost use Rattle.mean_effects.specs.Answered as spec;

use crate::here::Here;
use crate::now::Ending;
use block_meaning::Reason;
use c_ast::Span;

/// By the reason against an access.
pub fn answered(h: Here, span: Span, why: Option<Reason>) -> Result<(), Ending>
    ensures { result ≡ spec.answered h.entry.unit span why }
{
    match why {
        Some(why) => Err(Ending::Undefined(why, h.unit, span)),
        None => Ok(()),
    }
}

/// By whether it was done.
pub fn done(it_was: bool) -> Result<(), Ending>
    ensures { result ≡ spec.done it_was }
{
    if it_was {
        Ok(())
    } else {
        Err(Ending::NoMemory)
    }
}
