//! What nodes of expressions do with the values of their operands.

ghost use Rattle.std.specs.Prelude.{◌≡◌, Option, not};
ghost use Rattle.block_meaning.specs.Operators as spec;
ghost use Rattle.block_meaning.specs.Running.{Context, State, unit_gives};
ghost use Rattle.mean_effects.specs.Shown.{IsNow, IsHere, Gives};
ghost use Rattle.mean_effects.specs.declared.now.Now.{Now as Code};

use crate::here::Here;
use crate::now::{Ending, Now};
use block_meaning::{Reason, Value};
use c_ast::Span;
use mean_memory::number_in;

/// Spends a unit of work.
pub fn spend(n: &mut Now) -> Result<(), Ending>
    ensures { (now : State) → IsNow n.old now → Gives n.new now result (unit_gives tt now) }
{
    if n.work == 0 {
        return Err(Ending::More);
    }
    n.work -= 1;
    Ok(())
}

/// A comparison, or its end where it is undefined.
pub fn comparison(h: Here, span: Span, b: Option<bool>) -> Result<bool, Ending>
    ensures { (here : Context) (n : Code) (now : State) → IsHere h.entry here → IsNow n now
        → Gives n now result (spec.comparison here span b now) }
{
    match b {
        Some(b) => Ok(b),
        None => Err(Ending::Undefined(Reason::Compare, h.unit, span)),
    }
}

/// A value as a condition.
pub fn is_true(n: &mut Now, h: Here, span: Span, v: Value) -> Result<bool, Ending>
    ensures { (here : Context) (now : State) → IsHere h.entry here → IsNow n.old now
        → Gives n.new now result (spec.is_true here span v now) }
{
    match v {
        Value::Address(p) => comparison(h, span, n.memory.pointer_truth(p)),
        _ => Ok(number_in(v) != 0),
    }
}
