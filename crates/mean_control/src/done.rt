//! What waits for the end of a declaration or of an initialiser.

ghost use Rattle.std.specs.Prelude.{List};
ghost use Rattle.block_meaning.specs.Running.{Context, State};
ghost use Rattle.mean_machine.specs.Execution as machine;
ghost use Rattle.mean_machine.specs.Frames as waiting;
ghost use Rattle.mean_effects.specs.Shown.{IsNow, IsHere};
ghost use Rattle.mean_expressions.specs.Stacked.{World, Stacked, Stands, done_of};

use crate::initialising::{elements, members};
use crate::loops::effect_then_turn;
use mean_effects::{Ending, Here, Now};
use mean_expressions::{Control, DoneFrame, Flow, Frame, Loop};

/// A declaration or an initialiser has ended.
pub fn done_given<'a>(
    n: &mut Now,
    stack: &mut Vec<Frame<'a>>,
    h: Here<'a>,
    frame: DoneFrame<'a>,
) -> Result<Control<'a>, Ending>
    ensures { (w : World) (here : Context) (k : List waiting.Frame) (now : State) → IsHere h.entry here → Stacked k stack.old.items w here
        → IsNow n.old now → Stands n.new stack.new.items w here now result (machine.done_given here k (done_of frame.entry) now) }
{
    match frame {
        DoneFrame::Declared(declarations) => Ok(Control::Declare(declarations)),
        DoneFrame::AfterDeclarations => Ok(Control::GivesFlow(Flow::Next)),
        DoneFrame::ForDeclared(heading, s) => {
            effect_then_turn(n, stack, Loop::For(heading, s), heading.first)
        }
        DoneFrame::Elements(first, number, list) => elements(stack, h, first, number, list),
        DoneFrame::Members(p, infos, list) => members(stack, p, infos, list),
    }
}
