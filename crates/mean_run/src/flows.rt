//! What waited for the end of a statement.

ghost use Rattle.std.specs.Prelude.{◌≡◌, ◌∷◌, List};
ghost use Rattle.block_meaning.specs.Running.{Context, State};
ghost use Rattle.mean_machine.specs.Frames as waiting;
ghost use Rattle.mean_machine.specs.Steps.{resume};
ghost use Rattle.mean_effects.specs.Shown.{IsNow};
ghost use Rattle.mean_expressions.specs.Stacked.{FrameShown, IsAt, Stacked, flow_of};
ghost use Rattle.mean_run.specs.Processes.{Moves, world_of};

use crate::calls::leave_call;
use crate::process::Process;
use crate::scopes::leave_scope;
use mean_control::{after_body, after_item};
use mean_effects::Ending;
use mean_expressions::{Control, Flow, FlowFrame, Frame};

/// A statement has ended, for what waited on top of the stack and was taken from there.
pub fn flow_given<'a>(
    p: &mut Process<'a>,
    frame: FlowFrame<'a>,
    flow: Flow,
) -> Result<Control<'a>, Ending>
    ensures { (here : Context) (k : List waiting.Frame) (g : waiting.Frame) (now : State) → IsAt (world_of p.old) here → IsNow p.old.now now
        → FrameShown (Frame.OnFlow frame.entry) (world_of p.old) here g (Stacked k p.old.stack.items)
        → Moves p.new now result (resume (waiting.GivesFlow (flow_of flow)) here (g ∷ k) now) }
{
    match frame {
        FlowFrame::Items(items) => after_item(&mut p.stack, items, flow),
        FlowFrame::Scope(d) => leave_scope(p, d, flow),
        FlowFrame::Body(l) => after_body(&mut p.now, &mut p.stack, l, flow),
        FlowFrame::Called(outer, ty) => leave_call(p, outer, ty, flow),
    }
}
