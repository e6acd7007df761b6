//! Loops. A turn spends a unit of work at its start.

ghost use Rattle.std.specs.Prelude.{◌∷◌, List, option_copied};
ghost use Rattle.mean_control.specs.Turns.{turn_after};
ghost use Rattle.block_meaning.specs.Running.{Context, State};
ghost use Rattle.mean_machine.specs.Execution as machine;
ghost use Rattle.mean_machine.specs.Frames as waiting;
ghost use Rattle.mean_effects.specs.Shown.{IsNow};
ghost use Rattle.mean_expressions.specs.Stacked.{World, Stacked, Stands, loop_of, heading_of};
ghost use Rattle.mean_effects.specs.declared.now.Now.{Now as Code};

use crate::statements::value_first;
use c_type_base::{TExpr, TStmt};
use mean_effects::{Ending, Now, spend};
use mean_expressions::{Control, FlowFrame, Frame, Heading, Loop, ValueFrame};

/// The body of a loop is executed.
fn body_first<'a>(
    stack: &mut Vec<Frame<'a>>,
    s: &'a TStmt,
    l: Loop<'a>,
) -> Result<Control<'a>, Ending>
    ensures { (n : Code) (w : World) (here : Context) (k : List waiting.Frame) (now : State) → Stacked k stack.old.items w here
        → IsNow n now → Stands n stack.new.items w here now result
        (waiting.Runs (waiting.Execute s.now) here (waiting.OnFlow (waiting.Body (loop_of l.entry)) ∷ k) now) }
{
    match stack.push(Frame::OnFlow(FlowFrame::Body(l))) {
        Ok(()) => Ok(Control::Execute(s)),
        Err(_) => Err(Ending::NoMemory),
    }
}

/// The condition of a `for`, if it has one, and else its body.
fn test_or_body<'a>(
    stack: &mut Vec<Frame<'a>>,
    h: Heading<'a>,
    s: &'a TStmt,
) -> Result<Control<'a>, Ending>
    ensures { (n : Code) (w : World) (here : Context) (k : List waiting.Frame) (now : State) → Stacked k stack.old.items w here
        → IsNow n now → Stands n stack.new.items w here now result
        (machine.test here k (waiting.For (heading_of h.entry) s.now) (heading_of h.entry).condition
        (waiting.Runs (waiting.Execute s.now) here (waiting.OnFlow (waiting.Body (waiting.For (heading_of h.entry) s.now)) ∷ k)) now) }
{
    match h.condition {
        Some(e) => value_first(stack, e, ValueFrame::Test(Loop::For(h, s), e)),
        None => body_first(stack, s, Loop::For(h, s)),
    }
}

/// What comes first in a turn, after its unit.
fn turn_begun<'a>(stack: &mut Vec<Frame<'a>>, l: Loop<'a>) -> Result<Control<'a>, Ending>
    ensures { (n : Code) (w : World) (here : Context) (k : List waiting.Frame) (now : State) → Stacked k stack.old.items w here
        → IsNow n now → Stands n stack.new.items w here now result (turn_after here k (loop_of l.entry) now) }
{
    match l {
        Loop::While(e, _) => value_first(stack, e, ValueFrame::Test(l, e)),
        Loop::DoWhile(s, _) => body_first(stack, s, l),
        Loop::For(h, s) => test_or_body(stack, h, s),
    }
}

/// A turn of a loop begins.
pub fn turn<'a>(n: &mut Now, stack: &mut Vec<Frame<'a>>, l: Loop<'a>) -> Result<Control<'a>, Ending>
    ensures { (w : World) (here : Context) (k : List waiting.Frame) (now : State) → Stacked k stack.old.items w here → IsNow n.old now
        → Stands n.new stack.new.items w here now result (machine.turn here k (loop_of l.entry) now) }
{
    match spend(n) {
        Ok(()) => turn_begun(stack, l),
        Err(e) => Err(e),
    }
}

/// The condition of a loop holds.
pub fn holding<'a>(
    n: &mut Now,
    stack: &mut Vec<Frame<'a>>,
    l: Loop<'a>,
) -> Result<Control<'a>, Ending>
    ensures { (w : World) (here : Context) (k : List waiting.Frame) (now : State) → Stacked k stack.old.items w here → IsNow n.old now
        → Stands n.new stack.new.items w here now result (machine.holding here k (loop_of l.entry) now) }
{
    match l {
        Loop::While(_, s) => body_first(stack, s, l),
        Loop::DoWhile(_, _) => turn(n, stack, l),
        Loop::For(_, s) => body_first(stack, s, l),
    }
}

/// An expression, if there is one, and then a turn.
pub fn effect_then_turn<'a>(
    n: &mut Now,
    stack: &mut Vec<Frame<'a>>,
    l: Loop<'a>,
    e: Option<&'a TExpr>,
) -> Result<Control<'a>, Ending>
    ensures { (w : World) (here : Context) (k : List waiting.Frame) (now : State) → Stacked k stack.old.items w here → IsNow n.old now
        → Stands n.new stack.new.items w here now result
        (machine.effect_then_turn here k (loop_of l.entry) (option_copied e.entry) now) }
{
    match e {
        Some(e) => value_first(stack, e, ValueFrame::ThenTurn(l)),
        None => turn(n, stack, l),
    }
}

/// A loop goes on after its body.
pub fn after_turn<'a>(
    n: &mut Now,
    stack: &mut Vec<Frame<'a>>,
    l: Loop<'a>,
) -> Result<Control<'a>, Ending>
    ensures { (w : World) (here : Context) (k : List waiting.Frame) (now : State) → Stacked k stack.old.items w here → IsNow n.old now
        → Stands n.new stack.new.items w here now result (machine.after_turn here k (loop_of l.entry) now) }
{
    match l {
        Loop::While(_, _) => turn(n, stack, l),
        Loop::DoWhile(_, e) => value_first(stack, e, ValueFrame::Test(l, e)),
        Loop::For(h, _) => effect_then_turn(n, stack, l, h.next),
    }
}
