//! The step of a run: what is next is done, or what was done is given to what waits for it.

ghost use Rattle.std.specs.Prelude.{◌≡◌, List, ◌∷◌};
ghost use Rattle.block_meaning.specs.Running.{Context, State};
ghost use Rattle.mean_machine.specs.Frames as waiting;
ghost use Rattle.mean_machine.specs.Steps as machine;
ghost use Rattle.mean_effects.specs.Shown.{IsNow};
ghost use Rattle.mean_expressions.specs.Stacked.{FrameShown, IsAt, Stacked, flow_of, standing};
ghost use Rattle.mean_run.specs.Processes.{IsProcess, Moves, world_of};

use crate::flows::flow_given;
use crate::process::Process;
use crate::scopes::execute;
use block_meaning::{Pointer, Value};
use mean_control::{declare, done_given, fill, value_given};
use mean_effects::Ending;
use mean_expressions::{Control, Flow, Frame, evaluate, locate, operand_given, place_given};

/// A value, for what waited on top of the stack and was taken from there.
fn value_for<'a>(p: &mut Process<'a>, frame: Frame<'a>, v: Value) -> Result<Control<'a>, Ending>
    ensures { (here : Context) (k : List waiting.Frame) (g : waiting.Frame) (now : State) → IsAt (world_of p.old) here → IsNow p.old.now now
        → FrameShown frame.entry (world_of p.old) here g (Stacked k p.old.stack.items)
        → Moves p.new now result (machine.resume (waiting.GivesValue v) here (g ∷ k) now) }
{
    match frame {
        Frame::OnOperand(frame) => operand_given(&mut p.now, &mut p.stack, p.here, frame, v),
        Frame::OnValue(frame) => value_given(&mut p.now, &mut p.stack, p.here, frame, v),
        _ => Err(Ending::NoMemory),
    }
}

/// A value is given to what waits for it.
fn give_value<'a>(p: &mut Process<'a>, v: Value) -> Result<Control<'a>, Ending>
    ensures { (here : Context) (k : List waiting.Frame) (now : State) → IsProcess p.old here k now
        → Moves p.new now result (machine.resume (waiting.GivesValue v) here k now) }
{
    match p.stack.pop() {
        Some(frame) => value_for(p, frame, v),
        None => Err(Ending::NoMemory),
    }
}

/// A place is given to what waits for it.
fn give_place<'a>(p: &mut Process<'a>, at: Pointer) -> Result<Control<'a>, Ending>
    ensures { (here : Context) (k : List waiting.Frame) (now : State) → IsProcess p.old here k now
        → Moves p.new now result (machine.resume (waiting.GivesPlace at) here k now) }
{
    match p.stack.pop() {
        Some(Frame::OnPlace(frame)) => place_given(&mut p.now, &mut p.stack, p.here, frame, at),
        _ => Err(Ending::NoMemory),
    }
}

/// The end of a statement is given to what waits for it.
fn give_flow<'a>(p: &mut Process<'a>, flow: Flow) -> Result<Control<'a>, Ending>
    ensures { (here : Context) (k : List waiting.Frame) (now : State) → IsProcess p.old here k now
        → Moves p.new now result (machine.resume (waiting.GivesFlow (flow_of flow)) here k now) }
{
    match p.stack.pop() {
        Some(Frame::OnFlow(frame)) => flow_given(p, frame, flow),
        _ => Err(Ending::NoMemory),
    }
}

/// What waits goes on after a declaration or an initialiser.
fn give_end<'a>(p: &mut Process<'a>) -> Result<Control<'a>, Ending>
    ensures { (here : Context) (k : List waiting.Frame) (now : State) → IsProcess p.old here k now
        → Moves p.new now result (machine.resume waiting.Finished here k now) }
{
    match p.stack.pop() {
        Some(Frame::OnDone(frame)) => done_given(&mut p.now, &mut p.stack, p.here, frame),
        _ => Err(Ending::NoMemory),
    }
}

/// Does one step, but for a call.
pub fn step<'a>(p: &mut Process<'a>, control: Control<'a>) -> Result<Control<'a>, Ending>
    ensures { (here : Context) (k : List waiting.Frame) (now : State) → IsProcess p.old here k now
        → Moves p.new now result (machine.step (standing control.entry here k now)) }
{
    match control {
        Control::Evaluate(around, e) => evaluate(&mut p.now, &mut p.stack, p.here, around, e),
        Control::Locate(e) => locate(&mut p.now, &mut p.stack, p.here, p.locals.as_slice(), e),
        Control::Execute(s) => execute(p, s),
        Control::Declare(declarations) => declare(
            &mut p.now,
            &mut p.stack,
            p.here,
            p.locals.as_slice(),
            declarations,
        ),
        Control::Fill(o, i) => fill(&mut p.now, &mut p.stack, p.here, o, i),
        Control::GivesValue(v) => give_value(p, v),
        Control::GivesPlace(at) => give_place(p, at),
        Control::GivesFlow(flow) => give_flow(p, flow),
        Control::Finished => give_end(p),
        Control::Call(_, _, _) => Err(Ending::NoMemory),
    }
}
