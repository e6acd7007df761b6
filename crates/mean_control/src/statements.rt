//! The steps in statements that stay in their scope.

ghost use Rattle.std.specs.Prelude.{◌≡◌, List, Option, option_copied};
ghost use Rattle.block_meaning.specs.Running.{Context, State};
ghost use Rattle.c_type_base.specs.declared.statement.TItem.{out-TItem};
ghost use Rattle.c_type_base.specs.declared.statement.TStmt.{out-TStmt};
ghost use Rattle.mean_machine.specs.Execution as machine;
ghost use Rattle.mean_machine.specs.Frames as waiting;
ghost use Rattle.mean_effects.specs.Shown.{IsNow};
ghost use Rattle.mean_expressions.specs.Stacked.{World, Stacked, Stands, value_frame_of, flow_of, loop_of};
ghost use Rattle.mean_effects.specs.declared.now.Now.{Now as Code};

use crate::loops::{after_turn, turn};
use block_meaning::Value;
use c_type_base::{TExpr, TItem, TStmt};
use mean_effects::{Ending, Now};
use mean_expressions::{Control, DoneFrame, Flow, FlowFrame, Frame, Loop, ValueFrame};
use sqlite_items::Boxed;

/// An expression is evaluated for a frame.
pub fn value_first<'a>(
    stack: &mut Vec<Frame<'a>>,
    e: &'a TExpr,
    frame: ValueFrame<'a>,
) -> Result<Control<'a>, Ending>
    ensures { (n : Code) (w : World) (here : Context) (k : List waiting.Frame) (now : State) → Stacked k stack.old.items w here
        → IsNow n now → Stands n stack.new.items w here now result (machine.value_first here k e.now (value_frame_of frame.entry) now) }
{
    match stack.push(Frame::OnValue(frame)) {
        Ok(()) => Ok(Control::Evaluate(e.span, e)),
        Err(_) => Err(Ending::NoMemory),
    }
}

/// A part of a block.
fn item<'a>(stack: &mut Vec<Frame<'a>>, i: &'a TItem) -> Result<Control<'a>, Ending>
    ensures { (n : Code) (w : World) (here : Context) (k : List waiting.Frame) (now : State) → Stacked k stack.old.items w here
        → IsNow n now → Stands n stack.new.items w here now result (machine.item here k (out-TItem i.now) now) }
{
    match i {
        TItem::Local(declarations) => {
            match stack.push(Frame::OnDone(DoneFrame::AfterDeclarations)) {
                Ok(()) => Ok(Control::Declare(declarations.as_slice())),
                Err(_) => Err(Ending::NoMemory),
            }
        }
        TItem::Stmt(s) => Ok(Control::Execute(s)),
    }
}

/// The parts of a block, in order.
pub fn sequence<'a>(stack: &mut Vec<Frame<'a>>, items: &'a [TItem]) -> Result<Control<'a>, Ending>
    ensures { (n : Code) (w : World) (here : Context) (k : List waiting.Frame) (now : State) → Stacked k stack.old.items w here
        → IsNow n now → Stands n stack.new.items w here now result (machine.sequence here k items.now now) }
{
    match items {
        [] => Ok(Control::GivesFlow(Flow::Next)),
        [first, rest @ ..] => match stack.push(Frame::OnFlow(FlowFrame::Items(rest))) {
            Ok(()) => item(stack, first),
            Err(_) => Err(Ending::NoMemory),
        },
    }
}

/// The statement behind `else`.
fn other_of<'a>(other: &'a Option<Boxed<TStmt>>) -> Option<&'a TStmt>
    ensures { option_copied result ≡ other.now }
{
    match other {
        Some(s) => Some(s.get()),
        None => None,
    }
}

/// A statement; one that opens a scope is not done here.
pub fn execute_plain<'a>(
    n: &mut Now,
    stack: &mut Vec<Frame<'a>>,
    s: &'a TStmt,
) -> Result<Control<'a>, Ending>
    ensures { (w : World) (here : Context) (k : List waiting.Frame) (now : State) → Stacked k stack.old.items w here → IsNow n.old now
        → Stands n.new stack.new.items w here now result (machine.execute here k (out-TStmt s.now) now) }
{
    match s {
        TStmt::Expr(e) => value_first(stack, e, ValueFrame::Effect),
        TStmt::Empty => Ok(Control::GivesFlow(Flow::Next)),
        TStmt::If(e, then, other) => {
            value_first(stack, e, ValueFrame::IfTest(e, then.get(), other_of(other)))
        }
        TStmt::While(e, body) => turn(n, stack, Loop::While(e, body.get())),
        TStmt::DoWhile(body, e) => turn(n, stack, Loop::DoWhile(body.get(), e)),
        TStmt::Return(None, _) => Ok(Control::GivesFlow(Flow::Returned(Value::NoValue))),
        TStmt::Return(Some(e), _) => value_first(stack, e, ValueFrame::Return),
        TStmt::Break(_) => Ok(Control::GivesFlow(Flow::Broke)),
        TStmt::Continue(_) => Ok(Control::GivesFlow(Flow::Continued)),
        _ => Err(Ending::NoMemory),
    }
}

/// A part of a block has ended.
pub fn after_item<'a>(
    stack: &mut Vec<Frame<'a>>,
    items: &'a [TItem],
    flow: Flow,
) -> Result<Control<'a>, Ending>
    ensures { (n : Code) (w : World) (here : Context) (k : List waiting.Frame) (now : State) → Stacked k stack.old.items w here
        → IsNow n now → Stands n stack.new.items w here now result (machine.after_item here k items.now (flow_of flow) now) }
{
    match flow {
        Flow::Next => sequence(stack, items),
        _ => Ok(Control::GivesFlow(flow)),
    }
}

/// The body of a loop has ended.
pub fn after_body<'a>(
    n: &mut Now,
    stack: &mut Vec<Frame<'a>>,
    l: Loop<'a>,
    flow: Flow,
) -> Result<Control<'a>, Ending>
    ensures { (w : World) (here : Context) (k : List waiting.Frame) (now : State) → Stacked k stack.old.items w here → IsNow n.old now
        → Stands n.new stack.new.items w here now result (machine.flow_given here k (waiting.Body (loop_of l.entry)) (flow_of flow) now) }
{
    match flow {
        Flow::Next | Flow::Continued => after_turn(n, stack, l),
        Flow::Broke => Ok(Control::GivesFlow(Flow::Next)),
        Flow::Returned(v) => Ok(Control::GivesFlow(Flow::Returned(v))),
    }
}
