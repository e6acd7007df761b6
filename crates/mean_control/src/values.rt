//! What parts of statements and of initialisers do with their values.

ghost use Rattle.std.specs.Prelude.{◌≡◌, List, option_copied};
ghost use Rattle.block_meaning.specs.Running.{Context, State};
ghost use Rattle.block_meaning.specs.Statements as meaning;
ghost use Rattle.mean_machine.specs.Execution as machine;
ghost use Rattle.mean_machine.specs.Frames as waiting;
ghost use Rattle.mean_machine.specs.Going.{either, flow};
ghost use Rattle.mean_effects.specs.Shown.{IsNow, IsHere, Gives};
ghost use Rattle.mean_effects.specs.Objects.{object_of};
ghost use Rattle.mean_expressions.specs.Stacked.{World, Stacked, Stands, loop_of, standing, value_frame_of};

use crate::loops::{holding, turn};
use block_meaning::Value;
use c_type_base::{TExpr, TStmt};
use mean_effects::{Copy, Ending, Here, Now, Object, copy_struct, is_true, write};
use mean_expressions::{Control, Flow, Frame, Loop, ValueFrame};
use mean_memory::pointer_in;

/// An `if` whose condition is evaluated.
#[derive(Clone, Copy)]
pub struct Branches<'a> {
    pub condition: &'a TExpr,
    pub then: &'a TStmt,
    /// The statement behind `else`.
    pub other: Option<&'a TStmt>,
}

/// The statement of an `if` that is executed, or what follows where there is none.
fn branch<'a>(b: Branches<'a>, holds: bool) -> Control<'a>
    ensures { (here : Context) (k : List waiting.Frame) (now : State)
        → either holds (waiting.Runs (waiting.Execute b.entry.then.now) here k)
        (machine.else_part here k (option_copied b.entry.other)) now ≡ standing result here k now }
{
    if holds {
        return Control::Execute(b.then);
    }
    match b.other {
        Some(s) => Control::Execute(s),
        None => Control::GivesFlow(Flow::Next),
    }
}

/// The condition of an `if` has its value.
fn if_given<'a>(n: &mut Now, h: Here<'a>, b: Branches<'a>, v: Value) -> Result<Control<'a>, Ending>
    ensures { (w : World) (here : Context) (k : List waiting.Frame) (frames : List Frame) (now : State) → IsHere h.entry here
        → Stacked k frames w here → IsNow n.old now → Stands n.new frames w here now result (machine.value_given here k
        (waiting.IfTest b.entry.condition.now b.entry.then.now (option_copied b.entry.other)) v now) }
{
    match is_true(n, h, b.condition.span, v) {
        Ok(holds) => Ok(branch(b, holds)),
        Err(e) => Err(e),
    }
}

/// A loop whose condition is evaluated.
#[derive(Clone, Copy)]
pub struct Tested<'a> {
    pub of: Loop<'a>,
    pub condition: &'a TExpr,
}

/// A loop goes on where its condition holds, and else ends.
fn after_test<'a>(
    n: &mut Now,
    stack: &mut Vec<Frame<'a>>,
    l: Loop<'a>,
    holds: bool,
) -> Result<Control<'a>, Ending>
    ensures { (w : World) (here : Context) (k : List waiting.Frame) (now : State) → Stacked k stack.old.items w here → IsNow n.old now
        → Stands n.new stack.new.items w here now result
        (either holds (machine.holding here k (loop_of l.entry)) (flow here k meaning.Next) now) }
{
    if holds {
        holding(n, stack, l)
    } else {
        Ok(Control::GivesFlow(Flow::Next))
    }
}

/// The condition of a loop has its value.
fn test_given<'a>(
    n: &mut Now,
    stack: &mut Vec<Frame<'a>>,
    h: Here<'a>,
    t: Tested<'a>,
    v: Value,
) -> Result<Control<'a>, Ending>
    ensures { (w : World) (here : Context) (k : List waiting.Frame) (now : State) → IsHere h.entry here → Stacked k stack.old.items w here
        → IsNow n.old now → Stands n.new stack.new.items w here now result
        (machine.value_given here k (waiting.Test (loop_of t.entry.of) t.entry.condition.now) v now) }
{
    match is_true(n, h, t.condition.span, v) {
        Ok(holds) => after_test(n, stack, t.of, holds),
        Err(e) => Err(e),
    }
}

/// An object becomes a copy of the struct of a value.
fn struct_copied(n: &mut Now, h: Here, o: Object, e: &TExpr, v: Value) -> Result<(), Ending>
    ensures { (here : Context) (now : State) → IsHere h.entry here → IsNow n.old now
        → Gives n.new now result (machine.struct_filled here (object_of o.entry) e.now v now) }
{
    let source = Object {
        ty: o.ty,
        at: pointer_in(v),
    };
    copy_struct(
        n,
        h,
        Copy {
            source,
            target: o,
            source_span: e.span,
            target_span: e.span,
            span: e.span,
        },
    )
}

/// The struct is known that an object is initialised with.
fn struct_given<'a>(
    n: &mut Now,
    h: Here<'a>,
    o: Object<'a>,
    e: &'a TExpr,
    v: Value,
) -> Result<Control<'a>, Ending>
    ensures { (w : World) (here : Context) (k : List waiting.Frame) (frames : List Frame) (now : State) → IsHere h.entry here
        → Stacked k frames w here → IsNow n.old now → Stands n.new frames w here now result
        (machine.value_given here k (waiting.FillStruct (object_of o.entry) e.now) v now) }
{
    match struct_copied(n, h, o, e, v) {
        Ok(()) => Ok(Control::Finished),
        Err(e) => Err(e),
    }
}

/// The value is known that an object is initialised with.
fn scalar_given<'a>(
    n: &mut Now,
    h: Here<'a>,
    o: Object<'a>,
    e: &'a TExpr,
    v: Value,
) -> Result<Control<'a>, Ending>
    ensures { (w : World) (here : Context) (k : List waiting.Frame) (frames : List Frame) (now : State) → IsHere h.entry here
        → Stacked k frames w here → IsNow n.old now → Stands n.new frames w here now result
        (machine.value_given here k (waiting.FillScalar (object_of o.entry) e.now) v now) }
{
    match write(n, h, e.span, o, v) {
        Ok(()) => Ok(Control::Finished),
        Err(e) => Err(e),
    }
}

/// A part of a statement or of an initialiser has its value.
pub fn value_given<'a>(
    n: &mut Now,
    stack: &mut Vec<Frame<'a>>,
    h: Here<'a>,
    frame: ValueFrame<'a>,
    v: Value,
) -> Result<Control<'a>, Ending>
    ensures { (w : World) (here : Context) (k : List waiting.Frame) (now : State) → IsHere h.entry here → Stacked k stack.old.items w here
        → IsNow n.old now → Stands n.new stack.new.items w here now result
        (machine.value_given here k (value_frame_of frame.entry) v now) }
{
    match frame {
        ValueFrame::Effect => Ok(Control::GivesFlow(Flow::Next)),
        ValueFrame::Drop => Ok(Control::Finished),
        ValueFrame::IfTest(condition, then, other) => {
            if_given(
                n,
                h,
                Branches {
                    condition,
                    then,
                    other,
                },
                v,
            )
        }
        ValueFrame::Test(of, condition) => test_given(n, stack, h, Tested { of, condition }, v),
        ValueFrame::ThenTurn(l) => turn(n, stack, l),
        ValueFrame::Return => Ok(Control::GivesFlow(Flow::Returned(v))),
        ValueFrame::FillStruct(o, e) => struct_given(n, h, o, e, v),
        ValueFrame::FillScalar(o, e) => scalar_given(n, h, o, e, v),
    }
}
