//! Steps in expressions: what is evaluated or located first, and operators whose operands have their values.

ghost use Rattle.std.specs.Prelude.{◌≡◌, List};
ghost use Rattle.block_meaning.specs.Expressions.{same_truth};
ghost use Rattle.block_meaning.specs.Operators.{number_of_truth, on_values};
ghost use Rattle.block_meaning.specs.Running.{Context, State, unit_gives};
ghost use Rattle.mean_machine.specs.Evaluation as machine;
ghost use Rattle.mean_machine.specs.Execution.{enter};
ghost use Rattle.mean_machine.specs.Frames as waiting;
ghost use Rattle.mean_machine.specs.Going.{by, either, place, value, spend as spend_then};
ghost use Rattle.mean_effects.specs.Shown.{IsNow, IsHere};
ghost use Rattle.mean_expressions.specs.Stacked.{World, Stacked, Stands, operand_of, place_of};
ghost use Rattle.mean_effects.specs.declared.now.Now.{Now as Code};

use crate::frames::{Control, Frame, OperandFrame, PlaceFrame};
use block_meaning::{Pointer, Value};
use c_ast::UnaryOperator;
use c_type_base::TExpr;
use mean_effects::{
    Ending, Here, Now, Operation, is_true, number_of_truth as truth_value, on_values,
    second_effect, spend, unary_effect,
};

/// The operands of `&&` or `||`, and the truth of the first that decides.
#[derive(Clone, Copy)]
pub struct Logical<'a> {
    pub decides: bool,
    pub first: &'a TExpr,
    pub second: &'a TExpr,
}

/// The operands of `?:`.
#[derive(Clone, Copy)]
pub struct Choice<'a> {
    pub condition: &'a TExpr,
    pub first: &'a TExpr,
    pub second: &'a TExpr,
}

/// The operand of a frame is evaluated.
pub fn operand_first<'a>(
    stack: &mut Vec<Frame<'a>>,
    e: &'a TExpr,
    frame: OperandFrame<'a>,
) -> Result<Control<'a>, Ending>
    ensures { (n : Code) (w : World) (here : Context) (k : List waiting.Frame) (now : State) → Stacked k stack.old.items w here
        → IsNow n now → Stands n stack.new.items w here now result (machine.operand_first here k e.now (operand_of frame.entry) now) }
{
    match stack.push(Frame::OnOperand(frame)) {
        Ok(()) => Ok(Control::Evaluate(e.span, e)),
        Err(_) => Err(Ending::NoMemory),
    }
}

/// The place of an operand is found.
pub fn place_first<'a>(
    stack: &mut Vec<Frame<'a>>,
    e: &'a TExpr,
    frame: PlaceFrame<'a>,
) -> Result<Control<'a>, Ending>
    ensures { (n : Code) (w : World) (here : Context) (k : List waiting.Frame) (now : State) → Stacked k stack.old.items w here
        → IsNow n now → Stands n stack.new.items w here now result (machine.place_first here k e.now (place_of frame.entry) now) }
{
    match stack.push(Frame::OnPlace(frame)) {
        Ok(()) => Ok(Control::Locate(e)),
        Err(_) => Err(Ending::NoMemory),
    }
}

/// The operand of an operator has its value.
pub fn unary_given<'a>(
    n: &mut Now,
    h: Here<'a>,
    operator: UnaryOperator,
    e: &'a TExpr,
    v: Value,
) -> Result<Control<'a>, Ending>
    ensures { (w : World) (here : Context) (k : List waiting.Frame) (frames : List Frame) (now : State) → IsHere h.entry here
        → Stacked k frames w here → IsNow n.old now → Stands n.new frames w here now result
        (machine.operand_given enter here k (waiting.Unary operator e.now) v now) }
{
    match spend(n) {
        Ok(()) => match unary_effect(n, h, operator, e, v) {
            Ok(v) => Ok(Control::GivesValue(v)),
            Err(e) => Err(e),
        },
        Err(e) => Err(e),
    }
}

/// The first operand of `&&` or `||` has its value.
pub fn first_given<'a>(
    n: &mut Now,
    stack: &mut Vec<Frame<'a>>,
    h: Here<'a>,
    logical: Logical<'a>,
    v: Value,
) -> Result<Control<'a>, Ending>
    ensures { (w : World) (here : Context) (k : List waiting.Frame) (now : State) → IsHere h.entry here
        → Stacked k stack.old.items w here → IsNow n.old now → Stands n.new stack.new.items w here now result
        (machine.operand_given enter here k
        (waiting.LogicalFirst logical.entry.decides logical.entry.first.now logical.entry.second.now) v now) }
{
    match spend(n) {
        Ok(()) => match is_true(n, h, logical.first.span, v) {
            Ok(first) => decided(stack, logical, first),
            Err(e) => Err(e),
        },
        Err(e) => Err(e),
    }
}

/// The first operand decides, or the second is evaluated.
fn decided<'a>(
    stack: &mut Vec<Frame<'a>>,
    logical: Logical<'a>,
    first: bool,
) -> Result<Control<'a>, Ending>
    ensures { (n : Code) (w : World) (here : Context) (k : List waiting.Frame) (now : State) → Stacked k stack.old.items w here
        → IsNow n now → Stands n stack.new.items w here now result (either (same_truth first logical.entry.decides)
        (value here k (number_of_truth logical.entry.decides))
        (machine.operand_first here k logical.entry.second.now (waiting.LogicalSecond logical.entry.second.now)) now) }
{
    if first == logical.decides {
        Ok(Control::GivesValue(truth_value(logical.decides)))
    } else {
        operand_first(
            stack,
            logical.second,
            OperandFrame::LogicalSecond(logical.second),
        )
    }
}

/// The second operand of `&&` or `||` has its value.
pub fn second_given<'a>(
    n: &mut Now,
    h: Here<'a>,
    e: &'a TExpr,
    v: Value,
) -> Result<Control<'a>, Ending>
    ensures { (w : World) (here : Context) (k : List waiting.Frame) (frames : List Frame) (now : State) → IsHere h.entry here
        → Stacked k frames w here → IsNow n.old now → Stands n.new frames w here now result
        (machine.operand_given enter here k (waiting.LogicalSecond e.now) v now) }
{
    match second_effect(n, h, e, v) {
        Ok(v) => Ok(Control::GivesValue(v)),
        Err(e) => Err(e),
    }
}

/// Both operands of a binary operator have their values.
pub fn both_given<'a>(n: &mut Now, h: Here<'a>, o: Operation<'a>) -> Result<Control<'a>, Ending>
    ensures { (w : World) (here : Context) (k : List waiting.Frame) (frames : List Frame) (now : State) → IsHere h.entry here
        → Stacked k frames w here → IsNow n.old now → Stands n.new frames w here now result
        (spend_then (by (on_values here o.entry.span o.entry.operator o.entry.first_type.now o.entry.second_type.now
        o.entry.first o.entry.second) (value here k)) now) }
{
    match spend(n) {
        Ok(()) => match on_values(n, h, o) {
            Ok(v) => Ok(Control::GivesValue(v)),
            Err(e) => Err(e),
        },
        Err(e) => Err(e),
    }
}

/// A condition has its value, which chooses an expression.
pub fn condition_given<'a>(
    n: &mut Now,
    h: Here<'a>,
    choice: Choice<'a>,
    v: Value,
) -> Result<Control<'a>, Ending>
    ensures { (w : World) (here : Context) (k : List waiting.Frame) (frames : List Frame) (now : State) → IsHere h.entry here
        → Stacked k frames w here → IsNow n.old now → Stands n.new frames w here now result (machine.operand_given enter here k
        (waiting.Condition choice.entry.condition.now choice.entry.first.now choice.entry.second.now) v now) }
{
    match spend(n) {
        Ok(()) => match is_true(n, h, choice.condition.span, v) {
            Ok(true) => Ok(Control::Evaluate(choice.first.span, choice.first)),
            Ok(false) => Ok(Control::Evaluate(choice.second.span, choice.second)),
            Err(e) => Err(e),
        },
        Err(e) => Err(e),
    }
}

/// Spends a unit and has a value.
pub fn unit_value<'a>(n: &mut Now, v: Value) -> Result<Control<'a>, Ending>
    ensures { (w : World) (here : Context) (k : List waiting.Frame) (frames : List Frame) (now : State) → Stacked k frames w here
        → IsNow n.old now → Stands n.new frames w here now result (by (unit_gives v) (value here k) now) }
{
    match spend(n) {
        Ok(()) => Ok(Control::GivesValue(v)),
        Err(e) => Err(e),
    }
}

/// Spends a unit and has a place.
pub fn unit_place<'a>(n: &mut Now, p: Pointer) -> Result<Control<'a>, Ending>
    ensures { (w : World) (here : Context) (k : List waiting.Frame) (frames : List Frame) (now : State) → Stacked k frames w here
        → IsNow n.old now → Stands n.new frames w here now result (by (unit_gives p) (place here k) now) }
{
    match spend(n) {
        Ok(()) => Ok(Control::GivesPlace(p)),
        Err(e) => Err(e),
    }
}
