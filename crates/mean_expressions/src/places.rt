//! Places of elements and members, and the parts of expressions that wait for a place.

ghost use Rattle.std.specs.Prelude.{◌≡◌, ℕ, ◌%◌, ◌^◌, List, Some};
ghost use Rattle.std.specs.Option.{option_copied};
ghost use Rattle.block_meaning.specs.Expressions as spec;
ghost use Rattle.block_meaning.specs.Memory as memory;
ghost use Rattle.block_meaning.specs.Running.{Context, State};
ghost use Rattle.mean_machine.specs.Evaluation as machine;
ghost use Rattle.mean_machine.specs.Frames as waiting;
ghost use Rattle.mean_machine.specs.Going.{by, place, value, spend as spend_then};
ghost use Rattle.mean_effects.specs.Shown.{IsNow, IsHere};
ghost use Rattle.mean_expressions.specs.Stacked.{World, Stacked, Stands, place_of};

use crate::evaluation::{operand_first, unit_value};
use crate::frames::{Control, Frame, OperandFrame, PlaceFrame};
use block_meaning::{Pointer, Value};
use c_ast::{Span, Step};
use c_type_base::{TExpr, Ty};
use mean_effects::{Ending, Here, Now, member_of, moved_by, read, spend, step_effect};
use mean_memory::{number_in, pointer_in};

/// The element of a number behind a pointer, in either order, by the bytes of one modulo 2^64.
pub fn element_at(bytes: u64, v: Value, w: Value) -> Pointer
    ensures { (size : ℕ) → bytes ≡ size % 2 ^ 64 → result ≡ spec.element_at size v w }
{
    match v {
        Value::Address(p) => moved_by(p, number_in(w), bytes),
        _ => moved_by(pointer_in(w), number_in(v), bytes),
    }
}

/// A member of a struct at a place that is read, by the span of the parentheses round it and its type.
#[derive(Clone, Copy)]
pub struct Selected<'a> {
    pub of: &'a TExpr,
    pub member: u32,
    pub around: Span,
    pub ty: &'a Ty,
}

/// A place that an expression has is read.
pub fn read_given<'a>(
    n: &mut Now,
    h: Here<'a>,
    e: &'a TExpr,
    p: Pointer,
) -> Result<Control<'a>, Ending>
    ensures { (w : World) (here : Context) (k : List waiting.Frame) (frames : List Frame) (now : State) → IsHere h.entry here
        → Stacked k frames w here → IsNow n.old now → Stands n.new frames w here now result
        (machine.place_given here k (waiting.ReadFrom e.now) p now) }
{
    match read(n, h, e.span, &e.ty, p) {
        Ok(v) => Ok(Control::GivesValue(v)),
        Err(e) => Err(e),
    }
}

/// `++` or `--` at the place of an expression.
fn step_given<'a>(
    n: &mut Now,
    h: Here<'a>,
    s: Step,
    e: &'a TExpr,
    p: Pointer,
) -> Result<Control<'a>, Ending>
    ensures { (w : World) (here : Context) (k : List waiting.Frame) (frames : List Frame) (now : State) → IsHere h.entry here
        → Stacked k frames w here → IsNow n.old now → Stands n.new frames w here now result
        (machine.place_given here k (waiting.Stepped s e.now) p now) }
{
    match spend(n) {
        Ok(()) => match step_effect(n, h, s, e, p) {
            Ok(v) => Ok(Control::GivesValue(v)),
            Err(e) => Err(e),
        },
        Err(e) => Err(e),
    }
}

/// The place of a member of the struct of a type that stands at a place.
pub fn member_place<'a>(
    n: &mut Now,
    h: Here<'a>,
    ty: Option<&Ty>,
    member: u32,
    p: Pointer,
) -> Result<Control<'a>, Ending>
    ensures { (w : World) (here : Context) (k : List waiting.Frame) (frames : List Frame) (now : State) → IsHere h.entry here
        → Stacked k frames w here → IsNow n.old now → Stands n.new frames w here now result
        (spend_then (by (spec.member_of here (option_copied ty.entry) member p) (place here k)) now) }
{
    match spend(n) {
        Ok(()) => match member_of(h, ty, member, p) {
            Ok(q) => Ok(Control::GivesPlace(q)),
            Err(e) => Err(e),
        },
        Err(e) => Err(e),
    }
}

/// A member of a struct that was assigned is read.
fn member_read<'a>(
    n: &mut Now,
    h: Here<'a>,
    selected: Selected<'a>,
    p: Pointer,
) -> Result<Control<'a>, Ending>
    ensures { (w : World) (here : Context) (k : List waiting.Frame) (frames : List Frame) (now : State) → IsHere h.entry here
        → Stacked k frames w here → IsNow n.old now → Stands n.new frames w here now result
        (spend_then (by (spec.member_of here (Some selected.entry.of.now.ty) selected.entry.member p)
        (λ q. by (memory.read here selected.entry.around (memory.object selected.entry.ty.now q)) (value here k))) now) }
{
    match spend(n) {
        Ok(()) => match member_of(h, Some(&selected.of.ty), selected.member, p) {
            Ok(q) => read_at(n, h, selected, q),
            Err(e) => Err(e),
        },
        Err(e) => Err(e),
    }
}

fn read_at<'a>(
    n: &mut Now,
    h: Here<'a>,
    selected: Selected<'a>,
    q: Pointer,
) -> Result<Control<'a>, Ending>
    ensures { (w : World) (here : Context) (k : List waiting.Frame) (frames : List Frame) (now : State) → IsHere h.entry here
        → Stacked k frames w here → IsNow n.old now → Stands n.new frames w here now result
        (by (memory.read here selected.entry.around (memory.object selected.entry.ty.now q)) (value here k) now) }
{
    match read(n, h, selected.around, selected.ty, q) {
        Ok(v) => Ok(Control::GivesValue(v)),
        Err(e) => Err(e),
    }
}

/// A part of an expression that waited for a place has it.
pub fn place_given<'a>(
    n: &mut Now,
    stack: &mut Vec<Frame<'a>>,
    h: Here<'a>,
    frame: PlaceFrame<'a>,
    p: Pointer,
) -> Result<Control<'a>, Ending>
    ensures { (w : World) (here : Context) (k : List waiting.Frame) (now : State) → IsHere h.entry here
        → Stacked k stack.old.items w here → IsNow n.old now → Stands n.new stack.new.items w here now result
        (machine.place_given here k (place_of frame.entry) p now) }
{
    match frame {
        PlaceFrame::Addressed => unit_value(n, Value::Address(p)),
        PlaceFrame::AssignLeft(span, o, a, b) => {
            operand_first(stack, b, OperandFrame::AssignRight(span, o, a, b, p))
        }
        PlaceFrame::Stepped(s, e) => step_given(n, h, s, e, p),
        PlaceFrame::ReadFrom(e) => read_given(n, h, e, p),
        PlaceFrame::Decayed => Ok(Control::GivesValue(Value::Address(p))),
        PlaceFrame::MemberAt(e, member) => member_place(n, h, Some(&e.ty), member, p),
        PlaceFrame::MemberRead(of, member, around, ty) => member_read(
            n,
            h,
            Selected {
                of,
                member,
                around,
                ty,
            },
            p,
        ),
    }
}
