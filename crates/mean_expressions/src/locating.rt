//! What comes first for the place of what an expression designates.

ghost use Rattle.std.specs.Prelude.{◌≡◌, ℕ, List, ◌∷◌, Option, Some, IfSome, OnOk};
ghost use Rattle.block_meaning.specs.Expressions as spec;
ghost use Rattle.block_meaning.specs.Linkage as linkage;
ghost use Rattle.block_meaning.specs.Running.{Context, State};
ghost use Rattle.c_type_base.specs.declared.expr.TExpr.{TExpr as Tree};
ghost use Rattle.c_type_base.specs.declared.expr.TNode.{out-TNode};
ghost use Rattle.c_type_base.specs.declared.expr.TNode.TheOpen.{TNode-F};
ghost use Rattle.mean_machine.specs.Evaluation as machine;
ghost use Rattle.mean_machine.specs.Frames as waiting;
ghost use Rattle.mean_machine.specs.Going.{by, place};
ghost use Rattle.mean_effects.specs.Shown.{IsNow, IsHere, IsWindow};
ghost use Rattle.mean_expressions.specs.Stacked.{World, Stacked, Stands, place_of};
ghost use Rattle.mean_effects.specs.declared.now.Now.{Now as Code};

use crate::evaluation::{operand_first, place_first, unit_place};
use crate::frames::{Control, Frame, OperandFrame, PlaceFrame};
use block_meaning::Pointer;
use c_ast::UnaryOperator;
use c_type_base::{TExpr, TNode};
use mean_effects::{Ending, Here, Now};
use sqlite_items::at;

/// The block of a local, if it is alive.
pub fn local_block(h: Here, locals: &[Option<u64>], number: u32) -> Option<u64>
    ensures { (here : Context) → IsWindow locals.now h.entry here → IfSome result (λ block. here.local number ≡ Some block) }
{
    match h.base.checked_add(number as usize) {
        Some(index) => match at(locals, index) {
            Some(block) => *block,
            None => None,
        },
        None => None,
    }
}

/// The block of an object that the file defines.
fn object_block(h: Here, number: u32) -> Option<u64>
    ensures { (here : Context) → IsHere h.entry here
        → IfSome result (λ block. Some (linkage.object_block here.program.units here.unit number) ≡ Some block) }
{
    match at(h.files, h.unit as usize) {
        Some(file) => file.objects.checked_add(number as u64),
        None => None,
    }
}

/// The block of a text of the file.
fn text_block(h: Here, number: u32) -> Option<u64>
    ensures { (here : Context) → IsHere h.entry here
        → IfSome result (λ block. Some (linkage.text_block here.program.units here.unit number) ≡ Some block) }
{
    match at(h.files, h.unit as usize) {
        Some(file) => file.texts.checked_add(number as u64),
        None => None,
    }
}

/// The block of what the file declares and another defines.
fn extern_block(h: Here, number: u32) -> Option<u64>
    ensures { (here : Context) → IsHere h.entry here
        → IfSome result (λ block. linkage.extern_block here.program.units here.unit number ≡ Some block) }
{
    match at(h.files, h.unit as usize) {
        Some(file) => match at(file.externs.as_slice(), number as usize) {
            Some(x) => x.block,
            None => None,
        },
        None => None,
    }
}

/// Spends a unit and has the start of a block, if there is one. A number of a block that has no 64 bits finds no memory.
fn starts<'a>(n: &mut Now, block: Option<u64>) -> Result<Control<'a>, Ending>
    ensures { (w : World) (here : Context) (k : List waiting.Frame) (frames : List Frame) (now : State) (b : Option ℕ)
        → IfSome block (λ number. b ≡ Some number) → Stacked k frames w here → IsNow n.old now
        → Stands n.new frames w here now result (by (spec.starts b) (place here k) now) }
{
    match block {
        Some(block) => unit_place(n, Pointer { block, offset: 0 }),
        None => Err(Ending::NoMemory),
    }
}

/// The place that a dereferenced pointer points to.
fn dereferenced<'a>(
    stack: &mut Vec<Frame<'a>>,
    operator: UnaryOperator,
    a: &'a TExpr,
) -> Result<Control<'a>, Ending>
    ensures { (n : Code) (w : World) (here : Context) (k : List waiting.Frame) (e : Tree) (now : State)
        → Stacked k stack.old.items w here → IsNow n now
        → Stands n stack.new.items w here now result (machine.locate here k e (TNode-F.Unary operator a.now) now) }
{
    match operator {
        UnaryOperator::Dereference => operand_first(stack, a, OperandFrame::Dereferenced),
        _ => Err(Ending::NoMemory),
    }
}

/// The pointer in a value is wanted.
fn pointer_waits(stack: &mut Vec<Frame>) -> Result<(), Ending>
    ensures { OnOk result ((w : World) (here : Context) (k : List waiting.Frame) → Stacked k stack.old.items w here
        → Stacked (waiting.OnOperand waiting.PointerIn ∷ k) stack.new.items w here) }
{
    match stack.push(Frame::OnOperand(OperandFrame::PointerIn)) {
        Ok(()) => Ok(()),
        Err(_) => Err(Ending::NoMemory),
    }
}

/// The place of the left side of an assignment is found, and then where the struct stands that was assigned.
fn assigned_first<'a>(
    stack: &mut Vec<Frame<'a>>,
    a: &'a TExpr,
    frame: PlaceFrame<'a>,
) -> Result<Control<'a>, Ending>
    ensures { (n : Code) (w : World) (here : Context) (k : List waiting.Frame) (now : State) → Stacked k stack.old.items w here
        → IsNow n now → Stands n stack.new.items w here now result
        (machine.place_first here (waiting.OnOperand waiting.PointerIn ∷ k) a.now (place_of frame.entry) now) }
{
    match pointer_waits(stack) {
        Ok(()) => place_first(stack, a, frame),
        Err(_) => Err(Ending::NoMemory),
    }
}

/// The first step to the place of what an expression designates.
pub fn locate<'a>(
    n: &mut Now,
    stack: &mut Vec<Frame<'a>>,
    h: Here<'a>,
    locals: &[Option<u64>],
    e: &'a TExpr,
) -> Result<Control<'a>, Ending>
    ensures { (w : World) (here : Context) (k : List waiting.Frame) (now : State) → IsHere h.entry here
        → IsWindow locals.now h.entry here → Stacked k stack.old.items w here → IsNow n.old now
        → Stands n.new stack.new.items w here now result (machine.locate here k e.now (out-TNode e.now.node) now) }
{
    match e.node.get() {
        TNode::Text(number) => starts(n, text_block(h, *number)),
        TNode::Local(number) => starts(n, local_block(h, locals, *number)),
        TNode::Global(number) => starts(n, object_block(h, *number)),
        TNode::Extern(number) => starts(n, extern_block(h, *number)),
        TNode::Paren(a) => Ok(Control::Locate(a)),
        TNode::Unary(o, a) => dereferenced(stack, *o, a),
        TNode::Index(a, i) => operand_first(stack, a, OperandFrame::IndexLeft(&e.ty, i)),
        TNode::Member(a, member) => place_first(stack, a, PlaceFrame::MemberAt(a, *member)),
        TNode::Arrow(a, member) => operand_first(stack, a, OperandFrame::ArrowTo(a, *member)),
        TNode::Assign(o, a, b) => {
            assigned_first(stack, a, PlaceFrame::AssignLeft(e.span, *o, a, b))
        }
        _ => Err(Ending::NoMemory),
    }
}
