//! Initialisers of locals: what each begins with.

ghost use Rattle.std.specs.Prelude.{◌≡◌, ℕ, ◌*◌, List, Some, IfSome, slice_get};
ghost use Rattle.block_meaning.specs.Blocks as blocks;
ghost use Rattle.block_meaning.specs.Locals.{text_at};
ghost use Rattle.block_meaning.specs.Memory.{bytes_of, structs_at};
ghost use Rattle.block_meaning.specs.Running.{Context, State};
ghost use Rattle.c_type_base.specs.Layout.{members_of};
ghost use Rattle.c_type_base.specs.declared.expr.TNode.{out-TNode};
ghost use Rattle.c_type_base.specs.declared.statement.TInit.{out-TInit};
ghost use Rattle.c_type_base.specs.declared.ty.Ty.{out-Ty};
ghost use Rattle.c_type_base.specs.declared.ty.Ty.TheOpen.{Ty-F};
ghost use Rattle.mean_machine.specs.Execution as machine;
ghost use Rattle.mean_machine.specs.Frames as waiting;
ghost use Rattle.mean_machine.specs.Going.{by, finished, spend as spend_then};
ghost use Rattle.mean_start.specs.Files.{IsFile};
ghost use Rattle.mean_effects.specs.Shown.{IsNow, IsHere, Gives};
ghost use Rattle.mean_effects.specs.Objects.{object_of};
ghost use Rattle.mean_expressions.specs.Stacked.{World, Stacked, Stands};
ghost use Rattle.mean_effects.specs.declared.now.Now.{Now as Code};

use crate::declaring::fill_first;
use crate::statements::value_first;
use block_meaning::Pointer;
use c_ast::Bytes;
use c_type_base::{MemberInfo, TExpr, TInit, TNode, Ty, is_struct, wrapped_size};
use mean_effects::{Ending, Here, Now, Object, fill_text, moved_by, spend};
use mean_expressions::{Control, DoneFrame, Frame, ValueFrame};
use mean_memory::moved;
use mean_start::File;
use sqlite_items::at;

/// An array of so many chars at a place.
#[derive(Clone, Copy)]
pub struct Chars {
    pub count: u64,
    pub at: Pointer,
}

/// The file of the function that runs.
fn file_here<'a>(h: Here<'a>) -> Option<&'a File<'a>>
    ensures { IfSome result (λ file. (here : Context) → IsHere h.entry here → IsFile file.now here.program here.unit) }
{
    match at(h.files, h.unit as usize) {
        Some(file) => Some(file),
        None => None,
    }
}

/// A text of the file that runs, with its final zero.
fn text_of<'a>(h: Here<'a>, number: u32) -> Option<&'a Bytes>
    ensures { IfSome result (λ text. (here : Context) → IsHere h.entry here → text_at here number ≡ Some text.now) }
{
    match file_here(h) {
        Some(file) => match at(file.typed.texts.as_slice(), number as usize) {
            Some(text) => Some(text),
            None => None,
        },
        None => None,
    }
}

/// The bytes of a text are put into an array of chars, as far as it goes.
fn text_put(n: &mut Now, h: Here, chars: Chars, number: u32) -> Result<(), Ending>
    ensures { (here : Context) (now : State) → IsHere h.entry here → IsNow n.old now
        → Gives n.new now result (machine.fill_text here chars.count chars.at number now) }
{
    match text_of(h, number) {
        Some(text) => fill_text(n, chars.count, chars.at, text.as_slice()),
        None => Err(Ending::NoMemory),
    }
}

/// A text fills an array of chars, for a unit of work.
fn text_filled<'a>(
    n: &mut Now,
    h: Here<'a>,
    chars: Chars,
    number: u32,
) -> Result<Control<'a>, Ending>
    ensures { (w : World) (here : Context) (k : List waiting.Frame) (frames : List Frame) (now : State) → IsHere h.entry here
        → Stacked k frames w here → IsNow n.old now → Stands n.new frames w here now result
        (spend_then (by (machine.fill_text here chars.count chars.at number) (finished here k)) now) }
{
    match spend(n) {
        Ok(()) => match text_put(n, h, chars, number) {
            Ok(()) => Ok(Control::Finished),
            Err(e) => Err(e),
        },
        Err(e) => Err(e),
    }
}

/// A text fills an array of chars; any other expression is the 0 of `{0}`, whose value is dropped.
fn fill_array<'a>(
    n: &mut Now,
    stack: &mut Vec<Frame<'a>>,
    h: Here<'a>,
    chars: Chars,
    e: &'a TExpr,
) -> Result<Control<'a>, Ending>
    ensures { (w : World) (here : Context) (k : List waiting.Frame) (now : State) → IsHere h.entry here → Stacked k stack.old.items w here
        → IsNow n.old now → Stands n.new stack.new.items w here now result
        (machine.fill_array here k chars.count chars.at e.now (out-TNode e.now.node) now) }
{
    match e.node.get() {
        TNode::Text(number) => text_filled(n, h, chars, *number),
        _ => value_first(stack, e, ValueFrame::Drop),
    }
}

/// A struct is copied; a number is the 0 of `{0}`, whose value is dropped.
fn fill_struct<'a>(
    stack: &mut Vec<Frame<'a>>,
    o: Object<'a>,
    e: &'a TExpr,
) -> Result<Control<'a>, Ending>
    ensures { (n : Code) (w : World) (here : Context) (k : List waiting.Frame) (now : State) (number : ℕ) → Stacked k stack.old.items w here
        → IsNow n now → Stands n stack.new.items w here now result
        (machine.fill_one here k (object_of o.entry) e.now (Ty-F.Struct number) now) }
{
    if is_struct(&e.ty) {
        value_first(stack, e, ValueFrame::FillStruct(o, e))
    } else {
        value_first(stack, e, ValueFrame::Drop)
    }
}

/// An expression as the initialiser of an object.
fn fill_one<'a>(
    n: &mut Now,
    stack: &mut Vec<Frame<'a>>,
    h: Here<'a>,
    o: Object<'a>,
    e: &'a TExpr,
) -> Result<Control<'a>, Ending>
    ensures { (w : World) (here : Context) (k : List waiting.Frame) (now : State) → IsHere h.entry here → Stacked k stack.old.items w here
        → IsNow n.old now → Stands n.new stack.new.items w here now result
        (machine.fill_one here k (object_of o.entry) e.now (out-Ty o.entry.ty.now) now) }
{
    match o.ty {
        Ty::Array(_, count) => fill_array(
            n,
            stack,
            h,
            Chars {
                count: *count,
                at: o.at,
            },
            e,
        ),
        Ty::Struct(_) => fill_struct(stack, o, e),
        _ => value_first(stack, e, ValueFrame::FillScalar(o, e)),
    }
}

/// Where the element of a number stands, by the first.
fn element_place(h: Here, first: Object, number: u64) -> Pointer
    ensures { (here : Context) → IsHere h.entry here
        → result ≡ blocks.moved first.entry.at (number * bytes_of here first.entry.ty.now) }
{
    moved_by(first.at, number, wrapped_size(first.ty, h.structs))
}

/// The elements of an array from a number on, by their first.
pub fn elements<'a>(
    stack: &mut Vec<Frame<'a>>,
    h: Here<'a>,
    first: Object<'a>,
    number: u64,
    list: &'a [TInit],
) -> Result<Control<'a>, Ending>
    ensures { (n : Code) (w : World) (here : Context) (k : List waiting.Frame) (now : State) → IsHere h.entry here
        → Stacked k stack.old.items w here → IsNow n now
        → Stands n stack.new.items w here now result (machine.elements here k (object_of first.entry) number list.now now) }
{
    match list {
        [] => Ok(Control::Finished),
        [i, rest @ ..] => match number.checked_add(1) {
            Some(next) => {
                let o = Object {
                    ty: first.ty,
                    at: element_place(h, first, number),
                };
                fill_first(stack, o, i, DoneFrame::Elements(first, next, rest))
            }
            None => Err(Ending::NoMemory),
        },
    }
}

/// The members of a struct at a place.
pub fn members<'a>(
    stack: &mut Vec<Frame<'a>>,
    p: Pointer,
    infos: &'a [MemberInfo],
    list: &'a [TInit],
) -> Result<Control<'a>, Ending>
    ensures { (n : Code) (w : World) (here : Context) (k : List waiting.Frame) (now : State) → Stacked k stack.old.items w here
        → IsNow n now → Stands n stack.new.items w here now result (machine.members here k p infos.now list.now now) }
{
    match list {
        [] => Ok(Control::Finished),
        [i, rest @ ..] => match infos {
            [] => Err(Ending::NoMemory),
            [info, others @ ..] => {
                let o = Object {
                    ty: &info.ty,
                    at: moved(p, info.offset),
                };
                fill_first(stack, o, i, DoneFrame::Members(p, others, rest))
            }
        },
    }
}

/// The members of the struct of a number, at a place.
fn struct_members<'a>(
    stack: &mut Vec<Frame<'a>>,
    h: Here<'a>,
    p: Pointer,
    number: u32,
    list: &'a [TInit],
) -> Result<Control<'a>, Ending>
    ensures { (n : Code) (w : World) (here : Context) (k : List waiting.Frame) (now : State) → IsHere h.entry here
        → Stacked k stack.old.items w here → IsNow n now → Stands n stack.new.items w here now result
        (machine.members here k p (members_of (slice_get (structs_at here) number)) list.now now) }
{
    match at(h.structs, number as usize) {
        Some(info) => members(stack, p, info.members.as_slice(), list),
        None => Err(Ending::NoMemory),
    }
}

/// A list as the initialiser of an object.
fn fill_list<'a>(
    stack: &mut Vec<Frame<'a>>,
    h: Here<'a>,
    o: Object<'a>,
    list: &'a [TInit],
) -> Result<Control<'a>, Ending>
    ensures { (n : Code) (w : World) (here : Context) (k : List waiting.Frame) (now : State) → IsHere h.entry here
        → Stacked k stack.old.items w here → IsNow n now → Stands n stack.new.items w here now result
        (machine.fill_list here k (object_of o.entry) list.now (out-Ty o.entry.ty.now) now) }
{
    match o.ty {
        Ty::Array(element, _) => {
            let first = Object {
                ty: element.get(),
                at: o.at,
            };
            elements(stack, h, first, 0, list)
        }
        Ty::Struct(number) => struct_members(stack, h, o.at, *number, list),
        _ => Err(Ending::NoMemory),
    }
}

/// An initialiser of an object.
pub fn fill<'a>(
    n: &mut Now,
    stack: &mut Vec<Frame<'a>>,
    h: Here<'a>,
    o: Object<'a>,
    i: &'a TInit,
) -> Result<Control<'a>, Ending>
    ensures { (w : World) (here : Context) (k : List waiting.Frame) (now : State) → IsHere h.entry here → Stacked k stack.old.items w here
        → IsNow n.old now → Stands n.new stack.new.items w here now result
        (machine.fill here k (object_of o.entry) (out-TInit i.now) now) }
{
    match i {
        TInit::One(e) => fill_one(n, stack, h, o, e),
        TInit::List(list, _) => fill_list(stack, h, o, list.as_slice()),
    }
}
