//! Declarations of locals, and what their initialisers begin with.

ghost use Rattle.std.specs.Prelude.{◌≡◌, ◌∷◌, ◌||◌, List, Some};
ghost use Rattle.block_meaning.specs.Locals.{is_list};
ghost use Rattle.block_meaning.specs.Running.{Context, State};
ghost use Rattle.c_type_base.specs.Types as types;
ghost use Rattle.c_type_base.specs.declared.statement.TInit.{out-TInit};
ghost use Rattle.mean_machine.specs.Execution as machine;
ghost use Rattle.mean_machine.specs.Frames as waiting;
ghost use Rattle.mean_machine.specs.Going.{by};
ghost use Rattle.mean_effects.specs.Objects.{objects_of, object_of};
ghost use Rattle.mean_effects.specs.Shown.{IsNow, IsHere, IsWindow, Gives};
ghost use Rattle.mean_expressions.specs.Stacked.{World, Stacked, Stands, done_of};
ghost use Rattle.mean_effects.specs.declared.now.Now.{Now as Code};

use block_meaning::Pointer;
use c_type_base::{TDecl, TInit, Ty, is_array};
use mean_effects::{Ending, Here, Now, Object, spend, zero_object};
use mean_expressions::{Control, DoneFrame, Frame, local_block};
use sqlite_items::at;

/// A declaration with its initialiser, and the declarations behind it.
#[derive(Clone, Copy)]
pub struct Initialised<'a> {
    pub declaration: &'a TDecl,
    pub init: &'a TInit,
    pub rest: &'a [TDecl],
}

/// The object that a declaration initialises.
fn declared_object<'a>(h: Here<'a>, locals: &[Option<u64>], d: &TDecl) -> Result<Object<'a>, Ending>
    ensures { (n : Code) (here : Context) (now : State) → IsHere h.entry here → IsWindow locals.now h.entry here → IsNow n now
        → Gives n now (objects_of result) (machine.declared_object here d.now now) }
{
    match at(h.locals, d.local as usize) {
        Some(info) => match local_block(h, locals, d.local) {
            Some(block) => Ok(Object {
                ty: &info.ty,
                at: Pointer { block, offset: 0 },
            }),
            None => Err(Ending::NoMemory),
        },
        None => Err(Ending::NoMemory),
    }
}

/// Whether an initialiser first makes the whole object zero: a list or a text does.
fn zeroes(ty: &Ty, i: &TInit) -> bool
    ensures { result ≡ (is_list (out-TInit i.now) || types.is_array ty.now) }
{
    match i {
        TInit::List(_, _) => true,
        TInit::One(_) => is_array(ty),
    }
}

/// The whole object is zero, where its initialiser makes it so.
fn zeroed(n: &mut Now, h: Here, o: Object, i: &TInit) -> Result<(), Ending>
    ensures { (here : Context) (now : State) → IsHere h.entry here → IsNow n.old now
        → Gives n.new now result (machine.zeroed here (object_of o.entry) i.now now) }
{
    if zeroes(o.ty, i) {
        zero_object(n, h, o)
    } else {
        Ok(())
    }
}

/// An object is initialised, and then what a frame waits for.
pub fn fill_first<'a>(
    stack: &mut Vec<Frame<'a>>,
    o: Object<'a>,
    i: &'a TInit,
    frame: DoneFrame<'a>,
) -> Result<Control<'a>, Ending>
    ensures { (n : Code) (w : World) (here : Context) (k : List waiting.Frame) (now : State) → Stacked k stack.old.items w here
        → IsNow n now → Stands n stack.new.items w here now result
        (waiting.Runs (waiting.Fill (object_of o.entry) i.now) here (waiting.OnDone (done_of frame.entry) ∷ k) now) }
{
    match stack.push(Frame::OnDone(frame)) {
        Ok(()) => Ok(Control::Fill(o, i)),
        Err(_) => Err(Ending::NoMemory),
    }
}

/// The declared object is made zero, where it has to be, and then initialised.
fn zero_then_fill<'a>(
    n: &mut Now,
    stack: &mut Vec<Frame<'a>>,
    h: Here<'a>,
    o: Object<'a>,
    i: Initialised<'a>,
) -> Result<Control<'a>, Ending>
    ensures { (w : World) (here : Context) (k : List waiting.Frame) (now : State) → IsHere h.entry here → Stacked k stack.old.items w here
        → IsNow n.old now → Stands n.new stack.new.items w here now result
        (by (machine.zeroed here (object_of o.entry) i.entry.init.now) (λ (u : Unit {0}). waiting.Runs
        (waiting.Fill (object_of o.entry) i.entry.init.now) here (waiting.OnDone (waiting.Declared i.entry.rest.now) ∷ k)) now) }
{
    match zeroed(n, h, o, i.init) {
        Ok(()) => fill_first(stack, o, i.init, DoneFrame::Declared(i.rest)),
        Err(e) => Err(e),
    }
}

/// A declaration with an initialiser: it spends a unit of work first.
fn initialise<'a>(
    n: &mut Now,
    stack: &mut Vec<Frame<'a>>,
    h: Here<'a>,
    locals: &[Option<u64>],
    i: Initialised<'a>,
) -> Result<Control<'a>, Ending>
    ensures { (w : World) (here : Context) (k : List waiting.Frame) (now : State) → IsHere h.entry here → IsWindow locals.now h.entry here
        → Stacked k stack.old.items w here → IsNow n.old now → Stands n.new stack.new.items w here now result
        (machine.declare_with here k i.entry.declaration.now i.entry.rest.now (Some i.entry.init.now) now) }
{
    match spend(n) {
        Ok(()) => match declared_object(h, locals, i.declaration) {
            Ok(o) => zero_then_fill(n, stack, h, o, i),
            Err(e) => Err(e),
        },
        Err(e) => Err(e),
    }
}

/// The declarations of a list, in order.
pub fn declare<'a>(
    n: &mut Now,
    stack: &mut Vec<Frame<'a>>,
    h: Here<'a>,
    locals: &[Option<u64>],
    declarations: &'a [TDecl],
) -> Result<Control<'a>, Ending>
    ensures { (w : World) (here : Context) (k : List waiting.Frame) (now : State) → IsHere h.entry here → IsWindow locals.now h.entry here
        → Stacked k stack.old.items w here → IsNow n.old now
        → Stands n.new stack.new.items w here now result (machine.declare here k declarations.now now) }
{
    match declarations {
        [] => Ok(Control::Finished),
        [declaration, rest @ ..] => match &declaration.init {
            Some(init) => {
                let i = Initialised {
                    declaration,
                    init,
                    rest,
                };
                initialise(n, stack, h, locals, i)
            }
            None => Ok(Control::Declare(rest)),
        },
    }
}
