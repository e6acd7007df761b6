//! Scopes, and the statements that open one.

ghost use Rattle.std.specs.Prelude.{◌≡◌, ◌∷◌, List, map, true};
ghost use Rattle.block_meaning.specs.Locals.{new_locals};
ghost use Rattle.block_meaning.specs.Running.{Context, State};
ghost use Rattle.block_meaning.specs.Statements.{declared, declared_by, local_of};
ghost use Rattle.c_type_base.specs.declared.statement.TItem.{out-TItem};
ghost use Rattle.c_type_base.specs.declared.statement.TStmt.{out-TStmt};
ghost use Rattle.mean_machine.specs.Execution as machine;
ghost use Rattle.mean_machine.specs.Frames as waiting;
ghost use Rattle.mean_machine.specs.Going.{by, Stand};
ghost use Rattle.mean_run.specs.Entering.{Behind, Enters, IsInScope, Pushed, for_first, has_any};
ghost use Rattle.mean_effects.specs.Shown.{IsNow};
ghost use Rattle.mean_expressions.specs.Stacked.{World, Stacked, Stands, numbers_of, flow_of, heading_of};
ghost use Rattle.mean_run.specs.Processes.{IsProcess, Moves};
ghost use Rattle.mean_effects.specs.declared.now.Now.{Now as Code};

use crate::locals::{close, open};
use crate::process::Process;
use c_type_base::{TItem, TStmt};
use mean_control::{execute_plain, sequence};
use mean_effects::{Ending, spend};
use mean_expressions::{Control, Declarations, DoneFrame, Flow, FlowFrame, Frame, Heading};

/// Whether a part of a block declares a local.
fn item_declares(item: &TItem) -> bool
    ensures { result ≡ has_any (declared_by (out-TItem item.now)) }
{
    match item {
        TItem::Local(ds) => !ds.as_slice().is_empty(),
        TItem::Stmt(_) => false,
    }
}

/// Whether the parts of a block declare a local.
fn items_declare(items: &[TItem]) -> bool
    ensures { result ≡ has_any (declared items.now) }
{
    for item in items {
        if item_declares(item) {
            return true;
        }
    }
    false
}

/// Whether a scope has a local.
fn declares(d: Declarations) -> bool
    ensures { result ≡ has_any (numbers_of d.entry) }
{
    match d {
        Declarations::Block(items) => items_declare(items),
        Declarations::For(ds) => !ds.is_empty(),
    }
}

/// A frame is pushed.
pub fn push<'a>(stack: &mut Vec<Frame<'a>>, frame: Frame<'a>) -> Result<(), Ending>
    ensures { Pushed result frame.entry stack.old.items stack.new.items }
{
    match stack.push(frame) {
        Ok(()) => Ok(()),
        Err(_) => Err(Ending::NoMemory),
    }
}

/// A scope with locals is entered, whose unit of work was spent.
fn enter_locals<'a>(p: &mut Process<'a>, d: Declarations<'a>) -> Result<(), Ending>
    ensures { (inside : Context → List waiting.Frame → Stand) (here : Context) (k : List waiting.Frame) (now : State)
        → IsProcess p.old here k now → has_any (numbers_of d.entry) ≡ true
        → Enters p.new now result inside (by (new_locals here (numbers_of d.entry))
        (λ inner. inside inner (waiting.OnFlow (waiting.Scope here (numbers_of d.entry)) ∷ k)) now) }
{
    match open(&mut p.now, &mut p.locals, p.here, d) {
        Ok(()) => push(&mut p.stack, Frame::OnFlow(FlowFrame::Scope(d))),
        Err(_) => Err(Ending::NoMemory),
    }
}

/// A scope is entered. One without locals spends nothing.
fn enter_scope<'a>(p: &mut Process<'a>, d: Declarations<'a>) -> Result<(), Ending>
    ensures { (inside : Context → List waiting.Frame → Stand) (here : Context) (k : List waiting.Frame) (now : State)
        → IsProcess p.old here k now → Enters p.new now result inside (machine.scope here k (numbers_of d.entry) inside now) }
{
    if declares(d) {
        match spend(&mut p.now) {
            Ok(()) => enter_locals(p, d),
            Err(e) => Err(e),
        }
    } else {
        Ok(())
    }
}

/// A block that is not a function's outermost.
fn block<'a>(p: &mut Process<'a>, items: &'a [TItem]) -> Result<Control<'a>, Ending>
    ensures { (here : Context) (k : List waiting.Frame) (now : State) → IsProcess p.old here k now → Moves p.new now result
        (machine.scope here k (declared items.now) (λ inner frames. machine.sequence inner frames items.now) now) }
{
    match enter_scope(p, Declarations::Block(items)) {
        Ok(()) => sequence(&mut p.stack, items),
        Err(e) => Err(e),
    }
}

/// What a `for` declares is next.
fn declare_for<'a>(
    stack: &mut Vec<Frame<'a>>,
    h: Heading<'a>,
    body: &'a TStmt,
) -> Result<Control<'a>, Ending>
    ensures { (n : Code) (w : World) (here : Context) (k : List waiting.Frame) (now : State)
        → Stacked k stack.old.items w here → IsNow n now
        → Stands n stack.new.items w here now result (for_first (heading_of h.entry) body.now here k now) }
{
    match stack.push(Frame::OnDone(DoneFrame::ForDeclared(h, body))) {
        Ok(()) => Ok(Control::Declare(h.declared)),
        Err(_) => Err(Ending::NoMemory),
    }
}

/// A `for`, which is a scope of its own.
fn for_loop<'a>(p: &mut Process<'a>, h: Heading<'a>, body: &'a TStmt) -> Result<Control<'a>, Ending>
    ensures { (here : Context) (k : List waiting.Frame) (now : State) → IsProcess p.old here k now → Moves p.new now result
        (machine.scope here k (map local_of h.entry.declared.now) (for_first (heading_of h.entry) body.now) now) }
{
    match enter_scope(p, Declarations::For(h.declared)) {
        Ok(()) => declare_for(&mut p.stack, h, body),
        Err(e) => Err(e),
    }
}

/// A statement.
pub fn execute<'a>(p: &mut Process<'a>, s: &'a TStmt) -> Result<Control<'a>, Ending>
    ensures { (here : Context) (k : List waiting.Frame) (now : State) → IsProcess p.old here k now
        → Moves p.new now result (machine.execute here k (out-TStmt s.now) now) }
{
    match s {
        TStmt::Block(items) => block(p, items.as_slice()),
        TStmt::For(declared, first, condition, next, body) => for_loop(
            p,
            Heading {
                declared: declared.as_slice(),
                first: first.as_ref(),
                condition: condition.as_ref(),
                next: next.as_ref(),
            },
            body.get(),
        ),
        _ => execute_plain(&mut p.now, &mut p.stack, s),
    }
}

/// A scope is left, whose frame was taken from the stack.
pub fn leave_scope<'a>(
    p: &mut Process<'a>,
    d: Declarations<'a>,
    flow: Flow,
) -> Result<Control<'a>, Ending>
    ensures { (here : Context) (b : Behind) → IsInScope p.old d.entry here b → Moves p.new b.now result
        (machine.flow_given here b.frames (waiting.Scope b.outer (numbers_of d.entry)) (flow_of flow) b.now) }
{
    match close(&mut p.now, &mut p.locals, p.here, d) {
        Ok(()) => Ok(Control::GivesFlow(flow)),
        Err(_) => Err(Ending::NoMemory),
    }
}
