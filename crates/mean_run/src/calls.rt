//! Calls: how they are entered and left.

ghost use Rattle.std.specs.Prelude.{◌≡◌, ◌<◌, ◌≤◌, ◌+◌, ◌∷◌, ℕ, List, Option, length, OnOk, MatchOption};
ghost use Rattle.block_meaning.specs.Meaning as spec;
ghost use Rattle.block_meaning.specs.Running.{Function, Call, Context, State};
ghost use Rattle.c_type_base.specs.declared.statement.TItem.TheOpen.{TStmt-F};
ghost use Rattle.c_type_base.specs.declared.statement.TStmt.{out-TStmt};
ghost use Rattle.mean_machine.specs.Evaluation as evaluation;
ghost use Rattle.mean_machine.specs.Execution as machine;
ghost use Rattle.mean_machine.specs.Frames as waiting;
ghost use Rattle.mean_run.specs.Calling.{EntryAnswer, IsEntry, IsInCall, Request, Started, function_answer, function_by};
ghost use Rattle.mean_run.specs.Entering.{Behind};
ghost use Rattle.mean_effects.specs.Shown.{IsNow, IsHere, Gives};
ghost use Rattle.mean_expressions.specs.Stacked.{IsAt, Stacked, flow_of};
ghost use Rattle.mean_run.specs.Processes.{IsProcess, Moves};
ghost use Rattle.mean_effects.specs.declared.now.Now.{Now as Code};

use crate::arguments::{count_call, parameters, pass};
use crate::entry::{Entry, NextCall};
use crate::locals::open_items;
use crate::process::Process;
use crate::scopes::push;
use block_meaning::{Reason, Value};
use c_ast::Span;
use c_type_base::{Callee, TItem, TStmt, Ty};
use mean_control::sequence;
use mean_effects::{Ending, Here, Now};
use mean_expressions::{Control, Flow, FlowFrame, Frame};
use mean_memory::missing_result;
use mean_start::{Called, FunctionId};
use sqlite_items::at;
use std::alloc::{AllocError, Global};

/// The frame bytes of the open calls with so many more, where they fit into the stack.
fn place_of(h: Here, bytes: u64) -> Option<u64>
    ensures { MatchOption result (h.entry.stack < h.entry.place + bytes)
        (λ place. (place ≡ h.entry.place + bytes) × (place ≤ h.entry.stack)) }
{
    match h.place.checked_add(bytes) {
        Some(place) => { if place <= h.stack { Some(place) } else { None } }
        None => None,
    }
}

/// The function that a call enters, and where its body runs.
#[tactic(auto, using(crate::specs::Laws::Calls::entry_free))]
fn entry<'a>(h: Here<'a>, next: NextCall, f: FunctionId) -> Result<Entry<'a>, Ending>
    ensures { (here : Context) → IsHere h.entry here → EntryAnswer result here (function_by f) next.calls next.base }
{
    let Some(file) = at(h.files, f.unit as usize) else {
        return Err(Ending::NoMemory);
    };
    let Some(function) = file.typed.functions.get(f.number as usize) else {
        return Err(Ending::NoMemory);
    };
    let Some(bytes) = at(file.frames, f.number as usize) else {
        return Err(Ending::NoMemory);
    };
    match place_of(h, *bytes) {
        Some(place) => Ok(Entry {
            function,
            here: Here {
                files: h.files,
                stack: h.stack,
                unit: f.unit,
                structs: file.typed.structs.as_slice(),
                locals: function.locals.as_slice(),
                call: next.calls,
                place,
                base: next.base,
            },
        }),
        None => Err(Ending::Deep),
    }
}

/// The function that a name stands for that another file defines.
fn function_called(h: Here, span: Span, number: u32) -> Result<FunctionId, Ending>
    ensures { (here : Context) (n : Code) (now : State) → IsHere h.entry here → IsNow n now
        → Gives n now (function_answer result) (evaluation.function_called here span number now) }
{
    let Some(file) = at(h.files, h.unit as usize) else {
        return Err(Ending::NoMemory);
    };
    let Some(linked) = at(&file.externs, number as usize) else {
        return Err(Ending::NoMemory);
    };
    match linked.called {
        Called::Missing => Err(Ending::NoMemory),
        Called::OtherType => Err(Ending::Undefined(Reason::Signature, h.unit, span)),
        Called::Function(f) => Ok(f),
    }
}

/// The parameters of a call get their arguments, and the locals of its body's outermost block their blocks.
fn start<'a>(
    n: &mut Now,
    locals: &mut Vec<Option<u64>>,
    e: Entry<'a>,
    values: &[Value],
    items: &[TItem],
) -> Result<(), AllocError>
    ensures { OnOk result ((here : Context) (f : Function) (now : State) → IsNow n.old now
        → IsEntry e.entry here f n.old.calls (length locals.old.items)
        → out-TStmt e.entry.function.now.body ≡ TStmt-F.Block items.now
        → Started e.entry (record { here = here; function = f; values = values.now; items = items.now; now = now })
        locals.old.items n.new locals.new.items) }
{
    let parameters = parameters(e.function);
    if parameters.len() != values.len() {
        return Err(AllocError);
    }
    count_call(n, locals, e.here.locals.len())?;
    pass(n, locals, e.here, parameters, values)?;
    open_items(n, locals, e.here, items)?;
    Ok(())
}

/// The body of a call that was started.
fn run_body<'a>(
    p: &mut Process<'a>,
    e: Entry<'a>,
    items: &'a [TItem],
) -> Result<Control<'a>, Ending>
    ensures { (q : Request) (before : List (Option ℕ)) (k : List waiting.Frame)
        (s : Started e.entry q before p.old.now p.old.locals.items)
        → IsAt (record { code = p.old.here; locals = before }) q.here
        → Stacked k p.old.stack.items (record { code = p.old.here; locals = before }) q.here → Moves p.new s.after result
        (machine.sequence s.inner (waiting.OnFlow (waiting.Called q.here s.call e.entry.function.now.result) ∷ k) items.now s.after) }
{
    match push(
        &mut p.stack,
        Frame::OnFlow(FlowFrame::Called(p.here, &e.function.result)),
    ) {
        Ok(()) => {
            p.here = e.here;
            sequence(&mut p.stack, items)
        }
        Err(e) => Err(e),
    }
}

/// The body of a call.
fn enter_body<'a>(
    p: &mut Process<'a>,
    e: Entry<'a>,
    values: &[Value],
) -> Result<Control<'a>, Ending>
    ensures { (here : Context) (k : List waiting.Frame) (now : State) (f : Function) → IsProcess p.old here k now
        → IsEntry e.entry here f p.old.now.calls (length p.old.locals.items)
        → Moves p.new now result (machine.enter here k f values.now now) }
{
    let TStmt::Block(items) = &e.function.body else {
        return Err(Ending::NoMemory);
    };
    let items = items.as_slice();
    match start(&mut p.now, &mut p.locals, e, values, items) {
        Ok(()) => run_body(p, e, items),
        Err(_) => Err(Ending::NoMemory),
    }
}

/// A call of a function, whose unit of work was spent.
pub fn enter<'a>(
    p: &mut Process<'a>,
    f: FunctionId,
    values: &[Value],
) -> Result<Control<'a>, Ending>
    ensures { (here : Context) (k : List waiting.Frame) (now : State) → IsProcess p.old here k now
        → Moves p.new now result (machine.enter here k (function_by f) values.now now) }
{
    let next = NextCall {
        calls: p.now.calls,
        base: p.locals.len(),
    };
    match entry(p.here, next, f) {
        Ok(e) => enter_body(p, e, values),
        Err(e) => Err(e),
    }
}

/// What is called is entered, where it is a function of the program.
fn enter_callee<'a>(
    p: &mut Process<'a>,
    span: Span,
    callee: Callee,
    values: &[Value],
) -> Result<Control<'a>, Ending>
    ensures { (here : Context) (k : List waiting.Frame) (now : State) → IsProcess p.old here k now
        → Moves p.new now result (evaluation.call machine.enter here k span callee values.now now) }
{
    match callee {
        Callee::Function(number) => {
            let unit = p.here.unit;
            enter(p, FunctionId { unit, number }, values)
        }
        Callee::Extern(number) => match function_called(p.here, span, number) {
            Ok(f) => enter(p, f, values),
            Err(e) => Err(e),
        },
        _ => Err(Ending::NoMemory),
    }
}

/// A call, whose unit of work was spent, of a function of the program.
pub fn call<'a>(
    p: &mut Process<'a>,
    span: Span,
    callee: Callee,
    values: Vec<Value>,
) -> Result<Control<'a>, Ending>
    ensures { (here : Context) (k : List waiting.Frame) (now : State) → IsProcess p.old here k now
        → Moves p.new now result (evaluation.call machine.enter here k span callee values.items now) }
{
    enter_callee(p, span, callee, &values)
}

/// The value of a call that returned one; of none it is 0 or the null pointer.
fn returned(ty: &Ty, v: Value) -> Value
    ensures { result ≡ spec.result_of ty.now (flow_of (Flow.Returned v)) }
{
    match v {
        Value::NoValue => missing_result(ty),
        Value::Number(_) | Value::Address(_) | Value::Struct(_) => v,
    }
}

/// The value of a call, by how its body was left.
fn result_of(ty: &Ty, flow: Flow) -> Value
    ensures { result ≡ spec.result_of ty.now (flow_of flow) }
{
    match flow {
        Flow::Returned(v) => returned(ty, v),
        Flow::Next | Flow::Broke | Flow::Continued => missing_result(ty),
    }
}

/// A call is left, whose frame was taken from the stack.
pub fn leave_call<'a>(
    p: &mut Process<'a>,
    outer: Here<'a>,
    ty: &'a Ty,
    flow: Flow,
) -> Result<Control<'a>, Ending>
    ensures { (here : Context) (call : Call) (b : Behind) → IsInCall p.old outer.entry call b → Moves p.new b.now result
        (machine.flow_given here b.frames (waiting.Called b.outer call ty.now) (flow_of flow) b.now) }
{
    if p.now.memory.end_call(p.here.call) {
        p.locals.truncate(p.here.base);
        p.here = outer;
        Ok(Control::GivesValue(result_of(ty, flow)))
    } else {
        Err(Ending::NoMemory)
    }
}
