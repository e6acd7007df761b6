//! One turn of a run, with the outside.

ghost use Rattle.std.specs.Prelude.{◌≡◌, ◌≢◌, ◌≤◌, ℕ, ◌%◌, List, Option, Err};
ghost use Rattle.std.specs.Global.{Vec as Values};
ghost use Rattle.block_meaning.specs.Expressions.{first_number};
ghost use Rattle.c_ast.specs.declared.token.Span.{Span as Place};
ghost use Rattle.c_type_base.specs.declared.expr.Callee.TheVariants as callee;
ghost use Rattle.mean_program.specs.Held.{Aim, Holds, TurnGives};
ghost use Rattle.mean_program.specs.Laws.Turns as law;
ghost use Rattle.mean_expressions.specs.declared.frames.Control.TheVariants as control;
ghost use Rattle.mean_run.specs.declared.process.Process.{Process as Code};
ghost use Rattle.mt_outside.specs.Told.{Rose};

use crate::end::{MeanEnd, MeanFault};
use block_meaning::Value;
use c_type_base::Callee;
use mean_effects::Ending;
use mean_expressions::Control;
use mean_memory::number_in;
use mean_run::{Process, call, step};
use mt_outside::{NextAnswer, PutAnswer, Sink, Source};

/// What follows a turn.
#[derive(Drop)]
pub enum Turn<'a> {
    /// This is to be done next.
    Goes(Control<'a>),
    /// The run has ended so.
    Ends(Result<MeanEnd, MeanFault>),
}

/// The byte that a call of `putchar` puts.
fn byte_of(values: &[Value]) -> u8
    ensures { result ≡ first_number values.now % 256 }
{
    match values {
        [] => 0,
        [first, ..] => (number_in(*first) % 256) as u8,
    }
}

/// Puts a byte, which is the value of the call.
fn put<'a, K: Sink>(values: &[Value], sink: &mut K) -> Turn<'a>
    ensures gives { (aim : Aim) (p : Code) (span : Place) (vs : Values Value) (input : Option (List ℕ)) → vs.items ≡ values.now
        → Holds aim p (control.Call span callee.Putchar vs) input (K.Sink.told sink.old)
        → TurnGives aim p result input (K.Sink.told sink.new) }
    ensures output_fault { result ≡ Turn.Ends (Err MeanFault.OutputFault) → Rose (K.Sink.faults sink.old) (K.Sink.faults sink.new) }
    ensures no_input_fault { result ≢ Turn.Ends (Err MeanFault.InputFault) }
    ensures output_never_falls { K.Sink.faults sink.old ≤ K.Sink.faults sink.new }
{
    let byte = byte_of(values);
    match sink.put(&[byte]) {
        PutAnswer::Done => Turn::Goes(Control::GivesValue(Value::Number(byte as u64))),
        PutAnswer::Failed => Turn::Ends(Err(MeanFault::OutputFault)),
    }
}

/// Takes a byte, which is the value of the call; at the end that is -1.
fn take<'a, S: Source>(source: &mut S) -> Turn<'a>
    ensures gives { (aim : Aim) (p : Code) (span : Place) (vs : Values Value) (output : Option (List ℕ))
        → Holds aim p (control.Call span callee.Getchar vs) (S.Source.told source.old) output
        → TurnGives aim p result (S.Source.told source.new) output }
    ensures input_fault { result ≡ Turn.Ends (Err MeanFault.InputFault) → Rose (S.Source.faults source.old) (S.Source.faults source.new) }
    ensures no_output_fault { result ≢ Turn.Ends (Err MeanFault.OutputFault) }
    ensures input_never_falls { S.Source.faults source.old ≤ S.Source.faults source.new }
{
    match source.next() {
        NextAnswer::Byte(byte) => Turn::Goes(Control::GivesValue(Value::Number(byte as u64))),
        NextAnswer::End => Turn::Goes(Control::GivesValue(Value::Number(u64::MAX))),
        NextAnswer::Failed => Turn::Ends(Err(MeanFault::InputFault)),
    }
}

/// The end that a stop of the run is.
fn end_of(why: Ending) -> Result<MeanEnd, MeanFault>
    ensures is { result ≡ law.end_of why }
    ensures no_input_fault { result ≢ Err MeanFault.InputFault }
    ensures no_output_fault { result ≢ Err MeanFault.OutputFault }
{
    match why {
        Ending::Divide => Ok(MeanEnd::Divide),
        Ending::Deep => Ok(MeanEnd::Deep),
        Ending::More => Ok(MeanEnd::More),
        Ending::Undefined(why, file, span) => Ok(MeanEnd::Undefined { why, file, span }),
        Ending::NoMemory => Err(MeanFault::NoMemory),
    }
}

/// What follows an answer of the run.
pub fn after<'a>(answer: Result<Control<'a>, Ending>) -> Turn<'a>
    ensures is { result ≡ law.after answer.entry }
    ensures no_input_fault { result ≢ Turn.Ends (Err MeanFault.InputFault) }
    ensures no_output_fault { result ≢ Turn.Ends (Err MeanFault.OutputFault) }
{
    match answer {
        Ok(control) => Turn::Goes(control),
        Err(why) => Turn::Ends(end_of(why)),
    }
}

/// The last value, or a step for what waits for it.
fn value_given<'a>(p: &mut Process<'a>, v: Value) -> Turn<'a>
    ensures gives { (aim : Aim) (input output : Option (List ℕ)) → Holds aim p.old (control.GivesValue v) input output
        → TurnGives aim p.new result input output }
    ensures no_input_fault { result ≢ Turn.Ends (Err MeanFault.InputFault) }
    ensures no_output_fault { result ≢ Turn.Ends (Err MeanFault.OutputFault) }
{
    if p.stack.as_slice().is_empty() {
        return Turn::Ends(Ok(MeanEnd::Done((number_in(v) % 256) as u8)));
    }
    after(step(p, Control::GivesValue(v)))
}

/// One turn: a step, or a call, which may put or take a byte.
pub fn take_turn<'a, S: Source, K: Sink>(
    p: &mut Process<'a>,
    control: Control<'a>,
    source: &mut S,
    sink: &mut K,
) -> Turn<'a>
    ensures gives { (aim : Aim) → Holds aim p.old control.entry (S.Source.told source.old) (K.Sink.told sink.old)
        → TurnGives aim p.new result (S.Source.told source.new) (K.Sink.told sink.new) }
    ensures input_fault { result ≡ Turn.Ends (Err MeanFault.InputFault) → Rose (S.Source.faults source.old) (S.Source.faults source.new) }
    ensures output_fault { result ≡ Turn.Ends (Err MeanFault.OutputFault) → Rose (K.Sink.faults sink.old) (K.Sink.faults sink.new) }
    ensures input_never_falls { S.Source.faults source.old ≤ S.Source.faults source.new }
    ensures output_never_falls { K.Sink.faults sink.old ≤ K.Sink.faults sink.new }
{
    match control {
        Control::Call(_, Callee::Putchar, values) => put(values.as_slice(), sink),
        Control::Call(_, Callee::Getchar, _) => take(source),
        Control::Call(span, callee, values) => after(call(p, span, callee, values)),
        Control::GivesValue(v) => value_given(p, v),
        _ => after(step(p, control)),
    }
}
