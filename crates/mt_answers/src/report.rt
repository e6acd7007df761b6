// The line on the error sink.
ghost use Rattle.std.specs.Prelude.{◌≡◌};
ghost use Rattle.mt_answers.specs.Answer.{ended_of};
ghost use Rattle.mt_answers.specs.Status.{HasNoLine, ended_by, status_of};

use crate::answer::Answer;
use crate::ended::Ended;
use crate::refusal::RunRefusal;
use c_lex::LexRefusal;
use elf_image::ImageRefusal;
use elf_obj::ObjectRefusal;
use frame_plan::PlanRefusal;
use linker::LinkRefusal;
use memtag_dump::DumpRefusal;
use mt_compile::CompileRefusal;
use mt_outside::{PutAnswer, Sink};
use mte_machine::MachineEnd;
use std::fmt;
use std::fmt::Write;

// Text that is put on a sink piece by piece.
#[derive(Drop)]
struct Line<'a, E: Sink> {
    sink: &'a mut E,
}

impl<'a, E: Sink> Line<'a, E> {
    // Puts these bytes.
    fn put(&mut self, bytes: &[u8]) -> fmt::Result {
        match self.sink.put(bytes) {
            PutAnswer::Done => Ok(()),
            PutAnswer::Failed => Err(fmt::Error),
        }
    }
}

impl<'a, E: Sink> Write for Line<'a, E> {
    fn write_str(&mut self, s: &str) -> fmt::Result {
        self.put(s.as_bytes())
    }
}

// Puts the line of the end of a run.
fn report_end<E: Sink>(line: &mut Line<'_, E>, end: MachineEnd) -> fmt::Result
    ensures quiet { HasNoLine (ended_by end).why → line.new ≡ line.old }
{
    match end {
        MachineEnd::Exited(_) => Ok(()),
        MachineEnd::OutputFault => write!(line, "mtcc: output fault\n"),
        MachineEnd::InputFault => write!(line, "mtcc: input fault\n"),
        MachineEnd::TagFault {
            pointer_tag,
            memory_tag,
            ..
        } => {
            let (pointer, memory) = (pointer_tag.value(), memory_tag.value());
            write!(
                line,
                "mtcc: tag fault: pointer tag {pointer:x}, memory tag {memory:x}\n"
            )
        }
        MachineEnd::MemoryFault { at } => write!(line, "mtcc: memory fault at 0x{at:x}\n"),
        MachineEnd::AlignFault { at } => write!(line, "mtcc: alignment fault at 0x{at:x}\n"),
        MachineEnd::StackFault => write!(line, "mtcc: stack fault\n"),
        MachineEnd::BadCode { at } => write!(line, "mtcc: bad code at 0x{at:x}\n"),
        MachineEnd::Divide => write!(line, "mtcc: division by zero\n"),
        MachineEnd::OutOfSteps => write!(line, "mtcc: out of steps\n"),
    }
}

// Puts the line of a refused source, which leaves out the byte where the refusal names none.
fn report_refusal<E: Sink>(
    line: &mut Line<'_, E>,
    file: &str,
    place: u32,
    refusal: &CompileRefusal,
) -> fmt::Result {
    match refusal {
        CompileRefusal::Lex(LexRefusal::TextTooLong)
        | CompileRefusal::Plan(PlanRefusal::TooManyFunctions { .. })
        | CompileRefusal::NotYet => { write!(line, "mtcc: {file}: {refusal}\n") }
        _ => write!(line, "mtcc: {file}:{place}: {refusal}\n"),
    }
}

// Puts the line of code that is not linked, with the name that is defined twice or not at all.
fn report_link<E: Sink>(line: &mut Line<'_, E>, refusal: &LinkRefusal) -> fmt::Result {
    match refusal {
        LinkRefusal::Duplicate { name } | LinkRefusal::Undefined { name } => {
            write!(line, "mtcc: {refusal} ")?;
            line.put(name.as_slice())?;
            write!(line, "\n")
        }
        _ => write!(line, "mtcc: {refusal}\n"),
    }
}

// Puts the line of a file that is no object's, which leaves out the place where the refusal names none.
fn report_object<E: Sink>(
    line: &mut Line<'_, E>,
    file: &str,
    refusal: &ObjectRefusal,
) -> fmt::Result {
    match refusal {
        ObjectRefusal::NotElf | ObjectRefusal::NotThisMachine => {
            write!(line, "mtcc: {file}: {refusal}\n")
        }
        _ => {
            let place = refusal.place();
            write!(line, "mtcc: {file}: {refusal} {place}\n")
        }
    }
}

// Puts the line of a file that says nothing of memory tagging, which leaves out the place where the refusal names none.
fn report_dump<E: Sink>(line: &mut Line<'_, E>, file: &str, refusal: &DumpRefusal) -> fmt::Result {
    match refusal {
        DumpRefusal::File(ImageRefusal::NotElf | ImageRefusal::NotThisMachine) => {
            write!(line, "mtcc: {file}: {refusal}\n")
        }
        _ => {
            let place = refusal.place();
            write!(line, "mtcc: {file}: {refusal} {place}\n")
        }
    }
}

// Puts the line of an image that does not run, which leaves out the place where the refusal names none.
fn report_run<E: Sink>(line: &mut Line<'_, E>, file: &str, refusal: &RunRefusal) -> fmt::Result {
    match refusal {
        RunRefusal::Image(ImageRefusal::NotElf | ImageRefusal::NotThisMachine) => {
            write!(line, "mtcc: {file}: {refusal}\n")
        }
        _ => {
            let place = refusal.place();
            write!(line, "mtcc: {file}: {refusal} {place}\n")
        }
    }
}

/// Puts the line of an answer about one of the files of these names, and ends with the answer's status. A fault of the
/// sink changes nothing.
pub fn finish<E: Sink>(err: &mut E, names: &[&str], answer: Answer) -> Ended
    ensures ended { result ≡ ended_of answer }
    ensures status { result.status ≡ status_of result.status result.why }
    ensures quiet { HasNoLine result.why → err.new ≡ err.old }
{
    report(err, name_at(names, answer.file()), &answer);
    answer.ended()
}

// The name with this number, empty where there is none.
fn name_at<'a>(names: &[&'a str], number: u32) -> &'a str {
    match names.get(number as usize) {
        Some(name) => name,
        None => "",
    }
}

// Puts the line of an answer about this file.
fn report<E: Sink>(err: &mut E, file: &str, answer: &Answer)
    ensures quiet { HasNoLine (ended_of answer.now).why → err.new ≡ err.old }
{
    let mut line = Line { sink: err };
    let _ = match answer {
        Answer::Done => Ok(()),
        Answer::Ran(end) => report_end(&mut line, *end),
        Answer::Undefined { place, why, .. } => {
            write!(line, "mtcc: {file}:{place}: undefined {why}\n")
        }
        Answer::Usage => write!(line, "mtcc: usage\n"),
        Answer::Refused { place, refusal, .. } => report_refusal(&mut line, file, *place, refusal),
        Answer::NoFile { .. } => write!(line, "mtcc: {file}: no such file\n"),
        Answer::Link(refusal) => report_link(&mut line, refusal),
        Answer::BadObject { refusal, .. } => report_object(&mut line, file, refusal),
        Answer::BadImage { refusal, .. } => report_run(&mut line, file, refusal),
        Answer::BadDump { refusal, .. } => report_dump(&mut line, file, refusal),
        Answer::NoMemory => write!(line, "mtcc: out of memory\n"),
        Answer::WriteFault { .. } => write!(line, "mtcc: {file}: write fault\n"),
        Answer::OutputFault => write!(line, "mtcc: output fault\n"),
        Answer::ReadFault { .. } => write!(line, "mtcc: {file}: read fault\n"),
    };
}
