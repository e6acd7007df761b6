// A row that runs.
ghost use Rattle.std.specs.Prelude.{◌≢◌, [], IfOk};

use crate::after;
use crate::before::{Before, Numbers};
use crate::code::Code;
use crate::layout::{AFTER, CODE, SETUP, lay, memory};
use mt_base::Tag;
use mt_outside::{MemSink, MemSource};
use mte_machine::{Machine, MachineEnd, Step};
use std::alloc::{AllocError, Global};
use tag_mem::FlatMemory;
use test_rows::{Row, hex};

/// How a row's words run.
#[derive(Clone, Copy)]
enum Way {
    AtOnce,
    InPieces,
    BySteps,
}

/// The code of a row: what sets its registers up, its words, and what puts out what its answer asks for.
#[derive(Drop)]
struct Program {
    before: Before,
    words: Code,
    after: Code,
}

pub fn answer(alloc: Global, row: Row) -> Result<String, AllocError> {
    let (words, before) = match row.question.split_once('|') {
        Some((words, before)) => (words, before),
        None => (row.question, ""),
    };
    let words = words_of(alloc, words)?;
    let before = Before::of(alloc, before)?;
    let (Some(words), Some(before)) = (words, before) else {
        return String::from_str(alloc, "no row");
    };
    let after = after::code_of(alloc, row.answer)?;
    let program = Program {
        before,
        words,
        after,
    };
    let found = program.told(alloc, row.answer, Way::AtOnce)?;
    for way in [Way::InPieces, Way::BySteps] {
        let other = program.told(alloc, row.answer, way)?;
        if other.as_str() != found.as_str() {
            return format!(in alloc; "{found} or, not at once, {other}");
        }
    }
    Ok(found)
}

/// Words in hexadecimal, followed by a branch to the code after them.
fn words_of(alloc: Global, text: &str) -> Result<Option<Code>, AllocError> {
    let mut code = Code {
        words: Vec::new(alloc),
    };
    let mut distance = AFTER - CODE;
    for word in text.split_whitespace() {
        match hex(word).and_then(|word| u32::try_from(word).ok()) {
            Some(word) => code.put(&[word])?,
            None => return Ok(None),
        }
        distance = distance.saturating_sub(4);
    }
    code.branch(distance)?;
    Ok(Some(code))
}

impl Program {
    fn told(&self, alloc: Global, answer: &str, way: Way) -> Result<String, AllocError> {
        let numbers = self.before.numbers;
        let mut source = MemSource::new(
            Vec::from_slice(alloc, &self.before.input)?,
            vec![in alloc; numbers.failing_read]?,
        );
        let mut sink = MemSink::new(alloc, numbers.room, vec![in alloc; numbers.failing_write]?)?;
        let mut machine = self.machine(alloc)?;
        let end = run(&mut machine, &mut source, &mut sink, self.steps(), way);
        if !ends_again(&mut machine, &mut source, &mut sink, end) {
            return String::from_str(alloc, "another end the second time");
        }
        after::told(alloc, answer, end, sink.taken())
    }

    /// The steps that set registers up, and those of the row.
    fn steps(&self) -> u64 {
        let setup = self.before.setup.words.len() as u64;
        setup.saturating_add(self.before.numbers.steps)
    }

    fn machine(&self, alloc: Global) -> Result<Machine<FlatMemory>, AllocError> {
        let numbers = self.before.numbers;
        let mut memory = memory(alloc, &self.before.tags)?;
        lay(&mut memory, SETUP, &self.before.setup.words);
        lay(&mut memory, CODE, &self.words.words);
        lay(&mut memory, AFTER, &self.after.words);
        let choices = choices_of(alloc, &self.before.choices)?;
        Ok(Machine::new(memory, SETUP, 0, choices, numbers.drawn))
    }
}

/// The choices of a machine, which is tag 0 alone where the row gives none.
fn choices_of(alloc: Global, given: &[Tag]) -> Result<Vec<Tag>, AllocError>
    ensures { IfOk result (λ choices. choices.items ≢ []) }
{
    let mut choices = Vec::from_slice(alloc, given)?;
    if choices.len() == 0 {
        choices.push(Tag::zero())?;
    }
    Ok(choices)
}

fn run(
    machine: &mut Machine<FlatMemory>,
    source: &mut MemSource,
    sink: &mut MemSink,
    steps: u64,
    way: Way,
) -> MachineEnd {
    match way {
        Way::AtOnce => machine.run(source, sink, steps),
        Way::InPieces => run_in_pieces(machine, source, sink, steps),
        Way::BySteps => run_by_steps(machine, source, sink, steps),
    }
}

/// Runs seven steps at a time.
fn run_in_pieces(
    machine: &mut Machine<FlatMemory>,
    source: &mut MemSource,
    sink: &mut MemSink,
    steps: u64,
) -> MachineEnd {
    for _ in 0..steps / 7 {
        let end = machine.run(source, sink, 7);
        if end != MachineEnd::OutOfSteps {
            return end;
        }
    }
    machine.run(source, sink, steps % 7)
}

fn run_by_steps(
    machine: &mut Machine<FlatMemory>,
    source: &mut MemSource,
    sink: &mut MemSink,
    steps: u64,
) -> MachineEnd {
    for _ in 0..steps {
        if let Step::Ended(end) = machine.step(source, sink) {
            return end;
        }
    }
    MachineEnd::OutOfSteps
}

/// Whether what ended the run ends it again. A source or a sink that failed may fail no more.
fn ends_again(
    machine: &mut Machine<FlatMemory>,
    source: &mut MemSource,
    sink: &mut MemSink,
    end: MachineEnd,
) -> bool {
    match end {
        MachineEnd::OutOfSteps | MachineEnd::InputFault | MachineEnd::OutputFault => {
            machine.run(source, sink, 0) == MachineEnd::OutOfSteps
        }
        _ => machine.step(source, sink) == Step::Ended(end),
    }
}
