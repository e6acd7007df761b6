//! How a run begins.

ghost use Rattle.std.specs.Prelude.{◌≡◌, ℕ, List, [], codes, Some};
ghost use Rattle.block_meaning.specs.Linkage.{AFunction, defined, structs_of};
ghost use Rattle.block_meaning.specs.Meaning as meaning;
ghost use Rattle.block_meaning.specs.Meaning.{outside_of_calls};
ghost use Rattle.block_meaning.specs.Opening.{opening};
ghost use Rattle.block_meaning.specs.Running.{Program, State};
ghost use Rattle.mean_machine.specs.Steps as machine;
ghost use Rattle.mean_memory.specs.Standing.{IsMemory};
ghost use Rattle.mean_run.specs.Calling.{function_by};
ghost use Rattle.mean_run.specs.Processes.{IsProcess, Moves};
ghost use Rattle.mean_start.specs.Files.{IsProgram};

use crate::calls::enter;
use crate::process::Process;
use c_type_base::StructInfo;
use mean_effects::{Ending, Here, Now, spend};
use mean_expressions::Control;
use mean_memory::Memory;
use mean_start::{File, FunctionId};
use sqlite_items::at;
use std::alloc::Global;

/// The structs of the first file.
fn first_structs<'a>(files: &'a [File<'a>]) -> &'a [StructInfo]
    ensures { (program : Program) → IsProgram files.now program → result.now ≡ structs_of program.units 0 }
{
    match at(files, 0) {
        Some(file) => file.typed.structs.as_slice(),
        None => &[],
    }
}

/// A run before the call of `main`, outside of calls.
pub fn before<'a>(
    alloc: Global,
    files: &'a [File<'a>],
    stack: u64,
    memory: Memory,
    work: u64,
) -> Process<'a>
    ensures { (program : Program) (input : List ℕ) → IsProgram files.now program → stack ≡ program.stack
        → IsMemory memory (opening program.units)
        → IsProcess result (outside_of_calls program) [] (meaning.before program input work) }
{
    Process {
        now: Now {
            memory,
            work,
            calls: 0,
        },
        locals: Vec::new(alloc),
        stack: Vec::new(alloc),
        here: Here {
            files,
            stack,
            unit: 0,
            structs: first_structs(files),
            locals: &[],
            call: 0,
            place: 0,
            base: 0,
        },
    }
}

/// The call of `main`, the function of a number in its file.
pub fn begin<'a>(p: &mut Process<'a>, main: FunctionId) -> Result<Control<'a>, Ending>
    ensures { (program : Program) (now : State) → IsProcess p.old (outside_of_calls program) [] now
        → defined program.units (codes "main") ≡ Some (AFunction (function_by main))
        → Moves p.new now result (machine.begin program now) }
{
    match spend(&mut p.now) {
        Ok(()) => enter(p, main, &[]),
        Err(e) => Err(e),
    }
}
