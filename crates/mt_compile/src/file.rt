// From the text of a source to what its meaning is computed from.
ghost use Rattle.std.specs.Prelude.{IfOk, IfErr};
ghost use Rattle.mt_compile.specs.Planned.{HasFile, IsPlanCause};

use crate::program::program_of;
use crate::refusal::CompileRefusal;
use crate::refused::Refused;
use c_ast::Program;
use c_types::{Typed, check};
use frame_plan::frame_sizes;
use std::alloc::Global;

/// A source with its types.
#[derive(Drop)]
pub struct TypedFile {
    /// What its text spells.
    pub program: Program,
    /// The same with its types.
    pub typed: Typed,
    /// The bytes of its functions' frames, in the order of the functions.
    pub frames: Vec<u64>,
}

/// The program of a text with its types and the bytes of its functions' frames, or the text's refusal with the byte that is told of it:
/// the same as that of `plan_of`.
pub fn typed_file(alloc: Global, text: &[u8]) -> Result<TypedFile, Refused<CompileRefusal>>
    ensures file { IfOk result (λ file. HasFile text.now file.program file.typed file.frames.items) }
    ensures refused { IfErr result (IsPlanCause text.now) }
{
    let program = match program_of(alloc, text) {
        Ok(program) => program,
        Err(refused) => return Err(refused),
    };
    let typed = match check(alloc, &program) {
        Ok(typed) => typed,
        Err(refusal) => return Err(CompileRefusal::of_types(refusal)),
    };
    match frame_sizes(alloc, &typed) {
        Ok(frames) => Ok(TypedFile {
            program,
            typed,
            frames,
        }),
        Err(refusal) => Err(CompileRefusal::of_plan(refusal)),
    }
}
