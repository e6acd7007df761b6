// From the text of a source to its program with its types.
ghost use Rattle.std.specs.Prelude.{IfOk, IfErr};
ghost use Rattle.mt_compile.specs.Typed.{IsTyped, IsTypeCause};

use crate::program::program_of;
use crate::refusal::CompileRefusal;
use crate::refused::Refused;
use c_types::{Typed, check};
use std::alloc::Global;

/// The program of a text with its types, or the text's refusal with the byte that is told of it.
pub fn typed_of(alloc: Global, text: &[u8]) -> Result<Typed, Refused<CompileRefusal>>
    ensures typed { IfOk result (IsTyped text.now) }
    ensures refused { IfErr result (IsTypeCause text.now) }
{
    let program = match program_of(alloc, text) {
        Ok(program) => program,
        Err(refused) => return Err(refused),
    };
    match check(alloc, &program) {
        Ok(typed) => Ok(typed),
        Err(refusal) => Err(CompileRefusal::of_types(refusal)),
    }
}
