// From the text of a source to the words of its code.
ghost use Rattle.std.specs.Prelude.{IfOk, IfErr};
ghost use Rattle.mt_compile.specs.Compiled.{Compiled};
ghost use Rattle.mt_compile.specs.Refused.{IsCause};
ghost use Rattle.mt_compile.specs.Source.{ReturnsOnly};

use crate::code::words_of;
use crate::constant::constant_of;
use crate::program::program_of;
use crate::refusal::CompileRefusal;
use crate::refused::Refused;
use crate::source::SourceText;
use std::alloc::Global;

/// The words of a source's code, or its refusal with the byte that is told of it.
pub fn compile(alloc: Global, text: &SourceText) -> Result<Vec<u32>, Refused<CompileRefusal>>
    ensures code { IfOk result (λ words. Compiled text.now.bytes.items words.items) }
    ensures refused { IfErr result (IsCause text.now.bytes.items) }
{
    match constant_in(alloc, &text.bytes) {
        Ok(n) => Ok(words_of(alloc, n)?),
        Err(refused) => Err(refused),
    }
}

// The constant that the program of a text returns.
fn constant_in(alloc: Global, text: &[u8]) -> Result<u32, Refused<CompileRefusal>>
    ensures constant { IfOk result (ReturnsOnly text.now) }
    ensures refused { IfErr result (IsCause text.now) }
{
    let program = match program_of(alloc, text) {
        Ok(program) => program,
        Err(refused) => return Err(refused),
    };
    match constant_of(&program) {
        Some(n) => Ok(n),
        None => Err(Refused {
            refusal: CompileRefusal::NotYet,
            place: 0,
        }),
    }
}
