// From the text of a source to the lines that tell the frames of its functions.
ghost use Rattle.std.specs.Prelude.{IfOk, IfErr};
ghost use Rattle.mt_compile.specs.Planned.{HasPlan, IsPlanCause};

use crate::refusal::CompileRefusal;
use crate::refused::Refused;
use crate::typed::typed_of;
use frame_plan::plan;
use std::alloc::Global;

/// The lines that tell the frames of a text's functions, or the text's refusal with the byte that is told of it.
pub fn plan_of(alloc: Global, text: &[u8]) -> Result<Vec<u8>, Refused<CompileRefusal>>
    ensures lines { IfOk result (λ lines. HasPlan text.now lines.items) }
    ensures refused { IfErr result (IsPlanCause text.now) }
{
    let typed = match typed_of(alloc, text) {
        Ok(typed) => typed,
        Err(refused) => return Err(refused),
    };
    match plan(alloc, &typed) {
        Ok(lines) => Ok(lines),
        Err(refusal) => Err(CompileRefusal::of_plan(refusal)),
    }
}
