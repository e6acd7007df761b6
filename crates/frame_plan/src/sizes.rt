// The numbers of bytes, one for each function.
ghost use Rattle.std.specs.Prelude.{◌≡◌, ◌⊎◌, IfOk, IfErr};
ghost use Rattle.c_type_base.specs.Layout.{LaidOut};
ghost use Rattle.c_type_base.specs.Sizes.{HaveObjects};
ghost use Rattle.frame_plan.specs.Refusal.{HasNoText, HasSizes};
ghost use Rattle.frame_plan.specs.Laws.OneText.{AreMeasured, AreRefused};

use crate::lines::{MOST_FUNCTIONS, frame_of};
use crate::refusal::PlanRefusal;
use c_type_base::{StructInfo, TFunction, Typed};
use std::alloc::Global;

/// The bytes of the frames of a program's functions, in order.
///
/// # Errors
/// Those of `plan`: `TooManyFunctions` exactly over 512 functions, and else `FrameTooLarge` exactly for the first function whose frame
/// has more than 262,144 bytes.
pub fn frame_sizes(alloc: Global, typed: &Typed) -> Result<Vec<u64>, PlanRefusal>
    requires laid_out { LaidOut typed.now.structs }
    requires objects { HaveObjects typed.now.structs typed.now.functions }
    ensures found { IfOk result (λ sizes. HasSizes typed.now sizes.items) }
    ensures refused { IfErr result (λ e. (e ≡ PlanRefusal.NoMemory) ⊎ HasNoText typed.now e) }
{
    let functions = typed.functions.as_slice();
    if functions.len() > MOST_FUNCTIONS {
        return Err(PlanRefusal::TooManyFunctions {
            count: functions.len() as u64,
        });
    }
    sizes_of(alloc, functions, typed.structs.as_slice())
}

// The bytes of the frames of some functions.
fn sizes_of(
    alloc: Global,
    functions: &[TFunction],
    structs: &[StructInfo],
) -> Result<Vec<u64>, PlanRefusal>
    requires laid_out { LaidOut structs.now }
    requires objects { HaveObjects structs.now functions.now }
    ensures found { IfOk result (λ sizes. AreMeasured structs.now functions.now sizes.items) }
    ensures refused { IfErr result (λ e. (e ≡ PlanRefusal.NoMemory) ⊎ AreRefused structs.now functions.now e) }
{
    let mut sizes = Vec::new(alloc);
    for function in functions {
        let frame = match frame_of(alloc, function, structs) {
            Ok(frame) => frame,
            Err(refusal) => return Err(refusal),
        };
        sizes.push(frame.bytes)?;
    }
    Ok(sizes)
}
