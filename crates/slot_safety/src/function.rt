//! The kinds of a function's parameters and locals.

ghost use Rattle.std.specs.Prelude.{◌≡◌, IfOk};
ghost use Rattle.slot_safety.specs.Kinds.{kinds};

use crate::kind::Kind;
use crate::statement::spread_stmt;
use c_type_base::{StructInfo, TFunction};
use std::alloc::{AllocError, Global};

/// The kind of each parameter and local, in order. Those are tagged with an occurrence that is not
/// harmless: one whose address is taken or let go, that an index may leave, or that is no scalar and
/// read or written whole. Nothing below `sizeof` is an occurrence.
///
/// # Errors
/// Want of memory alone.
pub fn classify(
    alloc: Global,
    function: &TFunction,
    structs: &[StructInfo],
) -> Result<Vec<Kind>, AllocError>
    ensures { IfOk result (λ classified. classified.items ≡ kinds structs.now function.now) }
{
    let mut classified = vec![in alloc; Kind::Safe; function.locals.as_slice().len()]?;
    spread_stmt(&function.body, structs, classified.as_mut_slice());
    Ok(classified)
}
