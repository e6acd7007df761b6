//! The function in which a program's run begins (C11 5.1.2.2.1).

ghost use Rattle.std.specs.Prelude.{◌≡◌, codes, Some, IfOk, IfSome};
ghost use Rattle.block_meaning.specs.Linkage.{AFunction, function_of, defined};

use crate::file::FunctionId;
use crate::names::names_of;
use crate::starts::starts_of;
use c_type_base::Typed;
use std::alloc::{AllocError, Global};

/// The function `main`, if a file defines it for all files.
///
/// # Errors
///
/// Where the host has no memory left.
pub fn main_of(alloc: Global, units: &[Typed]) -> Result<Option<FunctionId>, AllocError>
    ensures { IfOk result (λ main. IfSome main (λ f.
        defined units.now (codes "main") ≡ Some (AFunction (function_of f.unit f.number)))) }
{
    let starts = starts_of(alloc, units)?;
    let names = names_of(alloc, units, &starts)?;
    match names.get(&b"main".as_slice()) {
        None => Ok(None),
        Some(meant) => Ok(meant.function),
    }
}
