//! A program's files with what their names stand for.

ghost use Rattle.std.specs.Prelude.{◌≡◌, ◌<◌, length, slice_get, Some, IfOk};
ghost use Rattle.block_meaning.specs.Linkage.{defined};
ghost use Rattle.block_meaning.specs.Running.{Program};
ghost use Rattle.mean_start.specs.Files.{IsFile, IsProgram, frames_in};
ghost use Rattle.mean_start.specs.Known.{Knows};
ghost use Rattle.mean_start.specs.Numbers.{IsStart};

use crate::file::{File, FrameSizes};
use crate::linking::externs_of;
use crate::names::{Names, names_of};
use crate::starts::{Starts, starts_of};
use c_type_base::Typed;
use std::alloc::{AllocError, Global};

/// The file of a number.
fn file_at<'a>(
    alloc: Global,
    names: &Names,
    units: &'a [Typed],
    starts: Starts,
    unit: usize,
    frames: &'a [u64],
) -> Result<File<'a>, AllocError>
    requires known { Knows names.now units.now (defined units.now) }
    requires within { unit < length units.now }
    requires starts { IsStart starts units.now unit }
    ensures { IfOk result (λ f. (program : Program) → program.units ≡ units.now → slice_get program.frames unit ≡ Some frames.now
        → IsFile f program unit) }
{
    let typed = &units[unit];
    let externs = externs_of(alloc, names, units, typed)?;
    Ok(File {
        typed,
        frames,
        objects: starts.objects,
        texts: starts.texts,
        functions: starts.functions,
        externs,
    })
}

/// The files of a program, each with what its names stand for.
pub fn files<'a>(
    alloc: Global,
    units: &'a [Typed],
    frames: &'a FrameSizes,
) -> Result<Vec<File<'a>>, AllocError>
    requires { length frames.now.bytes.items ≡ length units.now }
    ensures { IfOk result (λ made. (program : Program) → program.units ≡ units.now → program.frames ≡ frames_in frames.now
        → IsProgram made.items program) }
{
    let starts = starts_of(alloc, units)?;
    let names = names_of(alloc, units, &starts)?;
    let mut made = Vec::new(alloc);
    for unit in 0..units.len() {
        let file = file_at(
            alloc,
            &names,
            units,
            starts[unit],
            unit,
            frames.bytes[unit].as_slice(),
        )?;
        made.push(file)?;
    }
    Ok(made)
}
