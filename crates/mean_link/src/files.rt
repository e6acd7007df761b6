//! The link of typed files.

ghost use Rattle.std.specs.Prelude.{◌≡◌, length, IfErr, IfOk, OnOk};
ghost use Rattle.mean_link.specs.LinkFault.{AreLinked, IsLinkCause};
ghost use Rattle.mean_link.specs.Names.{names_in};

use crate::judge::judge;
use crate::names::{FileNames, names_of};
use c_ast::Program;
use c_type_base::Typed;
use linker::LinkRefusal;
use sqlite_items::Items;
use std::alloc::{AllocError, Global};

/// The greatest number of files that are linked.
const MOST_FILES: usize = 16;

/// What a link sees of the files.
fn names_of_all(
    alloc: Global,
    programs: &[Program],
    units: &[Typed],
) -> Result<Items<FileNames>, AllocError>
    requires { length programs.now ≡ length units.now }
    ensures { IfOk result (λ files. files ≡ names_in programs.now units.now) }
{
    let mut files = Items::new(alloc);
    for number in 0..units.len() {
        let names = names_of(alloc, &programs[number], &units[number])?;
        files.push(names)?;
    }
    Ok(files)
}

/// Whether the typed files of these texts link, of which there are 16 at most, and else the first reason why they do not, as the linker
/// judges the objects that are made of them.
///
/// # Errors
///
/// `TooManyObjects`, `Duplicate`, `NoMain` and `Undefined`, in this order.
pub fn link(alloc: Global, programs: &[Program], units: &[Typed]) -> Result<(), LinkRefusal>
    requires { length programs.now ≡ length units.now }
    ensures linked { OnOk result (AreLinked (names_in programs.now units.now)) }
    ensures refused { IfErr result (IsLinkCause (names_in programs.now units.now)) }
{
    if units.len() > MOST_FILES {
        return Err(LinkRefusal::TooManyObjects {
            count: units.len() as u64,
        });
    }
    let files = names_of_all(alloc, programs, units)?;
    judge(alloc, files.as_slice())
}
