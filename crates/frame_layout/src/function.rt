//! The frame of a function.

ghost use Rattle.std.specs.Prelude.{◌≡◌, ◌≤◌, min, IfOk, IfErr};
ghost use Rattle.c_type_base.specs.Layout.{LaidOut};
ghost use Rattle.c_type_base.specs.Sizes.{AreObjects, HaveBytes};
ghost use Rattle.frame_layout.specs.Needs.{greatest};
ghost use Rattle.frame_layout.specs.Parts.{ArePositive};
ghost use Rattle.frame_layout.specs.Frames as spec;
ghost use Rattle.frame_layout.specs.Layouts.{IsLaid, Refuses};
ghost use Rattle.frame_layout.specs.WellFormed.{IsWellFormed};

use crate::ends::{rounded_up, safe_end, tagged_end};
use crate::frame::{Frame, LayoutRefusal};
use crate::held::parts;
use crate::need_stmt::need_stmt;
use crate::placed::{Part, slots};
use c_type_base::{StructInfo, TFunction};
use std::alloc::Global;

/// The greatest number of bytes of a frame.
const LARGEST_FRAME: u128 = 262144;

/// A count, or the greatest number where it is more.
fn told(count: u128) -> u64
    ensures { result ≡ min count greatest }
{
    if count < u64::MAX as u128 {
        count as u64
    } else {
        u64::MAX
    }
}

/// The frame of some parts with so many words for values in between.
fn frame_of(alloc: Global, parts: &[Part], words: u64) -> Result<Frame, LayoutRefusal>
    requires { ArePositive parts.now }
    ensures laid { IfOk result (λ frame. IsLaid frame (spec.frame_by words parts.now)) }
    ensures refused { IfErr result (Refuses (spec.frame_by words parts.now)) }
{
    let safe = 24 + 8 * words as u128;
    let tagged = rounded_up(safe_end(parts, safe), 16);
    let bytes = rounded_up(tagged_end(parts, tagged), 16);
    if bytes > LARGEST_FRAME {
        return Err(LayoutRefusal::FrameTooLarge { bytes: told(bytes) });
    }
    match slots(alloc, parts, safe, tagged) {
        Ok(slots) => Ok(Frame {
            slots,
            temps: words,
            bytes: bytes as u64,
        }),
        Err(_) => Err(LayoutRefusal::NoMemory),
    }
}

/// The frame of a function: the saved X29 and X30, the base word, words for values in between, and a
/// slot for each parameter and local.
///
/// # Errors
/// `FrameTooLarge` exactly where it has more than 262,144 bytes.
pub fn layout(
    alloc: Global,
    function: &TFunction,
    structs: &[StructInfo],
) -> Result<Frame, LayoutRefusal>
    requires laid_out { LaidOut structs.now }
    requires objects { AreObjects structs.now function.now.locals }
    ensures laid { IfOk result (λ frame. IsLaid frame (spec.frame structs.now function.now)) }
    ensures well_formed { HaveBytes structs.now → IfOk result IsWellFormed }
    ensures refused { IfErr result (Refuses (spec.frame structs.now function.now)) }
{
    match parts(alloc, function, structs) {
        Ok(parts) => frame_of(alloc, parts.as_slice(), need_stmt(&function.body)),
        Err(_) => Err(LayoutRefusal::NoMemory),
    }
}
