//! Copying structs.

ghost use Rattle.std.specs.Prelude.{◌≡◌};
ghost use Rattle.block_meaning.specs.Access as access;
ghost use Rattle.block_meaning.specs.Memory as spec;
ghost use Rattle.block_meaning.specs.Running.{Context, State, with_blocks};
ghost use Rattle.mean_effects.specs.Answered.{copied_apart, copied_onto, copy_of};
ghost use Rattle.mean_effects.specs.Shown.{IsNow, IsHere, Gives};

use crate::access::access;
use crate::answers::{answered, done};
use crate::here::Here;
use crate::now::{Ending, Now};
use crate::object::Object;
use block_meaning::{Access, Pointer, Reason};
use c_ast::Span;

/// The copy of a struct: from where to where, the expressions that say so, and the one that copies.
#[derive(Clone, Copy)]
pub struct Copy<'a> {
    pub source: Object<'a>,
    pub target: Object<'a>,
    pub source_span: Span,
    pub target_span: Span,
    pub span: Span,
}

/// An access is judged, but for what the cells hold.
fn judged(n: &mut Now, h: Here, span: Span, a: Access) -> Result<(), Ending>
    ensures { (here : Context) (now : State) → IsHere h.entry here → IsNow n.old now
        → Gives n.new now result (spec.judged here span a now) }
{
    answered(h, span, n.memory.judged(a))
}

/// Two places of so many bytes share some and are not one.
fn overlap(p: Pointer, q: Pointer, bytes: u64) -> bool
    ensures { result ≡ access.overlap p q bytes }
{
    p.block == q.block
        && p.offset != q.offset
        && p.offset.saturating_sub(q.offset) < bytes
        && q.offset.saturating_sub(p.offset) < bytes
}

/// So many cells are copied, from one block to another or within one.
fn move_cells(n: &mut Now, source: Pointer, target: Pointer, bytes: u64) -> Result<(), Ending>
    ensures { (now : State) → IsNow n.old now → Gives n.new now result (with_blocks (spec.copied source target bytes) now) }
{
    done(n.memory.copy(source, target, bytes))
}

/// A struct is copied whose accesses were judged.
fn copy_apart(n: &mut Now, h: Here, c: Copy, to: Access) -> Result<(), Ending>
    ensures { (here : Context) (now : State) → IsHere h.entry here → IsNow n.old now
        → Gives n.new now result (copied_apart here (copy_of c.entry) to now) }
{
    if overlap(c.source.at, c.target.at, to.size) {
        Err(Ending::Undefined(Reason::Overlap, h.unit, c.span))
    } else {
        move_cells(n, c.source.at, c.target.at, to.size)
    }
}

/// A struct is copied whose source was judged.
fn copy_onto(n: &mut Now, h: Here, c: Copy, to: Access) -> Result<(), Ending>
    ensures { (here : Context) (now : State) → IsHere h.entry here → IsNow n.old now
        → Gives n.new now result (copied_onto here (copy_of c.entry) to now) }
{
    match judged(n, h, c.target_span, to) {
        Ok(()) => copy_apart(n, h, c, to),
        Err(e) => Err(e),
    }
}

/// Copies a struct cell by cell: first the source is judged, then the target, and then whether the two share a part. One whose bytes
/// are no number of 64 bits finds no memory.
pub fn copy_struct(n: &mut Now, h: Here, c: Copy) -> Result<(), Ending>
    ensures { (here : Context) (now : State) → IsHere h.entry here → IsNow n.old now
        → Gives n.new now result (spec.copy_struct here (copy_of c.entry) now) }
{
    let Some(from) = access(h, false, c.source) else {
        return Err(Ending::NoMemory);
    };
    let Some(to) = access(h, true, c.target) else {
        return Err(Ending::NoMemory);
    };
    match judged(n, h, c.source_span, from) {
        Ok(()) => copy_onto(n, h, c, to),
        Err(e) => Err(e),
    }
}
