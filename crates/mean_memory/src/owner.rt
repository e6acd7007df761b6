//! To which call the blocks that are alive belong.

ghost use Rattle.std.specs.Prelude.{◌≡◌, ◌≤◌, ◌-◌, false, true, length, slice_get, IsTrue, Some};
ghost use Rattle.block_meaning.specs.Access.{is_null_block};
ghost use Rattle.block_meaning.specs.Meaning as spec;
ghost use Rattle.mean_memory.specs.Owners.{owner, InOrder, UpTo};
ghost use Rattle.mean_memory.specs.Shown.{IsLatestLocal, IsLatestOf};

use crate::slot::Slot;
use block_meaning::Kind;

/// Whether a block of the one kind may come before one of the other: those of files come first, and then those of each call.
fn may_follow(earlier: Kind, later: Kind) -> bool
    ensures { IsTrue result → owner earlier ≤ owner later }
{
    match earlier {
        Kind::Local(first, _) => match later {
            Kind::Local(second, _) => first <= second,
            _ => false,
        },
        _ => true,
    }
}

/// Whether a block may be the latest.
pub fn may_push(slots: &[Slot], kind: Kind) -> bool
    ensures { IsTrue result → InOrder slots.now → UpTo (owner kind) slots.now }
{
    match slots.last() {
        Some(slot) => may_follow(slot.kind, kind),
        None => true,
    }
}

fn is_of_call(call: u64, kind: Kind) -> bool
    ensures { result ≡ spec.is_of_call call kind }
{
    match kind {
        Kind::Local(c, _) => c == call,
        _ => false,
    }
}

fn is_local(kind: Kind) -> bool
    ensures { IsTrue result → is_null_block kind ≡ false }
{
    match kind {
        Kind::Local(_, _) => true,
        _ => false,
    }
}

/// Whether the latest block that is alive is a local and has a number.
pub fn is_latest(slots: &[Slot], number: u64) -> bool
    ensures { IsTrue result → IsLatestLocal slots.now number }
{
    match slots.last() {
        Some(slot) => slot.number == number && is_local(slot.kind),
        None => false,
    }
}

/// Whether the latest block that is alive belongs to a call.
pub fn is_latest_of(slots: &[Slot], call: u64) -> bool
    ensures { IsTrue result → IsLatestOf slots.now call }
{
    match slots.last() {
        Some(slot) => is_of_call(call, slot.kind),
        None => false,
    }
}

fn is_before(kind: Kind, call: u64) -> bool
    ensures { IsTrue result → owner kind ≤ call }
{
    match kind {
        Kind::Local(c, _) => c < call,
        _ => true,
    }
}

/// Whether all blocks that are alive belong to files and to earlier calls.
pub fn all_before(slots: &[Slot], call: u64) -> bool
    ensures { IsTrue result → InOrder slots.now → UpTo call slots.now }
{
    match slots.last() {
        Some(slot) => is_before(slot.kind, call),
        None => true,
    }
}
