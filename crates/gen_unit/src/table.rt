//! The table of a function's labels.

ghost use Rattle.std.specs.Prelude.{◌≡◌, ◌≤◌, ◌<◌, ◌^◌, ℕ, IfOk, OnOk};
ghost use Rattle.std.specs.Vec.{vec_len};
ghost use Rattle.frame_layout.specs.WellFormed.{IsWellFormed};
ghost use Rattle.gen_unit.specs.Appended.{AreLabels, Notes, entry_of, first_of, form};

use crate::labels::Labels;
use crate::lengths::{after, item_length};
use frame_layout::Frame;
use std::alloc::{AllocError, Global};
use sym_code::SymItem;

// The table has so many entries at least.
fn grow(places: &mut Vec<Option<u32>>, count: usize) -> Result<(), AllocError>
    ensures room { OnOk result (count ≤ vec_len places.new) }
    ensures same { OnOk result ((n : ℕ) → entry_of places.new.items n ≡ entry_of places.old.items n) }
{
    while places.len() < count {
        places.push(None)?;
    }
    Ok(())
}

// A label stands at a place, unless one with the number stands before it.
fn put(places: &mut Vec<Option<u32>>, label: u32, place: u32) -> Result<(), AllocError>
    ensures here { OnOk result (entry_of places.new.items label ≡ first_of (entry_of places.old.items label) place) }
    ensures others { OnOk result ((n : ℕ) → (n ≡ label → ⊥) → entry_of places.new.items n ≡ entry_of places.old.items n) }
{
    let number = label as usize;
    grow(places, number + 1)?;
    if places[number].is_none() {
        places[number] = Some(place);
    }
    Ok(())
}

// An item stands at a place.
fn note(places: &mut Vec<Option<u32>>, item: &SymItem, place: u32) -> Result<(), AllocError>
    ensures { OnOk result (Notes places.old.items item.now place places.new.items) }
{
    match item {
        SymItem::Label(label) => put(places, *label, place),
        _ => Ok(()),
    }
}

/// Where the labels of some items stand, which begin at a place.
pub fn labels(
    alloc: Global,
    frame: &Frame,
    long: bool,
    items: &[SymItem],
    at: u32,
) -> Result<Labels, AllocError>
    requires frame { IsWellFormed frame.now }
    requires near { at < 2 ^ 25 }
    ensures are { IfOk result (AreLabels (form frame.now long) at items.now) }
    ensures near { IfOk result (λ labels. labels.end < 2 ^ 25) }
{
    let mut places = Vec::new(alloc);
    let mut place = at;
    for item in items {
        note(&mut places, item, place)?;
        place = after(place, item_length(alloc, frame, long, item)?)?;
    }
    Ok(Labels {
        places,
        end: place,
        long,
    })
}
