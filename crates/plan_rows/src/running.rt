// Where a row's words run.
ghost use Rattle.std.specs.Prelude.{◌≡◌, IfOk, Bool, true, false};
ghost use Rattle.tag_mem.specs.Regions.{extent_of};

use crate::code::{FACTOR, around};
use crate::told::told;
use mt_base::Tag;
use mt_outside::{MemSink, MemSource};
use mte_machine::{Machine, MachineEnd};
use std::alloc::{AllocError, Global};
use tag_mem::{FlatMemory, Region, Span64, TagMemory};

const CODE: u64 = 0x1000_0000;

const DATA: u64 = 0x2000_0000;

/// Behind the highest byte of each frame.
const TOP: u64 = 0x2004_2000;

/// So many bytes below and above the frame are looked at too. They have the tag 3.
const AROUND: u64 = 256;

/// The most bytes that are put out, and steps that are made.
const MOST: u64 = 10_000_000;

/// A region of as many bytes of zero, which may be written and executed as is said.
fn region(alloc: Global, start: u64, count: usize, executable: bool) -> Result<Region, AllocError>
    ensures { IfOk result (λ r. extent_of r ≡ record { start = start; bytes = count; writable = true; executable = executable }) }
{
    Ok(Region {
        start,
        bytes: vec![in alloc; 0; count]?,
        writable: true,
        executable,
    })
}

fn empty_memory(alloc: Global) -> Result<FlatMemory, AllocError> {
    let code = region(alloc, 0x1000_0000, 0x4000, true)?;
    let data = region(alloc, 0x2000_0000, 0x4_3000, false)?;
    let guard = Span64 {
        start: 0x3000_0000,
        bytes: 16,
    };
    FlatMemory::new(alloc, vec![in alloc; code, data]?, guard)
}

/// Memory with these words, and with a frame from a place on: each of its doublewords, and of those around, is its address times a factor.
fn memory(alloc: Global, words: &[u32], sp: u64) -> Result<FlatMemory, AllocError> {
    let mut memory = empty_memory(alloc)?;
    let mut at = CODE;
    for word in words {
        memory.write(at, &word.to_le_bytes());
        at = at.wrapping_add(4);
    }
    let from = sp.wrapping_sub(AROUND);
    for place in 0..(TOP + AROUND).saturating_sub(from) / 8 {
        let at = from.wrapping_add(place.wrapping_mul(8));
        memory.write(at, &at.wrapping_mul(FACTOR).to_le_bytes());
    }
    let around = Tag::new(3).unwrap_or(Tag::zero());
    for granule in 0..AROUND / 16 {
        memory.set_tag(from.wrapping_add(16 * granule), around);
        memory.set_tag(TOP + 16 * granule, around);
    }
    Ok(memory)
}

/// The state after some words, in the frame of so many bytes, where this tag is drawn.
pub fn state_after(
    alloc: Global,
    bytes: u64,
    tag: Tag,
    words: &[u32],
) -> Result<String, AllocError> {
    let sp = TOP.saturating_sub(bytes);
    let from = sp.saturating_sub(AROUND);
    let granules = (TOP + AROUND).saturating_sub(from) / 16;
    let code = around(alloc, words, from, granules)?;
    let mut machine = Machine::new(memory(alloc, &code, sp)?, CODE, sp, vec![in alloc; tag]?, 0);
    let mut source = MemSource::new(Vec::new(alloc), Vec::new(alloc));
    let mut sink = MemSink::new(alloc, MOST, Vec::new(alloc))?;
    match machine.run(&mut source, &mut sink, MOST) {
        MachineEnd::Exited(0) => told(alloc, sp, sink.taken()),
        _ => String::from_str(alloc, "another end"),
    }
}
