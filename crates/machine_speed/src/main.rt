//! Runs a loop of a load, a sum, a store and a branch for as many steps as the first word says, so that the speed of the
//! machine can be measured (docs/MACHINE.md): every access is checked by its tag. The second word names the memory: `flat`,
//! `pages`, or `largest`, pages of as many bytes as the largest image and the largest stack have.
#![tactic(auto)]

ghost use Rattle.std.specs.Prelude.{◌≡◌, IfOk, true};
ghost use Rattle.tag_mem.specs.Regions.{extent_of, extents_of, IsWellPlaced};
ghost use Rattle.tag_pages.specs.Parts.{extents};

use mt_base::Tag;
use mt_outside::{MemSink, MemSource};
use mte_machine::{Machine, MachineEnd};
use std::alloc::{AllocError, Global};
use std::env;
use std::process::ExitCode;
use tag_mem::{FlatMemory, Region, Span64, TagMemory};
use tag_pages::{Bounds, PagedMemory};

/// Where the loop stands, and where the number that it counts does.
const CODE: u64 = 0x1000_0000;

const LOOP: [u32; 5] = [
    0xD2A7_FFE1, // movz x1, #0x3FFF, lsl #16
    0xF940_0020, // ldr x0, [x1]
    0x9100_0400, // add x0, x0, #1
    0xF900_0020, // str x0, [x1]
    0x17FF_FFFD, // b .-12
];

/// The memory that the loop runs over.
#[derive(Clone, Copy)]
enum Kind {
    Flat,
    Pages,
    Largest,
}

fn main(rt: HostRuntime) -> ExitCode {
    match asked(&rt) {
        Some((steps, kind)) => match measured(rt.alloc(), steps, kind) {
            Ok(MachineEnd::OutOfSteps) => ExitCode::SUCCESS,
            _ => ExitCode::FAILURE,
        },
        None => ExitCode::FAILURE,
    }
}

/// The number of steps and the memory that the words ask for.
fn asked(rt: &HostRuntime) -> Option<(u64, Kind)> {
    let words: Vec<String> = env::args(rt).ok()?.skip(1).collect(rt.alloc()).ok()?;
    let steps = words.first()?.as_str().parse().ok()?;
    let kind = kind_of(words.get(1)?.as_str())?;
    Some((steps, kind))
}

fn kind_of(word: &str) -> Option<Kind> {
    if word == "flat" {
        Some(Kind::Flat)
    } else if word == "pages" {
        Some(Kind::Pages)
    } else if word == "largest" {
        Some(Kind::Largest)
    } else {
        None
    }
}

fn measured(alloc: Global, steps: u64, kind: Kind) -> Result<MachineEnd, AllocError> {
    let guard = Span64 { start: 0, bytes: 0 };
    match kind {
        Kind::Flat => run(alloc, FlatMemory::new(alloc, small(alloc)?, guard)?, steps),
        Kind::Pages => run(alloc, PagedMemory::new(alloc, small(alloc)?, guard)?, steps),
        Kind::Largest => run(
            alloc,
            PagedMemory::zeros(alloc, largest(alloc)?, guard)?,
            steps,
        ),
    }
}

fn region(alloc: Global, start: u64, count: usize, executable: bool) -> Result<Region, AllocError>
    ensures { IfOk result (λ r. extent_of r ≡ record { start = start; bytes = count; writable = true; executable = executable }) }
{
    Ok(Region {
        start,
        bytes: vec![in alloc; 0; count]?,
        writable: true,
        executable,
    })
}

/// A page for the loop, and a small stack for its number.
fn small(alloc: Global) -> Result<Vec<Region>, AllocError>
    ensures { IfOk result (λ rs. IsWellPlaced (extents_of rs.items) (record { start = 0; bytes = 0 })) }
{
    let code = region(alloc, 0x1000_0000, 4096, true)?;
    let data = region(alloc, 0x3FFF_0000, 0x1_0000, false)?;
    Ok(vec![in alloc; code, data]?)
}

/// As many bytes as the largest image has, and the largest stack.
fn largest(alloc: Global) -> Result<Vec<Bounds>, AllocError>
    ensures { IfOk result (λ bs. IsWellPlaced (extents bs.items) (record { start = 0; bytes = 0 })) }
{
    let image = Bounds {
        start: 0x1000_0000,
        bytes: 0x1000_0000,
        writable: true,
        executable: true,
    };
    let stack = Bounds {
        start: 0x3C00_0000,
        bytes: 0x400_0000,
        writable: true,
        executable: false,
    };
    Ok(vec![in alloc; image, stack]?)
}

fn run<M: TagMemory + Drop>(
    alloc: Global,
    mut memory: M,
    steps: u64,
) -> Result<MachineEnd, AllocError> {
    let mut at = CODE;
    for word in LOOP {
        memory.write(at, &word.to_le_bytes());
        at = at.wrapping_add(4);
    }
    let choices = vec![in alloc; Tag::zero()]?;
    let mut machine = Machine::new(memory, CODE, 0, choices, 0);
    let mut source = MemSource::new(Vec::new(alloc), Vec::new(alloc));
    let mut sink = MemSink::new(alloc, 0, Vec::new(alloc))?;
    Ok(machine.run(&mut source, &mut sink, steps))
}
