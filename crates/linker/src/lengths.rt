ghost use Rattle.std.specs.Prelude.{◌≡◌, ◌≤◌, ◌<◌, ◌^◌, List, All, length, IfOk, IfErr};
ghost use Rattle.linker.specs.declared.refusal.LinkRefusal.TheVariants.{NoMemory};
ghost use Rattle.linker.specs.Sections.{round_up, starts, ends};
ghost use Rattle.linker.specs.Totals.{AreLengths};
ghost use Rattle.linker.specs.Known.{objects_of};

use crate::refusal::LinkRefusal;
use elf_obj::ObjectParts;
use std::alloc::Global;

/// How long the sections of the objects are, of each kind: in words for the instructions, and else in bytes.
#[derive(Drop)]
pub(crate) struct Lengths {
    pub words: Vec<u64>,
    pub rodata: Vec<u64>,
    pub init: Vec<u64>,
    pub zero: Vec<u64>,
}

/// Those of the objects.
pub(crate) fn lengths_of(alloc: Global, objects: &[ObjectParts]) -> Result<Lengths, LinkRefusal>
    ensures lengths { IfOk result (AreLengths (objects_of objects.now)) }
    ensures memory { IfErr result (λ r. r ≡ NoMemory) }
{
    let mut words = Vec::new(alloc);
    let mut rodata = Vec::new(alloc);
    let mut init = Vec::new(alloc);
    let mut zero = Vec::new(alloc);
    for parts in objects {
        words.push(parts.words.len() as u64)?;
        rodata.push(parts.rodata.as_slice().len() as u64)?;
        init.push(parts.init_bytes.as_slice().len() as u64)?;
        zero.push(parts.zero_bytes)?;
    }
    Ok(Lengths {
        words,
        rodata,
        init,
        zero,
    })
}

// The least multiple of the unit that is at least n.
fn round_up(unit: u64, n: u128) -> u128
    requires some { 1 ≤ unit }
    requires few { unit ≤ 16 }
    requires small { n < 2 ^ 100 }
    ensures { result ≡ round_up unit n }
{
    let unit = u128::from(unit);
    (n + (unit - 1)) / unit * unit
}

/// Where sections of these lengths end, of which the first begins at the next multiple of the unit from a place on, and so on.
pub(crate) fn end_of(unit: u64, at: u128, lengths: &[u64]) -> u128
    requires some { 1 ≤ unit }
    requires few { unit ≤ 16 }
    requires count { length lengths.now ≤ 16 }
    requires near { at < 2 ^ 68 }
    ensures end { result ≡ ends unit at lengths.now }
    ensures small { result < 2 ^ 80 }
{
    let mut end = at;
    for length in lengths {
        end = round_up(unit, end) + u128::from(*length);
    }
    end
}

/// Where they begin.
pub(crate) fn starts_of(
    alloc: Global,
    unit: u64,
    at: u128,
    lengths: &[u64],
) -> Result<Vec<u128>, LinkRefusal>
    requires some { 1 ≤ unit }
    requires few { unit ≤ 16 }
    requires count { length lengths.now ≤ 16 }
    requires near { at < 2 ^ 68 }
    ensures starts { IfOk result (λ v. v.items ≡ starts unit at lengths.now) }
    ensures low { IfOk result (λ v. All (λ n. n < 2 ^ 80) v.items) }
    ensures memory { IfErr result (λ r. r ≡ NoMemory) }
{
    let mut starts = Vec::new(alloc);
    let mut end = at;
    for length in lengths {
        let start = round_up(unit, end);
        starts.push(start)?;
        end = start + u128::from(*length);
    }
    Ok(starts)
}
