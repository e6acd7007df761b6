ghost use Rattle.std.specs.Prelude.{◌≡◌, ◌+◌, ◌<◌, ◌≤◌, ◌^◌, [], IfOk, IfSome, IsSome};
ghost use Rattle.std.specs.List.{AllByRecursion};
ghost use Rattle.std.specs.Ordering.{nat_cmp};
ghost use Rattle.std.specs.BTreeMap.Range.{entries_between};
ghost use Rattle.std.specs.declared.ops.Bound.TheVariants.{Included, Unbounded};
ghost use Rattle.elf_obj.specs.declared.parts.Home.TheVariants.{Init, Zero};
ghost use Rattle.elf_obj.specs.Apart.{IsSound, first_shared, starts_before};

use crate::parts::{Home, Symbol};
use crate::put::home_number;
use std::alloc::{AllocError, Global};
use std::collections::BTreeMap;

/// The numbers, from 0, of the first tags of each section whose symbols share bytes with earlier ones.
#[derive(Clone, Copy)]
pub(crate) struct Shared {
    pub init: usize,
    pub zero: usize,
}

/// Those of a list of tags.
pub(crate) fn shared_of(
    alloc: Global,
    symbols: &[Symbol],
    tagged: &[u32],
) -> Result<Shared, AllocError>
    ensures init { IfOk result (λ s. AllByRecursion (IsSound Init) symbols.now
        → s.init ≡ first_shared Init symbols.now 0 [] tagged.now) }
    ensures zero { IfOk result (λ s. AllByRecursion (IsSound Zero) symbols.now
        → s.zero ≡ first_shared Zero symbols.now 0 [] tagged.now) }
{
    let init = first_shared(alloc, symbols, tagged, Home::Init)?;
    let zero = first_shared(alloc, symbols, tagged, Home::Zero)?;
    Ok(Shared { init, zero })
}

// The first of the intervals that end behind a place begins before an end. Each interval is known by its last byte, and has its first.
fn meets(taken: &BTreeMap<u64, u64>, first: u64, end: u64) -> bool
    ensures { result ≡ starts_before end (entries_between nat_cmp (Included first) Unbounded taken.now.entries) }
{
    match taken.range(first..).next() {
        None => false,
        Some((_last, start)) => *start < end,
    }
}

// Where an object ends that has bytes, if that is a number of 64 bits.
fn end_of(symbol: &Symbol) -> Option<u64>
    ensures found { IfSome result (λ end. (end ≡ symbol.now.value + symbol.now.size) × (1 ≤ symbol.now.size)) }
    ensures only { 1 ≤ symbol.now.size → symbol.now.value + symbol.now.size < 2 ^ 64 → IsSome result }
{
    if symbol.size == 0 {
        None
    } else {
        symbol.value.checked_add(symbol.size)
    }
}

/// The number, from 0, of the first tag whose symbol is not there, is a function, or lies in this section and shares a byte with one of
/// an earlier tag; the number of tags where there is none. Objects of the section have bytes and end by 2^64.
fn first_shared(
    alloc: Global,
    symbols: &[Symbol],
    tagged: &[u32],
    home: Home,
) -> Result<usize, AllocError>
    ensures { IfOk result (λ n. AllByRecursion (IsSound home) symbols.now
        → n ≡ first_shared home symbols.now 0 [] tagged.now) }
{
    let mut taken = BTreeMap::new(alloc);
    for index in 0..tagged.len() {
        let number = tagged[index];
        let Some(symbol) = symbols.get(number as usize) else {
            return Ok(index);
        };
        if symbol.function {
            return Ok(index);
        }
        if home_number(symbol.home) == home_number(home) {
            let Some(end) = end_of(symbol) else {
                return Ok(index);
            };
            if meets(&taken, symbol.value, end) {
                return Ok(index);
            }
            taken.insert(end - 1, symbol.value)?;
        }
    }
    Ok(tagged.len())
}
