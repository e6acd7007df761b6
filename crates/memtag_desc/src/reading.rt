ghost use Rattle.std.specs.Prelude.{◌≡◌, ◌⊎◌, List, IfOk, IfErr, MatchResult};
ghost use Rattle.memtag_desc.specs.Descriptors.{Describes};
ghost use Rattle.memtag_desc.specs.Faults.{HasFault};

use crate::interval::Interval;
use crate::record::descriptor_at;
use crate::refusal::DescRefusal;
use std::alloc::Global;

/// The intervals that the bytes describe, or the first number or interval that breaks a rule. docs/FILES.md has the rules.
pub fn decode(alloc: Global, bytes: &[u8]) -> Result<Vec<Interval>, DescRefusal>
    // What is read is described so.
    ensures found { IfOk result (λ v. Describes v.items bytes.now) }

    // What is described so is read, unless memory runs out.
    ensures only { (intervals : List Interval) → Describes intervals bytes.now
        → MatchResult result (λ v. v.items ≡ intervals) (λ e. e ≡ DescRefusal.NoMemory) }

    // What is refused has that first fault, unless memory ran out.
    ensures refused { IfErr result (λ e. (e ≡ DescRefusal.NoMemory) ⊎ HasFault bytes.now e) }

    // Bytes that have a fault are refused with it, unless memory runs out.
    ensures refuses { (fault : DescRefusal) → HasFault bytes.now fault
        → MatchResult result (λ v. ⊥) (λ e. (e ≡ fault) ⊎ (e ≡ DescRefusal.NoMemory)) }
{
    let total = bytes.len() as u64;
    let mut intervals = Vec::new(alloc);
    let mut end = 0;
    let mut place = 0;
    while place < total {
        let found = descriptor_at(end, place, total, &bytes[place as usize..])?;
        intervals.push(found.interval)?;
        end = found.interval.start + found.interval.bytes;
        place += found.bytes;
    }
    Ok(intervals)
}
