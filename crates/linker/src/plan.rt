ghost use Rattle.std.specs.Prelude.{◌≡◌, ◌*◌, ◌<◌, ◌≤◌, ◌^◌, length, IfOk, IfErr};
ghost use Rattle.std.specs.List.{AllByRecursion};
ghost use Rattle.elf_obj.specs.ObjectFile.{IsValid};
ghost use Rattle.linker.specs.declared.refusal.LinkRefusal.TheVariants.{NoMemory};
ghost use Rattle.linker.specs.Got.{got};
ghost use Rattle.linker.specs.LinkFault.{told_bytes};
ghost use Rattle.linker.specs.Totals.{AreLengths, AreSmall, memory_by};
ghost use Rattle.linker.specs.Known.{objects_of, AreStarts, AreLow};
ghost use Rattle.linker.specs.Planned.{AreStartsOf, bases_by, excess_by, IsPlan};

use crate::bases::Bases;
use crate::descriptors::fewest;
use crate::layout::Starts;
use crate::lengths::{Lengths, starts_of};
use crate::refusal::LinkRefusal;
use crate::spans::{Span, spans_of};
use crate::totals::{Totals, totals_of};
use elf_obj::ObjectParts;
use std::alloc::Global;

/// What is known of the image of objects before its parts are made.
#[derive(Drop)]
pub(crate) struct Plan {
    /// The sizes of its parts.
    pub totals: Totals,
    /// The tagged objects, in the order of their places.
    pub spans: Vec<Span>,
    /// How many bytes describe them.
    pub count: u128,
}

/// Where sections of these lengths begin; the filled data follows a table of so many bytes.
pub(crate) fn section_starts(
    alloc: Global,
    lengths: &Lengths,
    table: u128,
) -> Result<Starts, LinkRefusal>
    requires words { length lengths.now.words.items ≤ 16 }
    requires rodata { length lengths.now.rodata.items ≤ 16 }
    requires init { length lengths.now.init.items ≤ 16 }
    requires zero { length lengths.now.zero.items ≤ 16 }
    requires small { table < 2 ^ 68 }
    ensures starts { IfOk result (AreStartsOf lengths.now table) }
    ensures low { IfOk result AreLow }
    ensures memory { IfErr result (λ r. r ≡ NoMemory) }
{
    Ok(Starts {
        text: starts_of(alloc, 4, 2, &lengths.words)?,
        rodata: starts_of(alloc, 16, 0, &lengths.rodata)?,
        init: starts_of(alloc, 16, table, &lengths.init)?,
        zero: starts_of(alloc, 16, 0, &lengths.zero)?,
    })
}

/// The plan of objects, with the lengths of their sections, where these begin, and how many words their table has.
pub(crate) fn plan_of(
    alloc: Global,
    objects: &[ObjectParts],
    lengths: &Lengths,
    starts: &Starts,
    words: usize,
) -> Result<Plan, LinkRefusal>
    requires valid { AllByRecursion IsValid (objects_of objects.now) }
    requires few { length objects.now ≤ 16 }
    requires lengths { AreLengths (objects_of objects.now) lengths.now }
    requires starts { AreStarts (objects_of objects.now) starts.now }
    requires low { AreLow starts.now }
    requires words { words ≡ length (got (objects_of objects.now)) }
    ensures plan { IfOk result (IsPlan (objects_of objects.now)) }
    ensures memory { IfErr result (λ r. r ≡ NoMemory) }
{
    let totals = totals_of(objects, lengths, words);
    let spans = spans_of(alloc, objects, starts, totals.filled)?;
    let count = fewest(&totals, &spans);
    Ok(Plan {
        totals,
        spans,
        count,
    })
}

// A number of bytes as 64 bits tell it.
fn told_bytes(n: u128) -> u64
    ensures { result ≡ told_bytes n }
{
    if n > 0xffff_ffff_ffff_ffff {
        0xffff_ffff_ffff_ffff
    } else {
        n as u64
    }
}

impl Plan {
    /// How many bytes are told of an image that is too large.
    #[tactic(auto, unfolding(crate::specs::Planned::excess_by))]
    pub(crate) fn excess(&self) -> Option<u64>
        requires small { AreSmall self.now.totals }
        requires low { self.now.count < 2 ^ 80 }
        ensures { result ≡ excess_by self.now.totals self.now.count }
    {
        let code = 4 * self.totals.words;
        let memory = self.totals.memory_end(self.count);
        if code > 134_217_728 {
            Some(told_bytes(code))
        } else if memory > 268_435_456 {
            Some(told_bytes(memory))
        } else {
            None
        }
    }

    /// Where the parts of the image begin.
    pub(crate) fn bases(&self) -> Bases
        requires small { AreSmall self.now.totals }
        requires low { self.now.count < 2 ^ 80 }
        requires near { memory_by self.now.totals self.now.count < 2 ^ 32 }
        ensures { result ≡ bases_by self.now.totals self.now.count }
    {
        Bases {
            rodata: self.totals.rodata_place(self.count) as u64,
            code: self.totals.code_place(self.count) as u64,
            filled: self.totals.filled_place(self.count) as u64,
            zeros: self.totals.file_end(self.count) as u64,
        }
    }
}
