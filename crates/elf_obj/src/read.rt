ghost use Rattle.std.specs.Prelude.{◌≡◌, ◌⊎◌, ◌≤◌, ◌++◌, [], length, IfOk, IfErr, MatchResult};
ghost use Rattle.elf_obj.specs.Object.{Object, object_of};
ghost use Rattle.elf_obj.specs.Sections.{sizes_of};
ghost use Rattle.elf_obj.specs.ObjectFile.{IsFileOf};
ghost use Rattle.std.specs.List.{AllByRecursion};
ghost use Rattle.elf_obj.specs.declared.parts.Home.TheVariants.{Init, Zero};
ghost use Rattle.elf_obj.specs.Repeats.{first_repeat};
ghost use Rattle.elf_obj.specs.Apart.{IsSound, first_shared};
ghost use Rattle.elf_obj.specs.Claimed.{claimed};
ghost use Rattle.elf_obj.specs.Conditions.{Tells};
ghost use Rattle.elf_obj.specs.ObjectFault.{all_section_conditions, table_conditions, code_conditions, data_conditions};
ghost use Rattle.elf_obj.specs.ObjectFault.{tagged_conditions, object_conditions, ObjectFault};
ghost use Rattle.elf_obj.specs.Laws.Held.{AreHeld};

use crate::apart::{Shared, shared_of};
use crate::claim::claimed;
use crate::file::offset_of;
use crate::parts::ObjectParts;
use crate::refusal::ObjectRefusal;
use crate::relocs::{judge_relocs, judge_tags};
use crate::repeats::first_repeat;
use crate::sections::judge_sections;
use crate::sizes::{Sizes, sizes_of};
use crate::start::judge_start;
use crate::symbols::judge_symbols;
use elf_base::is_zero_between;
use std::alloc::Global;

/// The parts of which the bytes are the file, or the first condition that fails. docs/FILES.md has the conditions.
pub fn read_object(alloc: Global, file: &[u8]) -> Result<ObjectParts, ObjectRefusal>
    // The bytes are the file of what is read.
    ensures found { IfOk result (λ p. IsFileOf (object_of p) file.now) }

    // The file of an object is read, unless memory runs out.
    ensures only { (p : Object) → IsFileOf p file.now
        → MatchResult result (λ q. object_of q ≡ p) (λ e. e ≡ ObjectRefusal.NoMemory) }

    // What is refused has that first fault, unless memory ran out.
    ensures refused { IfErr result (λ e. (e ≡ ObjectRefusal.NoMemory) ⊎ ObjectFault file.now e) }

    // Bytes that have a fault are refused with it, unless memory runs out.
    ensures refuses { (fault : ObjectRefusal) → ObjectFault file.now fault
        → MatchResult result (λ _. ⊥) (λ e. (e ≡ ObjectRefusal.NoMemory) ⊎ (e ≡ fault)) }
{
    judge_start(file)?;
    let parts = claimed(alloc, file)?;
    let repeat = first_repeat(alloc, &parts.symbols)?;
    let shared = shared_of(alloc, &parts.symbols, &parts.tagged)?;
    judge(file, &parts, repeat, shared)?;
    Ok(parts)
}

// The first condition that fails behind those of the start.
fn judge(
    file: &[u8],
    parts: &ObjectParts,
    repeat: usize,
    shared: Shared,
) -> Result<(), ObjectRefusal>
    requires start { 64 ≤ length file.now }
    requires held { AreHeld file.now }
    requires parts { object_of parts.now ≡ claimed file.now }
    requires repeat { repeat ≡ first_repeat 0 [] parts.now.symbols.items }
    requires init { AllByRecursion (IsSound Init) parts.now.symbols.items
        → shared.init ≡ first_shared Init parts.now.symbols.items 0 [] parts.now.tagged.items }
    requires zero { AllByRecursion (IsSound Zero) parts.now.symbols.items
        → shared.zero ≡ first_shared Zero parts.now.symbols.items 0 [] parts.now.tagged.items }
    ensures { Tells result (all_section_conditions file.now ++ object_conditions file.now (claimed file.now)) }
{
    let sizes = sizes_of(parts);
    judge_sections(file, &sizes)?;
    judge_records(file, &sizes, parts, repeat, shared)?;
    Ok(())
}

// The first symbol that is not as it should be.
fn judge_table(
    file: &[u8],
    sizes: &Sizes,
    parts: &ObjectParts,
    repeat: usize,
) -> Result<(), ObjectRefusal>
    requires start { 64 ≤ length file.now }
    requires held { AreHeld file.now }
    requires parts { object_of parts.now ≡ claimed file.now }
    requires sizes { sizes.now ≡ sizes_of (claimed file.now) }
    requires repeat { repeat ≡ first_repeat 0 [] parts.now.symbols.items }
    ensures { Tells result (table_conditions file.now (claimed file.now)) }
{
    let place = offset_of(file, 5);
    if !is_zero_between(file, place, place + 24) {
        return Err(ObjectRefusal::BadSymbol { index: 0 });
    }
    judge_symbols(file, sizes, place + 24, repeat, &parts.symbols)
}

// The first relocation of the instructions that is not as it should be.
fn judge_code(file: &[u8], sizes: &Sizes, parts: &ObjectParts) -> Result<(), ObjectRefusal>
    requires start { 64 ≤ length file.now }
    requires held { AreHeld file.now }
    requires parts { object_of parts.now ≡ claimed file.now }
    requires sizes { sizes.now ≡ sizes_of (claimed file.now) }
    ensures { Tells result (code_conditions file.now (claimed file.now)) }
{
    let count = parts.symbols.len() as u64;
    judge_relocs(
        file,
        true,
        sizes.text,
        count,
        offset_of(file, 8),
        0,
        &parts.text_relocs,
    )
}

// The first relocation of the filled data that is not as it should be.
fn judge_data(file: &[u8], sizes: &Sizes, parts: &ObjectParts) -> Result<(), ObjectRefusal>
    requires start { 64 ≤ length file.now }
    requires held { AreHeld file.now }
    requires parts { object_of parts.now ≡ claimed file.now }
    requires sizes { sizes.now ≡ sizes_of (claimed file.now) }
    ensures { Tells result (data_conditions file.now (claimed file.now)) }
{
    let count = parts.symbols.len() as u64;
    let first = parts.text_relocs.len() as u64;
    judge_relocs(
        file,
        false,
        sizes.init,
        count,
        offset_of(file, 9),
        first,
        &parts.init_relocs,
    )
}

// The first tagged symbol that is not as it should be.
fn judge_tagged(file: &[u8], parts: &ObjectParts, shared: Shared) -> Result<(), ObjectRefusal>
    requires start { 64 ≤ length file.now }
    requires held { AreHeld file.now }
    requires parts { object_of parts.now ≡ claimed file.now }
    requires init { shared.init ≡ first_shared Init parts.now.symbols.items 0 [] parts.now.tagged.items }
    requires zero { shared.zero ≡ first_shared Zero parts.now.symbols.items 0 [] parts.now.tagged.items }
    ensures { Tells result (tagged_conditions file.now (claimed file.now)) }
{
    let first = parts.text_relocs.len() as u64 + parts.init_relocs.len() as u64;
    judge_tags(
        file,
        &parts.symbols,
        offset_of(file, 11),
        first,
        shared,
        &parts.tagged,
    )
}

// The first symbol or relocation that is not as it should be.
fn judge_records(
    file: &[u8],
    sizes: &Sizes,
    parts: &ObjectParts,
    repeat: usize,
    shared: Shared,
) -> Result<(), ObjectRefusal>
    requires start { 64 ≤ length file.now }
    requires held { AreHeld file.now }
    requires parts { object_of parts.now ≡ claimed file.now }
    requires sizes { sizes.now ≡ sizes_of (claimed file.now) }
    requires repeat { repeat ≡ first_repeat 0 [] parts.now.symbols.items }
    requires init { AllByRecursion (IsSound Init) parts.now.symbols.items
        → shared.init ≡ first_shared Init parts.now.symbols.items 0 [] parts.now.tagged.items }
    requires zero { AllByRecursion (IsSound Zero) parts.now.symbols.items
        → shared.zero ≡ first_shared Zero parts.now.symbols.items 0 [] parts.now.tagged.items }
    ensures { Tells result (object_conditions file.now (claimed file.now)) }
{
    judge_table(file, sizes, parts, repeat)?;
    judge_code(file, sizes, parts)?;
    judge_data(file, sizes, parts)?;
    judge_tagged(file, parts, shared)?;
    Ok(())
}
