ghost use Rattle.std.specs.Prelude.{◌≡◌, ◌+◌, ◌*◌, ◌<◌, ◌≤◌, ◌^◌, Some, None, [], ◌&&◌, IsTrue, length, slice_get, MatchResult};
ghost use Rattle.elf_base.specs.Records.{rela_fields};
ghost use Rattle.elf_base.specs.Conditions.{first_fault};
ghost use Rattle.elf_obj.specs.ObjectFile.{AllCounted, AllNumbered};
ghost use Rattle.elf_obj.specs.Records.{reloc_record, tag_record};
ghost use Rattle.elf_obj.specs.Rules.{is_code_kind, is_got_kind, is_field, reloc_rule, is_variable, tag_keeps};
ghost use Rattle.elf_obj.specs.declared.parts.Home.TheVariants.{Init, Zero};
ghost use Rattle.elf_obj.specs.Apart.{is_found_apart, first_shared};
ghost use Rattle.elf_obj.specs.Conditions.{stands};
ghost use Rattle.elf_obj.specs.ObjectFault.{is_reloc, reloc_conditions, is_tag, tag_conditions, reloc_spot, tag_spot};

use crate::apart::Shared;
use crate::file::{both, stand_at};
use crate::parts::{Home, Reloc, Symbol};
use crate::put::{rela_of, tag_rela};
use crate::refusal::{ObjectRefusal, told};
use elf_base::write_rela;

// The record of a relocation stands at a place.
#[tactic(auto, unfolding(crate::specs::ObjectFault::is_reloc))]
fn is_reloc(file: &[u8], at: u64, reloc: &Reloc) -> bool
    requires within { at + 24 ≤ length file.now }
    requires counted { reloc.now.symbol + 1 < 2 ^ 32 }
    ensures { result ≡ is_reloc file.now at reloc.now }
{
    let mut bytes = [0; 24];
    write_rela(&rela_of(reloc), &mut bytes);
    stand_at(file, at, &bytes)
}

// The record that names a tagged symbol stands at a place.
#[tactic(auto, unfolding(crate::specs::ObjectFault::is_tag))]
fn is_tag(file: &[u8], at: u64, tag: u32) -> bool
    requires within { at + 24 ≤ length file.now }
    requires numbered { tag + 1 < 2 ^ 32 }
    ensures { result ≡ is_tag file.now at tag }
{
    let mut bytes = [0; 24];
    write_rela(&tag_rela(tag), &mut bytes);
    stand_at(file, at, &bytes)
}

fn is_got_kind(kind: u32) -> bool
    ensures { result ≡ is_got_kind kind }
{
    kind == 311 || kind == 312
}

fn is_code_kind(kind: u32) -> bool
    ensures { result ≡ is_code_kind kind }
{
    kind == 275 || kind == 277 || kind == 282 || kind == 283 || is_got_kind(kind)
}

// A field of 4 or 8 bytes, at a multiple of them, within the section, and not before a place.
fn is_field(width: u64, bytes: u64, least: u64, offset: u64) -> bool
    requires { 0 < width }
    ensures is { result ≡ is_field width bytes least offset }
    ensures low { IsTrue result → offset + width ≤ bytes }
{
    offset % width == 0 && offset <= bytes && width <= bytes - offset && least <= offset
}

// The relocation of the instructions, or of the filled data, keeps the rules.
#[tactic(auto, unfolding(crate::specs::Rules::code_reloc_keeps, crate::specs::Rules::data_reloc_keeps))]
fn reloc_keeps(code: bool, bytes: u64, count: u64, least: u64, reloc: &Reloc) -> bool
    ensures is { result ≡ reloc_rule code bytes count least reloc.now }
    ensures low { IsTrue result → reloc.now.offset + 4 ≤ bytes }
{
    let known = u64::from(reloc.symbol) < count;
    if code {
        is_code_kind(reloc.kind)
            && is_field(4, bytes, least, reloc.offset)
            && known
            && (!is_got_kind(reloc.kind) || reloc.addend == 0)
    } else {
        reloc.kind == 257 && is_field(8, bytes, least, reloc.offset) && known
    }
}

// The first relocation that is not as it should be. Their records begin at a place of the file, and the first has a number.
pub(crate) fn judge_relocs(
    file: &[u8],
    code: bool,
    bytes: u64,
    count: u64,
    at: u64,
    first: u64,
    relocs: &[Reloc],
) -> Result<(), ObjectRefusal>
    requires within { at + 24 * length relocs.now ≤ length file.now }
    requires counted { AllCounted relocs.now }
    requires first_low { first < 2 ^ 63 }
    ensures { MatchResult result
        (λ _. first_fault (reloc_conditions file.now (reloc_rule code bytes count) (reloc_spot at 0) first relocs.now) ≡ None)
        (λ e. first_fault (reloc_conditions file.now (reloc_rule code bytes count) (reloc_spot at 0) first relocs.now) ≡ Some e) }
{
    let mut least: u64 = 0;
    for index in 0..relocs.len() {
        let reloc = &relocs[index];
        let here = at + 24 * index as u64;
        let stands = is_reloc(file, here, reloc);
        let keeps = reloc_keeps(code, bytes, count, least, reloc);
        let good = both(stands, keeps);
        if !good {
            return Err(ObjectRefusal::BadRelocation {
                index: told(first + index as u64),
            });
        }
        least = reloc.offset + 1;
    }
    Ok(())
}

fn is_variable(home: Home) -> bool
    ensures { result ≡ is_variable home }
{
    match home {
        Home::Undef => false,
        Home::Text => false,
        Home::Rodata => false,
        Home::Init => true,
        Home::Zero => true,
    }
}

// The number keeps the rules of tagged symbols behind earlier ones, where it is known whether its symbol lies apart from theirs.
#[tactic(auto, unfolding(crate::specs::Rules::tag_keeps))]
fn tag_keeps(symbols: &[Symbol], earlier: &[u32], least: u64, apart: bool, number: u32) -> bool
    requires { apart ≡ (is_found_apart Init symbols.now earlier.now (slice_get symbols.now number)
        && is_found_apart Zero symbols.now earlier.now (slice_get symbols.now number)) }
    ensures { result ≡ tag_keeps symbols.now earlier.now least number }
{
    if u64::from(number) < least {
        return false;
    }
    match symbols.get(number as usize) {
        None => false,
        Some(symbol) => is_variable(symbol.home) && !symbol.function && apart,
    }
}

// The first tagged symbol that is not as it should be. Their records begin at a place of the file, and the first has a number. Of each
// section the first that shares bytes is known.
pub(crate) fn judge_tags(
    file: &[u8],
    symbols: &[Symbol],
    at: u64,
    first: u64,
    shared: Shared,
    tagged: &[u32],
) -> Result<(), ObjectRefusal>
    requires within { at + 24 * length tagged.now ≤ length file.now }
    requires numbered { AllNumbered tagged.now }
    requires first_low { first < 2 ^ 63 }
    requires init { shared.init ≡ first_shared Init symbols.now 0 [] tagged.now }
    requires zero { shared.zero ≡ first_shared Zero symbols.now 0 [] tagged.now }
    ensures { MatchResult result
        (λ _. first_fault (tag_conditions file.now symbols.now (tag_spot at [] 0) first tagged.now) ≡ None)
        (λ e. first_fault (tag_conditions file.now symbols.now (tag_spot at [] 0) first tagged.now) ≡ Some e) }
{
    let mut least: u64 = 0;
    for index in 0..tagged.len() {
        let number = tagged[index];
        let here = at + 24 * index as u64;
        let earlier = &tagged[..index];
        let stands = is_tag(file, here, number);
        let apart = both(index != shared.init, index != shared.zero);
        let keeps = tag_keeps(symbols, earlier, least, apart, number);
        let good = both(stands, keeps);
        if !good {
            return Err(ObjectRefusal::BadRelocation {
                index: told(first + index as u64),
            });
        }
        least = u64::from(number) + 1;
    }
    Ok(())
}
