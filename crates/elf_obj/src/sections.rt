ghost use Rattle.std.specs.Prelude.{◌≡◌, ◌+◌, ◌*◌, ◌<◌, ◌≤◌, ◌^◌, Some, None, length, slice_get, MatchResult};
ghost use Rattle.elf_base.specs.Records.{ehdr_fields, shdr_fields};
ghost use Rattle.elf_base.specs.Conditions.{first_fault};
ghost use Rattle.elf_obj.specs.Sections.{sections, names_end, sizes_of};
ghost use Rattle.elf_obj.specs.Records.{header};
ghost use Rattle.elf_obj.specs.Claimed.{headers_at, claimed};
ghost use Rattle.elf_obj.specs.Conditions.{stands};
ghost use Rattle.elf_obj.specs.ObjectFault.{is_headed, is_strings, is_names, fixed_parts, sizes_in, is_section, contents_conditions};
ghost use Rattle.elf_obj.specs.ObjectFault.{is_ended, all_section_conditions};
ghost use Rattle.elf_obj.specs.Laws.Held.{AreHeld};

use crate::file::{both, content_of, headers_at, offset_of, size_of, stand_at};
use crate::headers::{SECTION_NAMES, file_header, header_of};
use crate::refusal::ObjectRefusal;
use crate::section::{Section, section_at};
use crate::sizes::Sizes;
use elf_base::{is_zero_between, write_ehdr, write_shdr};
use mt_base::round16;

// The file's header, and the empty section header.
#[tactic(auto, unfolding(crate::specs::ObjectFault::is_headed))]
fn is_headed(file: &[u8]) -> bool
    requires start { 64 ≤ length file.now }
    requires held { AreHeld file.now }
    ensures { result ≡ is_headed file.now }
{
    let place = round16(offset_of(file, 11) + size_of(file, 11));
    let mut bytes = [0; 64];
    write_ehdr(&file_header(place), &mut bytes);
    let headers = headers_at(file);
    stand_at(file, 0, &bytes) && is_zero_between(file, headers, headers + 64)
}

// The header of a section, and the zeros before the section.
#[tactic(auto, unfolding(crate::specs::ObjectFault::is_section))]
fn is_section(file: &[u8], end: u64, index: u64, section: &Section) -> bool
    requires start { 64 ≤ length file.now }
    requires headers { headers_at file.now + 768 ≤ length file.now }
    requires index { index < 12 }
    requires low { end ≤ 2 ^ 63 }
    ensures { result ≡ is_section file.now end index section.now }
{
    if section.info >= 0x1_0000_0000 {
        return false;
    }
    let place = round16(end);
    let mut bytes = [0; 64];
    write_shdr(&header_of(section, place), &mut bytes);
    stand_at(file, headers_at(file) + 64 * index, &bytes) && is_zero_between(file, end, place)
}

// The names of the symbols begin with a zero byte, and have no bytes behind the last one.
#[tactic(auto, unfolding(crate::specs::ObjectFault::is_strings))]
fn is_strings(file: &[u8], names_place: u64) -> bool
    requires start { 64 ≤ length file.now }
    requires held { AreHeld file.now }
    requires names { names_place ≡ names_end 1 (claimed file.now).symbols }
    ensures { result ≡ is_strings file.now }
{
    let offset = offset_of(file, 6);
    let size = size_of(file, 6);
    size >= 1 && is_zero_between(file, offset, offset + 1) && size <= names_place
}

#[tactic(auto, unfolding(crate::specs::ObjectFault::is_names))]
fn is_names(file: &[u8]) -> bool
    requires start { 64 ≤ length file.now }
    requires held { AreHeld file.now }
    ensures { result ≡ is_names file.now }
{
    content_of(file, 7) == SECTION_NAMES.as_slice()
}

// What is fixed in the content of a section.
fn is_fixed(file: &[u8], index: usize, names_place: u64) -> bool
    requires start { 64 ≤ length file.now }
    requires held { AreHeld file.now }
    requires names { names_place ≡ names_end 1 (claimed file.now).symbols }
    requires index { index < 11 }
    ensures { slice_get (fixed_parts file.now) index ≡ Some result }
{
    match index {
        0 => true,
        1 => true,
        2 => true,
        3 => true,
        4 => true,
        5 => is_strings(file, names_place),
        6 => is_names(file),
        7 => true,
        8 => true,
        9 => true,
        _ => true,
    }
}

// The first of the sections 1 to 11 that is not as it should be.
fn judge_contents(file: &[u8], sizes: &Sizes, names_place: u64) -> Result<(), ObjectRefusal>
    requires start { 64 ≤ length file.now }
    requires held { AreHeld file.now }
    requires names { names_place ≡ names_end 1 (claimed file.now).symbols }
    ensures { MatchResult result
        (λ _. first_fault (contents_conditions file.now sizes.now) ≡ None)
        (λ e. first_fault (contents_conditions file.now sizes.now) ≡ Some e) }
{
    let mut end: u64 = 64;
    for index in 0..11 {
        let section = section_at(sizes, index);
        let number = index as u64 + 1;
        let fixed = is_fixed(file, index, names_place);
        let here = is_section(file, end, number, &section);
        let good = both(here, fixed);
        if !good {
            return Err(ObjectRefusal::BadSection {
                index: index as u32 + 1,
            });
        }
        end = round16(end) + section.bytes;
    }
    Ok(())
}

// Zeros stand before the section headers, with which the file ends.
#[tactic(auto, unfolding(crate::specs::ObjectFault::is_ended))]
fn is_ended(file: &[u8]) -> bool
    requires start { 64 ≤ length file.now }
    requires held { AreHeld file.now }
    ensures { result ≡ is_ended file.now }
{
    let headers = headers_at(file);
    is_zero_between(file, offset_of(file, 11) + size_of(file, 11), headers)
        && file.len() as u64 == headers + 768
}

// The sizes of the parts, where the names are as long as their header says.
fn sizes_in(file: &[u8], sizes: &Sizes) -> Sizes
    requires start { 64 ≤ length file.now }
    requires held { AreHeld file.now }
    requires sizes { sizes.now ≡ sizes_of (claimed file.now) }
    ensures { result ≡ sizes_in file.now }
{
    Sizes {
        text: sizes.text,
        rodata: sizes.rodata,
        init: sizes.init,
        zero: sizes.zero,
        symbols: sizes.symbols,
        first_global: sizes.first_global,
        strings: size_of(file, 6),
        text_relocs: sizes.text_relocs,
        init_relocs: sizes.init_relocs,
        tagged: sizes.tagged,
    }
}

// The first section that is not as it should be, with the file's header and the end.
pub(crate) fn judge_sections(file: &[u8], sizes: &Sizes) -> Result<(), ObjectRefusal>
    requires start { 64 ≤ length file.now }
    requires held { AreHeld file.now }
    requires sizes { sizes.now ≡ sizes_of (claimed file.now) }
    ensures { MatchResult result (λ _. first_fault (all_section_conditions file.now) ≡ None)
        (λ e. first_fault (all_section_conditions file.now) ≡ Some e) }
{
    if !is_headed(file) {
        return Err(ObjectRefusal::BadSection { index: 0 });
    }
    judge_contents(file, &sizes_in(file, sizes), sizes.strings)?;
    if !is_ended(file) {
        return Err(ObjectRefusal::BadSection { index: 12 });
    }
    Ok(())
}
