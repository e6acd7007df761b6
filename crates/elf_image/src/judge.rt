// The conditions of an image file, in their order.
ghost use Rattle.std.specs.Prelude.{◌≡◌, MatchResult};
ghost use Rattle.elf_base.specs.Conditions.{first_fault};
ghost use Rattle.elf_image.specs.Faults.{opening, after_opening, contents, segments, reaches, fault_of, no_fault, fault_is};
ghost use Rattle.elf_image.specs.Heads.{heads_at};
ghost use Rattle.elf_image.specs.Laws.Within.{Reaching};

use crate::bytes::agrees;
use crate::entries::{gap_fault, last_fault, mode_fault, table_fault};
use crate::heads::{Heads, heads_of};
use crate::records::header_with;
use crate::refusal::ImageRefusal;
use crate::same::same_header;
use crate::segments::{ends_by, is_code, is_dynamic, is_read_only, is_writable};
use elf_base::{IDENTIFICATION, Phdr, read_ehdr};

// The headers of a file that has them, or its fault up to there.
fn opened(bytes: &[u8]) -> Result<Heads, ImageRefusal>
    ensures { MatchResult result (λ h. (h ≡ heads_at bytes.now) × (first_fault (opening bytes.now (heads_at bytes.now)) ≡ no_fault))
        (λ e. first_fault (opening bytes.now (heads_at bytes.now)) ≡ fault_is e) }
{
    let total = bytes.len() as u64;
    if !agrees(bytes, &IDENTIFICATION) {
        return Err(ImageRefusal::NotElf);
    }
    let Ok(header) = read_ehdr(bytes, 0) else {
        return Err(ImageRefusal::Truncated { at: total });
    };
    if !(header.kind == 3 && header.machine == 183) {
        return Err(ImageRefusal::NotThisMachine);
    }
    if !ends_by(header.phoff, 224, total) {
        return Err(ImageRefusal::Truncated { at: total });
    }
    Ok(heads_of(header, bytes))
}

// Whether the bytes that a program header names are there.
fn reaches(bytes: &[u8], part: &Phdr) -> bool
    ensures { result ≡ reaches bytes.now part.now }
{
    ends_by(part.offset, part.filesz, bytes.len() as u64)
}

fn contents_fault(bytes: &[u8], heads: &Heads) -> Option<ImageRefusal>
    ensures { result ≡ first_fault (contents bytes.now heads.now) }
{
    if reaches(bytes, &heads.read_only)
        && reaches(bytes, &heads.code)
        && reaches(bytes, &heads.writable)
        && reaches(bytes, &heads.dynamic)
    {
        None
    } else {
        Some(ImageRefusal::Truncated {
            at: bytes.len() as u64,
        })
    }
}

fn segments_fault(bytes: &[u8], heads: &Heads) -> Option<ImageRefusal>
    requires { Reaching bytes.now heads.now }
    ensures { result ≡ first_fault (segments bytes.now heads.now) }
{
    if !same_header(&heads.header, &header_with(heads.header.entry)) {
        return Some(ImageRefusal::BadSegment { index: 0 });
    }
    if !is_read_only(bytes, heads) {
        return Some(ImageRefusal::BadSegment { index: 0 });
    }
    if !is_code(bytes, heads) {
        return Some(ImageRefusal::BadSegment { index: 1 });
    }
    if !is_writable(bytes, heads) {
        return Some(ImageRefusal::BadSegment { index: 2 });
    }
    if !is_dynamic(heads) {
        return Some(ImageRefusal::BadSegment { index: 3 });
    }
    if (bytes.len() as u64) > heads.writable.offset + heads.writable.filesz {
        return Some(ImageRefusal::BadSegment { index: 4 });
    }
    None
}

// The first fault behind the headers.
fn rest_fault(bytes: &[u8], heads: &Heads) -> Option<ImageRefusal>
    ensures { result ≡ first_fault (after_opening bytes.now heads.now) }
{
    if let Some(fault) = contents_fault(bytes, heads) {
        return Some(fault);
    }
    if let Some(fault) = segments_fault(bytes, heads) {
        return Some(fault);
    }
    if let Some(fault) = table_fault(bytes, heads) {
        return Some(fault);
    }
    if let Some(fault) = mode_fault(bytes, heads) {
        return Some(fault);
    }
    if let Some(fault) = last_fault(bytes, heads) {
        return Some(fault);
    }
    gap_fault(bytes, heads)
}

// The headers of a file without a fault, or its fault.
pub(crate) fn judge(bytes: &[u8]) -> Result<Heads, ImageRefusal>
    ensures { MatchResult result (λ h. (h ≡ heads_at bytes.now) × (fault_of bytes.now ≡ no_fault)) (λ e. fault_of bytes.now ≡ fault_is e) }
{
    let heads = match opened(bytes) {
        Ok(heads) => heads,
        Err(fault) => return Err(fault),
    };
    match rest_fault(bytes, &heads) {
        Some(fault) => Err(fault),
        None => Ok(heads),
    }
}
