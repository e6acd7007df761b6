// The lines, one for each number that the file gives and one for each interval.
ghost use Rattle.std.specs.Prelude.{◌≡◌, ◌⊎◌, ◌++◌, ℕ, List, flat_map, IfOk, IfErr, OnOk, MatchResult};
ghost use Rattle.std.specs.String.{string_bytes};
ghost use Rattle.memtag_dump.specs.Lines.{AreGlobals, HasText, gives_no_number, global_line, global_lines, lines, number_line};
ghost use Rattle.memtag_dump.specs.Laws.OneText.{NotDescribed, lists_of};
ghost use Rattle.memtag_dump.specs.Refusal.{HasNoText};

use crate::refusal::DumpRefusal;
use elf_base::Bytes;
use elf_image::{MemtagInfo, read_memtag};
use memtag_desc::{DescRefusal, Interval, decode};
use std::alloc::{AllocError, Global};
use std::fmt::Write;

/// The lines that say what an ELF file has of memory tagging. docs/COMMANDS.md has their forms.
pub fn dump(alloc: Global, file: &[u8]) -> Result<String, DumpRefusal>
    // What is said is the file's text.
    ensures found { IfOk result (λ text. HasText file.now (string_bytes text)) }

    // A file's text is said, unless memory runs out.
    ensures only { (text : List ℕ) → HasText file.now text
        → MatchResult result (λ t. string_bytes t ≡ text) (λ e. e ≡ DumpRefusal.NoMemory) }

    // What is refused has that first fault, unless memory ran out.
    ensures refused { IfErr result (λ e. (e ≡ DumpRefusal.NoMemory) ⊎ HasNoText file.now e) }

    // A file that has a fault is refused with it, unless memory runs out.
    ensures refuses { (fault : DumpRefusal) → HasNoText file.now fault
        → MatchResult result (λ t. ⊥) (λ e. (e ≡ fault) ⊎ (e ≡ DumpRefusal.NoMemory)) }
{
    let info = read_memtag(alloc, file)?;
    let intervals = intervals_of(alloc, &info.descriptors)?;
    let text = text_of(alloc, &info, &intervals)?;
    Ok(text)
}

// The intervals that the descriptors describe, where there are descriptors.
fn intervals_of(
    alloc: Global,
    descriptors: &Option<Bytes>,
) -> Result<Option<Vec<Interval>>, DescRefusal>
    ensures found { IfOk result (λ globals. AreGlobals descriptors.now (lists_of globals)) }
    ensures refused { IfErr result (λ e. (e ≡ DescRefusal.NoMemory) ⊎ NotDescribed descriptors.now e) }
{
    match descriptors {
        Some(bytes) => Ok(Some(decode(alloc, bytes.as_slice())?)),
        None => Ok(None),
    }
}

// All lines.
fn text_of(
    alloc: Global,
    info: &MemtagInfo,
    globals: &Option<Vec<Interval>>,
) -> Result<String, AllocError>
    ensures { IfOk result (λ text. string_bytes text ≡ lines info.now (lists_of globals.now)) }
{
    let mut text = String::new(alloc);
    put_number(alloc, &mut text, "memtag-mode", info.mode)?;
    put_number(alloc, &mut text, "memtag-heap", info.heap)?;
    put_number(alloc, &mut text, "memtag-stack", info.stack)?;
    put_globals(alloc, &mut text, gives_no_number(info), globals)?;
    Ok(text)
}

// Whether the file gives none of the three numbers.
fn gives_no_number(info: &MemtagInfo) -> bool
    ensures { result ≡ gives_no_number info.now }
{
    info.mode.is_none() && info.heap.is_none() && info.stack.is_none()
}

// Appends the line of a number, where there is one.
fn put_number(
    alloc: Global,
    text: &mut String,
    name: &str,
    value: Option<u64>,
) -> Result<(), AllocError>
    ensures { OnOk result (string_bytes text.new ≡ string_bytes text.old ++ number_line name.now value) }
{
    let Some(value) = value else {
        return Ok(());
    };
    let line = format!(in alloc; "{name} {value}\n")?;
    text.push_str(line.as_str())
}

// Appends a line for each interval, or the one that says that there is nothing.
fn put_globals(
    alloc: Global,
    text: &mut String,
    nothing: bool,
    globals: &Option<Vec<Interval>>,
) -> Result<(), AllocError>
    ensures { OnOk result (string_bytes text.new ≡ string_bytes text.old ++ global_lines nothing (lists_of globals.now)) }
{
    match globals {
        Some(intervals) => put_intervals(alloc, text, intervals.as_slice()),
        None if nothing => text.push_str("no memtag entries\n"),
        None => Ok(()),
    }
}

// Appends a line for each interval.
fn put_intervals(alloc: Global, text: &mut String, intervals: &[Interval]) -> Result<(), AllocError>
    ensures { OnOk result (string_bytes text.new ≡ string_bytes text.old ++ flat_map global_line intervals.now) }
{
    for interval in intervals {
        let line = line_of(alloc, interval)?;
        text.push_str(line.as_str())?;
    }
    Ok(())
}

// The line of an interval.
fn line_of(alloc: Global, interval: &Interval) -> Result<String, AllocError>
    ensures { IfOk result (λ line. string_bytes line ≡ global_line interval.now) }
{
    let (start, bytes) = (interval.start, interval.bytes);
    format!(in alloc; "global 0x{start:x} {bytes}\n")
}
