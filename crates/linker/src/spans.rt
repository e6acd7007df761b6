ghost use Rattle.std.specs.Prelude.{◌≡◌, ◌<◌, ◌≤◌, ◌^◌, ◌++◌, List, All, length, OnOk, IfOk, IfErr, slice_get, slice_index};
ghost use Rattle.std.specs.Option.{option_map};
ghost use Rattle.std.specs.List.{AllByRecursion};
ghost use Rattle.elf_obj.specs.Object.{object_of};
ghost use Rattle.elf_obj.specs.ObjectFile.{IsValid};
ghost use Rattle.linker.specs.declared.refusal.LinkRefusal.TheVariants.{NoMemory};
ghost use Rattle.linker.specs.Data.{filled_size};
ghost use Rattle.linker.specs.Known.{objects_of, AreStarts, AreLow};
ghost use Rattle.linker.specs.Spans.{span_of, object_spans, spans_from, AreSpans};

use crate::layout::Starts;
use crate::refusal::LinkRefusal;
use elf_obj::{Home, ObjectParts, Symbol};
use std::alloc::Global;

/// The bytes of a tagged object, by their distance from the start of the filled data.
#[derive(Clone, Copy)]
pub(crate) struct Span {
    pub start: u128,
    pub bytes: u128,
}

// The bytes of a symbol, where the filled bytes and the zero bytes of its object begin at these places.
fn span_of(symbol: &Symbol, init: u128, zero: u128) -> Span
    requires init { init < 2 ^ 110 }
    requires zero { zero < 2 ^ 110 }
    ensures { result ≡ span_of init zero symbol.now }
{
    let section = match symbol.home {
        Home::Init => init,
        Home::Undef | Home::Text | Home::Rodata | Home::Zero => zero,
    };
    Span {
        start: section + u128::from(symbol.value),
        bytes: u128::from(symbol.size),
    }
}

// Those of the symbol of a number, if there is one.
fn span_at(symbols: &[Symbol], number: u32, init: u128, zero: u128) -> Option<Span>
    requires init { init < 2 ^ 110 }
    requires zero { zero < 2 ^ 110 }
    ensures { result ≡ option_map (span_of init zero) (slice_get symbols.now number) }
{
    match symbols.get(number as usize) {
        None => None,
        Some(symbol) => Some(span_of(symbol, init, zero)),
    }
}

// Those of the tagged symbols of an object.
fn push_spans(
    spans: &mut Vec<Span>,
    parts: &ObjectParts,
    init: u128,
    zero: u128,
) -> Result<(), LinkRefusal>
    requires init { init < 2 ^ 110 }
    requires zero { zero < 2 ^ 110 }
    ensures spans { OnOk result (spans.new.items ≡ spans.old.items ++ object_spans init zero (object_of parts.now)) }
    ensures memory { IfErr result (λ r. r ≡ NoMemory) }
{
    for number in &parts.tagged {
        if let Some(span) = span_at(&parts.symbols, *number, init, zero) {
            spans.push(span)?;
        }
    }
    Ok(())
}

// Where the section of an object begins.
fn start_of(starts: &[u128], object: usize) -> u128
    requires { All (λ n. n < 2 ^ 80) starts.now }
    ensures start { result ≡ slice_index starts.now object }
    ensures low { result < 2 ^ 80 }
{
    match starts.get(object) {
        Some(start) => *start,
        None => 0,
    }
}

// Those of all objects, in the order of the objects and of their symbols.
fn all_spans(
    alloc: Global,
    objects: &[ObjectParts],
    starts: &Starts,
    filled: u128,
) -> Result<Vec<Span>, LinkRefusal>
    requires few { length objects.now ≤ 16 }
    requires starts { AreStarts (objects_of objects.now) starts.now }
    requires low { AreLow starts.now }
    requires size { filled ≡ filled_size (objects_of objects.now) }
    requires small { filled < 2 ^ 100 }
    ensures spans { IfOk result (λ v. v.items ≡ spans_from (objects_of objects.now) 0 (objects_of objects.now)) }
    ensures memory { IfErr result (λ r. r ≡ NoMemory) }
{
    let mut spans = Vec::new(alloc);
    for object in 0..objects.len() {
        let init = start_of(&starts.init, object);
        let zero = filled + start_of(&starts.zero, object);
        push_spans(&mut spans, &objects[object], init, zero)?;
    }
    Ok(spans)
}

/// The bytes of all tagged objects, in the order of their places; the filled data has so many bytes.
pub(crate) fn spans_of(
    alloc: Global,
    objects: &[ObjectParts],
    starts: &Starts,
    filled: u128,
) -> Result<Vec<Span>, LinkRefusal>
    requires valid { AllByRecursion IsValid (objects_of objects.now) }
    requires few { length objects.now ≤ 16 }
    requires starts { AreStarts (objects_of objects.now) starts.now }
    requires low { AreLow starts.now }
    requires size { filled ≡ filled_size (objects_of objects.now) }
    requires small { filled < 2 ^ 100 }
    ensures spans { IfOk result (λ v. AreSpans (objects_of objects.now) v.items) }
    ensures memory { IfErr result (λ r. r ≡ NoMemory) }
{
    let mut spans = all_spans(alloc, objects, starts, filled)?;
    spans.sort_unstable_by_key(|span| span.start);
    Ok(spans)
}
