// The answer to each kind of row.
use crate::reading::{outcome, printed, printed_size, spans_of, tree_of};
use crate::tokens::tokens_of;
use crate::words::{named, word};
use std::alloc::{AllocError, Global};
use test_rows::unquoted;

/// The answer to a row. `text` is the text that rows cut and change.
pub fn answer(alloc: Global, text: &mut Vec<u8>, question: &str) -> Result<String, AllocError> {
    let Some((kind, rest)) = question.split_once(' ') else {
        return String::from_str(alloc, "no row");
    };
    match kind {
        "text" => {
            *text = unquoted(alloc, rest)?;
            format!(in alloc; "{}", text.len())
        }
        "cut" => cut(alloc, text, rest),
        "change" => change(alloc, text, rest),
        "named" => named(alloc, rest),
        _ => answer_alone(alloc, kind, rest),
    }
}

/// The answer to a row that needs no text before it.
fn answer_alone(alloc: Global, kind: &str, quoted: &str) -> Result<String, AllocError> {
    let text = unquoted(alloc, quoted)?;
    match kind {
        "tokens" => tokens_of(alloc, &text),
        "tree" => tree_of(alloc, &text),
        "spans" => spans_of(alloc, &text),
        "size" => printed_size(alloc, &text),
        "printed" => printed(alloc, &text),
        "word" => word(alloc, &text),
        _ => String::from_str(alloc, "no kind of row"),
    }
}

fn cut(alloc: Global, text: &[u8], count: &str) -> Result<String, AllocError> {
    match count.parse::<usize>().ok() {
        Some(count) if count <= text.len() => outcome(alloc, &text[..count]),
        _ => String::from_str(alloc, "no place"),
    }
}

fn change(alloc: Global, text: &[u8], what: &str) -> Result<String, AllocError> {
    let Some((place, quoted)) = what.split_once(' ') else {
        return String::from_str(alloc, "no change");
    };
    let Some((start, end)) = part(place) else {
        return String::from_str(alloc, "no place");
    };
    if start > end || end > text.len() {
        return String::from_str(alloc, "no such place");
    }
    let mut changed = Vec::from_slice(alloc, &text[..start])?;
    changed.extend_from_slice(&unquoted(alloc, quoted)?)?;
    changed.extend_from_slice(&text[end..])?;
    outcome(alloc, &changed)
}

/// The first byte of a part and the byte after its last one, of `N+M`.
fn part(place: &str) -> Option<(usize, usize)> {
    let (start, count) = place.split_once('+')?;
    let start = start.parse::<usize>().ok()?;
    let count = count.parse::<usize>().ok()?;
    Some((start, start.checked_add(count)?))
}
