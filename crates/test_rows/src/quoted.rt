// How a row writes a text, between quotes: each byte from a space to `~` as itself but the backslash, and after a backslash
//
//     n t r \        a newline, a tab, a carriage return, a backslash
//     xHH            the byte of two hexadecimal digits
//     {N PART\}      a part so many times, in which the above may stand
use crate::number::hex;
use std::alloc::{AllocError, Global};

/// The text between the quotes. What is not between quotes is taken as it stands, so that its row differs.
pub fn unquoted(alloc: Global, quoted: &str) -> Result<Vec<u8>, AllocError> {
    let inner = quoted
        .strip_prefix('"')
        .and_then(|rest| rest.strip_suffix('"'))
        .unwrap_or(quoted);
    let mut text = Vec::new(alloc);
    let mut parts = inner.split("\\{");
    if let Some(plain) = parts.next() {
        put(&mut text, plain)?;
    }
    for part in parts {
        let (times, repeated, plain) = repeated(part);
        for _ in 0..times {
            put(&mut text, repeated)?;
        }
        put(&mut text, plain)?;
    }
    Ok(text)
}

/// The number, the part and what follows it, of `N PART\}..`.
fn repeated(part: &str) -> (u32, &str, &str) {
    let (inside, plain) = part.split_once("\\}").unwrap_or((part, ""));
    let (times, repeated) = inside.split_once(' ').unwrap_or((inside, ""));
    (times.parse().unwrap_or(0), repeated, plain)
}

/// Puts the bytes of a part without repetition.
fn put(text: &mut Vec<u8>, part: &str) -> Result<(), AllocError> {
    let mut pieces = part.split('\\');
    if let Some(plain) = pieces.next() {
        text.extend_from_slice(plain.as_bytes())?;
    }
    let mut after_backslash = false;
    for piece in pieces {
        if piece.is_empty() && !after_backslash {
            text.push(b'\\')?;
            after_backslash = true;
        } else if after_backslash {
            text.extend_from_slice(piece.as_bytes())?;
            after_backslash = false;
        } else {
            put_escape(text, piece)?;
        }
    }
    Ok(())
}

/// Puts what a piece behind a backslash stands for, and the rest of it.
fn put_escape(text: &mut Vec<u8>, piece: &str) -> Result<(), AllocError> {
    let (byte, rest) = escaped(piece);
    text.push(byte)?;
    text.extend_from_slice(rest.as_bytes())
}

fn escaped(piece: &str) -> (u8, &str) {
    if let Some(rest) = piece.strip_prefix('n') {
        return (b'\n', rest);
    }
    if let Some(rest) = piece.strip_prefix('t') {
        return (b'\t', rest);
    }
    if let Some(rest) = piece.strip_prefix('r') {
        return (b'\r', rest);
    }
    match hex_byte(piece) {
        Some(found) => found,
        None => (b'?', piece),
    }
}

/// The byte of `xHH..`, and what follows.
fn hex_byte(piece: &str) -> Option<(u8, &str)> {
    let digits = piece.strip_prefix('x')?;
    let (byte, rest) = digits.split_at_checked(2)?;
    Some((u8::try_from(hex(byte)?).ok()?, rest))
}
