//! White space and comments.

ghost use Rattle.std.specs.Prelude.{◌≡◌, ◌<◌, ◌≤◌, length, true, IfSome};
ghost use Rattle.c_lex.specs.Gap as spec;

use crate::bytes::byte;

/// Whether `//` stands at the front.
pub fn begins_line_comment(text: &[u8]) -> bool
    ensures { result ≡ spec.begins_line_comment text.now }
{
    byte(text, 0) == b'/' && byte(text, 1) == b'/'
}

/// Whether `/*` stands at the front.
pub fn begins_block_comment(text: &[u8]) -> bool
    ensures value { result ≡ spec.begins_block_comment text.now }
    ensures within { result ≡ true → 1 < length text.now }
{
    byte(text, 0) == b'/' && byte(text, 1) == b'*'
}

fn comment_end(mut text: &[u8]) -> Option<usize>
    ensures value { result ≡ spec.comment_end text.entry.now }
    ensures within { IfSome result (λ bytes. bytes ≤ length text.entry.now) }
{
    let mut bytes = 0;
    while let [b, rest @ ..] = text {
        if *b == b'*' && byte(rest, 0) == b'/' {
            return Some(bytes + 2);
        }
        bytes += 1;
        text = rest;
    }
    None
}

/// How many bytes the comment has whose `/*` stands at the front, if it has an end.
pub fn block_comment(text: &[u8]) -> Option<usize>
    requires { 1 < length text.now }
    ensures { result ≡ spec.block_comment text.now }
{
    match comment_end(&text[2..]) {
        Some(bytes) => Some(2 + bytes),
        None => None,
    }
}
