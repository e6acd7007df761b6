//! The kinds of bytes, and the runs of one kind.

ghost use Rattle.std.specs.Prelude.{◌≡◌, ◌≢◌, ◌<◌, ◌≤◌, ◌||◌, ◌==◌, length, slice_index, not};
ghost use Rattle.std.specs.List.{prefix_len};
ghost use Rattle.c_lex.specs.Bytes as spec;
ghost use Rattle.c_lex.specs.Scan.Words.{is_of};

/// A kind of bytes.
#[derive(Clone, Copy)]
pub enum Kind {
    /// What a name goes on with.
    Word,
    /// What a number goes on over.
    Numeral,
    /// What may stand in a directive.
    Blank,
    /// Any byte but the newline.
    InLine,
}

/// The byte at a place, or 0 behind the end.
pub fn byte(text: &[u8], at: usize) -> u8
    ensures value { result ≡ slice_index text.now at }
    ensures within { result ≢ 0 → at < length text.now }
{
    if at < text.len() { text[at] } else { 0 }
}

pub fn is_letter(b: u8) -> bool
    ensures { result ≡ spec.is_letter b }
{
    b.is_ascii_alphabetic() || b == b'_'
}

pub fn is_white(b: u8) -> bool
    ensures { result ≡ spec.is_white b }
{
    b == b' ' || (9 <= b && b <= 13)
}

pub fn is_blank(b: u8) -> bool
    ensures { result ≡ spec.is_blank b }
{
    b == b' ' || b == b'\t'
}

fn is_word(b: u8) -> bool
    ensures { result ≡ spec.is_word b }
{
    is_letter(b) || b.is_ascii_digit()
}

fn is_of(kind: Kind, b: u8) -> bool
    ensures { result ≡ is_of kind b }
{
    match kind {
        Kind::Word => is_word(b),
        Kind::Numeral => is_word(b) || b == b'.',
        Kind::Blank => is_blank(b),
        Kind::InLine => b != b'\n',
    }
}

/// How many bytes of a kind stand at the front.
pub fn run(kind: Kind, text: &[u8]) -> usize
    ensures value { result ≡ prefix_len (is_of kind) text.now }
    ensures within { result ≤ length text.now }
{
    let mut end = 0;
    while end < text.len() && is_of(kind, text[end]) {
        end += 1;
    }
    end
}
