//! Digits and their value.

ghost use Rattle.std.specs.Prelude.{◌≡◌, ◌+◌, ◌*◌, ◌^◌, ◌<◌, ◌≤◌, length};
ghost use Rattle.std.specs.Option.{SomeIff};
ghost use Rattle.std.specs.List.{prefix_len};
ghost use Rattle.std.specs.Char.{digit_value};
ghost use Rattle.c_lex.specs.Digits as spec;
ghost use Rattle.c_lex.specs.Scan.Digits as scan;

/// The value of a digit or a letter in the radix 36, and 36 for another byte.
fn digit_value(b: u8) -> u8
    ensures { result ≡ digit_value b }
{
    match b {
        b'0'..=b'9' => b - b'0',
        b'A'..=b'Z' => b - b'A' + 10,
        b'a'..=b'z' => b - b'a' + 10,
        _ => 36,
    }
}

fn is_digit_of(radix: u8, b: u8) -> bool
    ensures { result ≡ spec.is_digit_of radix b }
{
    digit_value(b) < radix
}

/// How many digits of the radix stand at the front.
pub fn digit_count(radix: u8, text: &[u8]) -> usize
    ensures value { result ≡ prefix_len (spec.is_digit_of radix) text.now }
    ensures within { result ≤ length text.now }
{
    let mut end = 0;
    while end < text.len() && is_digit_of(radix, text[end]) {
        end += 1;
    }
    end
}

fn with_digit(radix: u8, value: u64, b: u8) -> Option<u64>
    ensures { SomeIff result (value * radix + digit_value b < 2 ^ 64) (value * radix + digit_value b) }
{
    let digit = digit_value(b) as u64;
    match value.checked_mul(radix as u64) {
        None => None,
        Some(shifted) => shifted.checked_add(digit),
    }
}

/// The number that the digits write, if it is below 2^64.
pub fn value_of(radix: u8, digits: &[u8]) -> Option<u64>
    requires { 0 < radix }
    ensures { SomeIff result (scan.value_of radix digits.now < 2 ^ 64) (scan.value_of radix digits.now) }
{
    let mut value = 0;
    for b in digits {
        match with_digit(radix, value, *b) {
            None => return None,
            Some(more) => value = more,
        }
    }
    Some(value)
}
