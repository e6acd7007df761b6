//! Integer constants.

ghost use Rattle.std.specs.Prelude.{◌≡◌, ℕ, ◌<◌, ◌≤◌, ◌^◌, length};
ghost use Rattle.std.specs.List.{list_any};
ghost use Rattle.std.specs.Option.{SomeIff};
ghost use Rattle.c_lex.specs.Constant as spec_constant;
ghost use Rattle.c_lex.specs.ConstantTypes as spec_types;
ghost use Rattle.c_lex.specs.Scan.Numeral as spec;
ghost use Rattle.c_lex.specs.Scan.Reading as spec_reading;

use crate::bytes::{Kind, byte, run};
use crate::digits::{digit_count, value_of};
use crate::fault::Fault;
use crate::reading::Reading;
use c_ast::{IntType, Lexeme};

fn radix_of(bytes: &[u8]) -> u8
    ensures value { result ≡ spec.radix_of bytes.now }
    ensures within { spec.prefix_bytes result ≤ length bytes.now }
    ensures positive { 0 < result }
{
    let mark = byte(bytes, 1);
    if byte(bytes, 0) != b'0' {
        10
    } else if mark == b'x' || mark == b'X' {
        16
    } else {
        8
    }
}

fn prefix_bytes(radix: u8) -> usize
    ensures { result ≡ spec.prefix_bytes radix }
{
    if radix == 16 { 2 } else { 0 }
}

fn is_unsigned_mark(b: u8) -> bool
    ensures { result ≡ spec_constant.is_unsigned_mark b }
{
    b == b'u' || b == b'U'
}

fn is_long_mark(b: u8) -> bool
    ensures { result ≡ spec_constant.is_long_mark b }
{
    b == b'l' || b == b'L'
}

fn suffix_bytes(bytes: &[u8]) -> usize
    ensures value { result ≡ spec.suffix_bytes bytes.now }
    ensures within { result ≤ length bytes.now }
{
    let (first, second) = (byte(bytes, 0), byte(bytes, 1));
    if is_unsigned_mark(first) {
        if is_long_mark(second) { 2 } else { 1 }
    } else if is_long_mark(first) {
        if is_unsigned_mark(second) { 2 } else { 1 }
    } else {
        0
    }
}

fn listed_types(is_decimal: bool, is_unsigned: bool, is_long: bool) -> &'static [IntType]
    ensures { result.now ≡ spec_types.listed_types is_decimal is_unsigned is_long }
{
    match (is_decimal, is_unsigned, is_long) {
        (true, false, false) => &[IntType::Int, IntType::Long],
        (false, false, false) => &[IntType::Int, IntType::UInt, IntType::Long, IntType::ULong],
        (true, false, true) => &[IntType::Long],
        (false, false, true) => &[IntType::Long, IntType::ULong],
        (_, true, false) => &[IntType::UInt, IntType::ULong],
        (_, true, true) => &[IntType::ULong],
    }
}

fn greatest(ty: IntType) -> u64
    ensures { result ≡ spec_types.greatest ty }
{
    match ty {
        IntType::Char | IntType::UnsignedChar => u8::MAX as u64,
        IntType::SignedChar => 0x7f,
        IntType::Short => 0x7fff,
        IntType::UShort => u16::MAX as u64,
        IntType::Int => 0x7fff_ffff,
        IntType::UInt => u32::MAX as u64,
        IntType::Long => 0x7fff_ffff_ffff_ffff,
        IntType::ULong => u64::MAX,
    }
}

fn first_type(value: u64, mut types: &[IntType]) -> Option<IntType>
    ensures { result ≡ spec_types.first_type value types.entry.now }
{
    while let [ty, rest @ ..] = types {
        if value <= greatest(*ty) {
            return Some(*ty);
        }
        types = rest;
    }
    None
}

fn has_unsigned_mark(suffix: &[u8]) -> bool
    ensures { result ≡ list_any spec_constant.is_unsigned_mark suffix.now }
{
    suffix.iter().any(|b| is_unsigned_mark(*b))
}

fn has_long_mark(suffix: &[u8]) -> bool
    ensures { result ≡ list_any spec_constant.is_long_mark suffix.now }
{
    suffix.iter().any(|b| is_long_mark(*b))
}

/// A number of so many bytes whose value is below 2^64, or too large for any type where it is not.
fn typed_number(value: Option<u64>, types: &[IntType], bytes: usize) -> Reading
    ensures { (n : ℕ) → SomeIff value (n < 2 ^ 64) n → result ≡ spec_reading.typed_number n (spec_types.first_type n types.now) bytes }
{
    match value {
        None => Reading::Fault(Fault::NumberTooLarge, 0),
        Some(value) => match first_type(value, types) {
            None => Reading::Fault(Fault::NumberTooLarge, 0),
            Some(ty) => Reading::Token(Lexeme::Number(value, ty), bytes),
        },
    }
}

#[tactic(auto, unfolding(crate::specs::Scan::Reading::read_number))]
/// The number at the front of a text.
pub fn read_number(text: &[u8]) -> Reading
    ensures { result ≡ spec_reading.read_number text.now }
{
    let bytes = &text[..run(Kind::Numeral, text)];
    let radix = radix_of(bytes);
    let behind_prefix = &bytes[prefix_bytes(radix)..];
    let digits = digit_count(radix, behind_prefix);
    if digits == 0 {
        return Reading::Fault(Fault::BadByte, prefix_bytes(radix));
    }
    let suffix = &behind_prefix[digits..];
    let fitting = prefix_bytes(radix) + digits + suffix_bytes(suffix);
    if fitting != bytes.len() {
        return Reading::Fault(Fault::BadByte, fitting);
    }
    let types = listed_types(
        radix == 10,
        has_unsigned_mark(suffix),
        has_long_mark(suffix),
    );
    typed_number(
        value_of(radix, &behind_prefix[..digits]),
        types,
        bytes.len(),
    )
}
