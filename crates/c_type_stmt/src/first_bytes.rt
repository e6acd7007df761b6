//! The first bytes of objects of the whole run (C11 6.7.9).

ghost use Rattle.std.specs.Prelude.{◌≡◌, ◌%◌, ◌^◌, ◌*◌, IfOk, map, take};
ghost use Rattle.c_type_base.specs.declared.ty.Ty.{out-Ty};
ghost use Rattle.c_type_stmt.specs.Initials as spec;
ghost use Rattle.c_type_base.specs.Sizes.{int_bytes};
ghost use Rattle.c_type_stmt.specs.Slots.{pieces_of_value};

use c_ast::IntType;
use c_type_base::{Constancy, Fixed, InitPiece, InitValue, Known, Ty, int_size, is_null, wrap};
use sqlite_items::Items;
use std::alloc::{AllocError, Global};

/// Pieces that stand so many bytes further, modulo 2^64.
#[tactic(auto, using(crate::proofs::FirstBytesLaws::moved_next))]
pub fn moved_pieces(
    alloc: Global,
    by: u64,
    pieces: &[InitPiece],
) -> Result<Items<InitPiece>, AllocError>
    ensures { IfOk result (λ moved. moved ≡ map (spec.moved_piece by) pieces.now) }
{
    let mut moved = Items::new(alloc);
    for piece in pieces {
        moved.push(InitPiece {
            offset: piece.offset.wrapping_add(by),
            value: piece.value,
        })?;
    }
    Ok(moved)
}

/// A piece for each of the first bytes of a text.
#[tactic(auto, using(crate::proofs::FirstBytesLaws::bytes_next))]
pub fn byte_pieces(alloc: Global, bytes: &[u8], n: u64) -> Result<Items<InitPiece>, AllocError>
    ensures { IfOk result (λ pieces. pieces ≡ spec.byte_pieces 0 (spec.first_of n bytes.now)) }
{
    let kept = first_of(bytes, n);
    let mut pieces = Items::new(alloc);
    for i in 0..kept.len() {
        pieces.push(InitPiece {
            offset: i as u64,
            value: InitValue::Number(u64::from(kept[i]), 1),
        })?;
    }
    Ok(pieces)
}

/// The first so many bytes, or all where there are fewer.
fn first_of(bytes: &[u8], n: u64) -> &[u8]
    ensures { result.now ≡ take n bytes.now }
{
    if n < bytes.len() as u64 {
        &bytes[..n as usize]
    } else {
        bytes
    }
}

/// The number in the bytes of an integer type.
fn number_value(t: IntType, constant: Constancy) -> Option<InitValue>
    ensures { pieces_of_value result ≡ spec.number_piece t constant }
{
    match constant {
        Constancy::Is(n) => Some(InitValue::Number(low(t, wrap(t, n)), int_width(t))),
        _ => None,
    }
}

/// The bytes of an integer type that stand in memory, as a number.
fn low(t: IntType, n: u64) -> u64
    ensures { result ≡ n % 2 ^ (8 * int_bytes t) }
{
    match t {
        IntType::Char | IntType::SignedChar | IntType::UnsignedChar => n % 256,
        IntType::Short | IntType::UShort => n % 65536,
        IntType::Int | IntType::UInt => n % 4294967296,
        IntType::Long | IntType::ULong => n,
    }
}

/// The bytes of an integer type.
pub fn int_width(t: IntType) -> u8
    ensures { result ≡ int_bytes t }
{
    match t {
        IntType::Char | IntType::SignedChar | IntType::UnsignedChar => 1,
        IntType::Short | IntType::UShort => 2,
        IntType::Int | IntType::UInt => 4,
        IntType::Long | IntType::ULong => 8,
    }
}

/// An address that is known before the run.
fn address_value(fixed: Fixed) -> InitValue
    ensures { result ≡ spec.address_value fixed.target fixed.offset }
{
    match fixed.target {
        None => InitValue::Number(fixed.offset, 8),
        Some(target) => InitValue::Address(target, signed(fixed.offset)),
    }
}

/// A number below 2^64 as a signed one.
fn signed(n: u64) -> i64
    ensures { result ≡ spec.as_signed n }
{
    n.cast_signed()
}

/// What an object of a scalar type begins with, where that is known before the run.
fn scalar_value(t: &Ty, k: &Known) -> Option<InitValue>
    ensures { pieces_of_value result ≡ spec.scalar_piece (out-Ty t.now) k.now }
{
    match t {
        Ty::Int(t) => number_value(*t, k.constant),
        Ty::Pointer(_) => {
            if is_null(k) {
                return Some(InitValue::Number(0, 8));
            }
            match k.fixed {
                None => None,
                Some(fixed) => Some(address_value(fixed)),
            }
        }
        _ => None,
    }
}

/// The same, in its place.
pub fn scalar_pieces(alloc: Global, t: &Ty, k: &Known) -> Result<Items<InitPiece>, AllocError>
    ensures { IfOk result (λ pieces. pieces ≡ spec.scalar_piece (out-Ty t.now) k.now) }
{
    let mut pieces = Items::new(alloc);
    if let Some(value) = scalar_value(t, k) {
        pieces.push(InitPiece { offset: 0, value })?;
    }
    Ok(pieces)
}
