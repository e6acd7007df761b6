//! The bytes with which an object begins.

ghost use Rattle.std.specs.Prelude.{◌≡◌, ◌≤◌, ◌<◌, ◌+◌, ◌^◌, ◌++◌, length, IsTrue, IfOk, OnOk};
ghost use Rattle.byteorder.specs.Endian.{little_bytes};
ghost use Rattle.unit_object.specs.Data as spec;
ghost use Rattle.unit_object.specs.Data.{with_bytes, with_pieces, value_bytes};

use crate::texts::{push_zeros, whole};
use byteorder::{ByteOrder, LittleEndian};
use c_type_base::{GlobalInfo, InitPiece, InitValue, StructInfo, capped_size};
use std::alloc::{AllocError, Global};

/// How many bytes of its section belong to an object.
pub fn room(structs: &[StructInfo], global: &GlobalInfo) -> Result<u64, AllocError>
    ensures { IfOk result (λ n. n ≡ spec.room structs.now global.now) }
{
    let bytes = capped_size(&global.ty, structs);
    if bytes == u64::MAX {
        return Err(AllocError);
    }
    whole(bytes)
}

// Whether a number has so many bytes, as a scalar has.
fn is_scalar(n: u64, bytes: u8) -> bool
    ensures low { IsTrue result → 1 ≤ bytes }
    ensures high { IsTrue result → bytes ≤ 8 }
    ensures fits { IsTrue result → n < 256 ^ bytes }
{
    match bytes {
        1 => n < 1 << 8,
        2 => n < 1 << 16,
        4 => n < 1 << 32,
        8 => true,
        _ => false,
    }
}

// The place of so many bytes, where there are so many.
fn place_in(out: &[u8], at: u64, bytes: usize) -> Result<usize, AllocError>
    ensures same { IfOk result (λ place. place ≡ at) }
    ensures within { IfOk result (λ place. place + bytes ≤ length out.now) }
{
    let all = out.len() as u64;
    if at <= all && bytes as u64 <= all - at {
        Ok(at as usize)
    } else {
        Err(AllocError)
    }
}

// Puts a number at a place.
fn put_number(out: &mut [u8], at: u64, n: u64, bytes: u8) -> Result<(), AllocError>
    ensures { OnOk result (out.new ≡ with_bytes at (little_bytes bytes n) out.old) }
{
    if !is_scalar(n, bytes) {
        return Err(AllocError);
    }
    let place = place_in(out, at, bytes as usize)?;
    LittleEndian::write_uint(&mut out[place..], n, bytes as usize);
    Ok(())
}

// Puts a scalar at its place; an address that the linker knows is zero until then.
fn put_piece(out: &mut [u8], piece: &InitPiece) -> Result<(), AllocError>
    ensures { OnOk result (out.new ≡ with_bytes piece.now.offset (value_bytes piece.now.value) out.old) }
{
    match piece.value {
        InitValue::Number(n, bytes) => put_number(out, piece.offset, n, bytes),
        InitValue::Address(_, _) => put_number(out, piece.offset, 0, 8),
    }
}

fn put_pieces(out: &mut [u8], pieces: &[InitPiece]) -> Result<(), AllocError>
    ensures { OnOk result (out.new ≡ with_pieces pieces.now out.old) }
{
    for piece in pieces {
        put_piece(out, piece)?;
    }
    Ok(())
}

/// Appends the bytes of an object.
pub fn push_object(
    alloc: Global,
    out: &mut Vec<u8>,
    structs: &[StructInfo],
    global: &GlobalInfo,
) -> Result<(), AllocError>
    ensures { OnOk result (out.new.items ≡ out.old.items ++ spec.object_bytes structs.now global.now) }
{
    let mut bytes = Vec::new(alloc);
    push_zeros(&mut bytes, room(structs, global)?)?;
    put_pieces(bytes.as_mut_slice(), global.init.as_slice())?;
    out.extend_from_slice(&bytes)
}
