//! The cells of objects that are zero (C11 6.7.9 paragraph 10).

ghost use Rattle.std.specs.Prelude.{◌≡◌, replicate, IfOk};
ghost use Rattle.block_meaning.specs.Blocks as block;
ghost use Rattle.block_meaning.specs.Opening as spec;
ghost use Rattle.block_meaning.specs.Opening.{zero_by, zero_in_struct, zero_members, repeated};
ghost use Rattle.block_meaning.specs.Values.{pointer_cells};
ghost use Rattle.block_meaning.specs.declared.cell.Cell.TheVariants.{Byte};

use crate::places::put_cells;
use block_meaning::{Cell, Pointer};
use c_type_base::{StructInfo, Ty, int_size};
use mean_memory::{null, put_pointer};
use sqlite_items::at;
use std::alloc::{AllocError, Global};

/// So deep types may stand in one another: the host's stack holds what goes down them. Deeper ones find no memory.
const LEVELS: u32 = 1000;

/// What the zero of a type hangs on: the table of structs, how many of them may still stand in one another, and how many levels of types.
#[derive(Clone, Copy)]
struct Inside<'a> {
    structs: &'a [StructInfo],
    deeper: usize,
    levels: u32,
}

/// So many bytes that are 0.
fn zero_bytes(alloc: Global, count: u64) -> Result<Vec<Cell>, AllocError>
    ensures { IfOk result (λ made. made.items ≡ replicate count (Byte 0)) }
{
    vec![in alloc; Cell::Byte(0); count as usize]
}

/// The cells of a null pointer.
fn null_cells(alloc: Global) -> Result<Vec<Cell>, AllocError>
    ensures { IfOk result (λ made. made.items ≡ pointer_cells block.null) }
{
    let mut made = zero_bytes(alloc, 8)?;
    put_pointer(&mut made, null());
    Ok(made)
}

/// Some cells so many times over.
fn repeated(alloc: Global, cells: &[Cell], count: u64) -> Result<Vec<Cell>, AllocError>
    ensures { IfOk result (λ made. made.items ≡ spec.repeated count cells.now) }
{
    let mut made = Vec::new(alloc);
    if cells.is_empty() {
        return Ok(made);
    }
    made.reserve_exact(cells.len().saturating_mul(count as usize))?;
    for _ in 0..count {
        made.extend_from_slice(cells)?;
    }
    Ok(made)
}

/// The cells of a type.
#[cycle(zero)]
fn zero_inside(alloc: Global, inside: Inside, ty: &Ty) -> Result<Vec<Cell>, AllocError>
    ensures { IfOk result (λ made. made.items
        ≡ zero_by (zero_in_struct inside.entry.deeper inside.entry.structs.now) ty.now) }
{
    if inside.levels == 0 {
        return Err(AllocError);
    }
    let inner = Inside {
        structs: inside.structs,
        deeper: inside.deeper,
        levels: inside.levels - 1,
    };
    match ty {
        Ty::Void => Ok(Vec::new(alloc)),
        Ty::Int(t) => zero_bytes(alloc, int_size(*t)),
        Ty::Pointer(_) => null_cells(alloc),
        Ty::Array(element, count) => zero_array(alloc, inner, element.get(), *count),
        Ty::Struct(number) => zero_struct(alloc, inner, *number),
    }
}

/// Those of an array.
#[cycle(zero)]
fn zero_array(
    alloc: Global,
    inside: Inside,
    element: &Ty,
    count: u64,
) -> Result<Vec<Cell>, AllocError>
    ensures { IfOk result (λ made. made.items
        ≡ spec.repeated count (zero_by (zero_in_struct inside.entry.deeper inside.entry.structs.now) element.now)) }
{
    let zero = zero_inside(alloc, inside, element)?;
    repeated(alloc, &zero, count)
}

/// Those of the struct of a number.
#[cycle(zero)]
fn zero_struct(alloc: Global, inside: Inside, number: u32) -> Result<Vec<Cell>, AllocError>
    ensures { IfOk result (λ made. made.items ≡ zero_in_struct inside.entry.deeper inside.entry.structs.now number) }
{
    if inside.deeper == 0 {
        return Ok(Vec::new(alloc));
    }
    let inner = Inside {
        structs: inside.structs,
        deeper: inside.deeper - 1,
        levels: inside.levels,
    };
    match at(inside.structs, number as usize) {
        Some(info) => zero_with_members(alloc, inner, info),
        None => Ok(Vec::new(alloc)),
    }
}

/// Those of a struct, with its members.
#[cycle(zero)]
fn zero_with_members(
    alloc: Global,
    inside: Inside,
    info: &StructInfo,
) -> Result<Vec<Cell>, AllocError>
    ensures { IfOk result (λ made. made.items
        ≡ zero_members (zero_by (zero_in_struct inside.entry.deeper inside.entry.structs.now)) info.now.members
        (replicate info.now.bytes (Byte 0))) }
{
    let mut made = zero_bytes(alloc, info.bytes)?;
    for m in info.members.as_slice() {
        let zero = zero_inside(alloc, inside, &m.ty)?;
        put_cells(&mut made, m.offset, &zero)?;
    }
    Ok(made)
}

/// The cells of an object of a type that is zero: numbers are 0, and pointers null.
///
/// # Errors
///
/// Where the host has no memory left, or types stand in one another more than 1,000 deep.
pub fn zero_cells(alloc: Global, ty: &Ty, structs: &[StructInfo]) -> Result<Vec<Cell>, AllocError>
    ensures { IfOk result (λ made. made.items ≡ spec.zero_cells structs.now ty.now) }
{
    let inside = Inside {
        structs,
        deeper: structs.len(),
        levels: LEVELS,
    };
    zero_inside(alloc, inside, ty)
}
