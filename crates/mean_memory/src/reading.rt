//! Cells as values.

ghost use Rattle.std.specs.Prelude.{◌≡◌, ◌<◌, ◌≤◌, ◌+◌, ◌*◌, ◌^◌, length, IfSome};
ghost use Rattle.block_meaning.specs.Values as spec;
ghost use Rattle.mean_memory.specs.Filled.{Reads};

use block_meaning::{Cell, Pointer, Value};
use c_type_base::{Ty, wrap};

fn with_byte(b: u8, n: u64) -> u64
    requires { n < 256 ^ 7 }
    ensures is { result ≡ b + 256 * n }
    ensures below { result < 256 * (n + 1) }
{
    b as u64 + 256 * n
}

/// The number that some cells are, where all are bytes.
pub fn number_of_cells(cells: &[Cell]) -> Option<u64>
    requires { length cells.now ≤ 8 }
    ensures is { result ≡ spec.number_of_cells cells.now }
    ensures fits { IfSome result (λ n. n < 256 ^ length cells.now) }
{
    match cells {
        [] => Some(0),
        [Cell::Byte(b), rest @ ..] => match number_of_cells(rest) {
            Some(n) => Some(with_byte(*b, n)),
            None => None,
        },
        _ => None,
    }
}

fn is_part(k: u8, p: Pointer, cell: Cell) -> bool
    ensures { result ≡ spec.is_part k p cell }
{
    match cell {
        Cell::Part(j, block, offset) => j == k && block == p.block && offset == p.offset,
        _ => false,
    }
}

fn are_parts(k: u8, p: Pointer, cells: &[Cell]) -> bool
    requires { k + length cells.now < 256 }
    ensures { result ≡ spec.are_parts k p cells.now }
{
    match cells {
        [] => true,
        [first, rest @ ..] => is_part(k, p, *first) && are_parts(k + 1, p, rest),
    }
}

/// The pointer that some cells are, where they are the parts of one.
pub fn pointer_of_cells(cells: &[Cell]) -> Option<Pointer>
    requires { length cells.now ≤ 8 }
    ensures { result ≡ spec.pointer_of_cells cells.now }
{
    match cells {
        [Cell::Part(_, block, offset), ..] => {
            let p = Pointer {
                block: *block,
                offset: *offset,
            };
            if are_parts(0, p, cells) {
                Some(p)
            } else {
                None
            }
        }
        _ => None,
    }
}

/// The scalar of a type that some cells are.
pub fn value_of_cells(ty: &Ty, cells: &[Cell]) -> Option<Value>
    requires { Reads ty.now (length cells.now) }
    ensures { result ≡ spec.value_of_cells ty.now cells.now }
{
    match ty {
        Ty::Int(t) => match number_of_cells(cells) {
            Some(n) => Some(Value::Number(wrap(*t, n))),
            None => None,
        },
        Ty::Pointer(_) => match pointer_of_cells(cells) {
            Some(p) => Some(Value::Address(p)),
            None => None,
        },
        _ => None,
    }
}
