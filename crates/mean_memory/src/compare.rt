//! Pointers: how two compare, and what lies between them.

ghost use Rattle.std.specs.Prelude.{◌≡◌, List};
ghost use Rattle.block_meaning.specs.Blocks.{Block};
ghost use Rattle.block_meaning.specs.Compare as spec;
ghost use Rattle.mean_memory.specs.Ends.{end_in};

use crate::values::null;
use block_meaning::Pointer;
use c_ast::BinaryOperator;

/// The difference of two offsets, modulo 2^64.
pub fn difference(p: Pointer, q: Pointer) -> u64
    ensures { result ≡ spec.difference p q }
{
    p.offset.wrapping_sub(q.offset)
}

fn is_before(p: Pointer, q: Pointer) -> bool
    ensures { result ≡ spec.is_before p q }
{
    9223372036854775808 <= difference(p, q)
}

fn is_same(p: Pointer, q: Pointer) -> bool
    ensures { result ≡ spec.is_same p q }
{
    p.offset == q.offset
}

fn within_block(operator: BinaryOperator, p: Pointer, q: Pointer) -> Option<bool>
    ensures { result ≡ spec.within_block operator p q }
{
    match operator {
        BinaryOperator::Less => Some(is_before(p, q)),
        BinaryOperator::LessEqual => Some(is_before(p, q) || is_same(p, q)),
        BinaryOperator::Greater => Some(is_before(q, p)),
        BinaryOperator::GreaterEqual => Some(is_before(q, p) || is_same(q, p)),
        BinaryOperator::Equal => Some(is_same(p, q)),
        BinaryOperator::NotEqual => Some(!is_same(p, q)),
        _ => None,
    }
}

fn is_null(p: Pointer) -> bool
    ensures { result ≡ spec.is_null p }
{
    p.block == 0 && p.offset == 0
}

/// The sizes of the two blocks, of each if it is alive.
#[derive(Clone, Copy)]
pub struct Ends {
    pub first: Option<u64>,
    pub second: Option<u64>,
}

fn is_inside(p: Pointer, end: Option<u64>) -> bool
    ensures { (blocks : List Block) → end ≡ end_in blocks p.block → result ≡ spec.is_inside blocks p }
{
    match end {
        Some(size) => p.offset < size,
        None => false,
    }
}

fn is_at_most_at_end(p: Pointer, end: Option<u64>) -> bool
    ensures { (blocks : List Block) → end ≡ end_in blocks p.block → result ≡ spec.is_at_most_at_end blocks p }
{
    match end {
        Some(size) => p.offset <= size,
        None => false,
    }
}

/// Two pointers of different blocks that are known to differ.
fn known_to_differ(p: Pointer, q: Pointer, ends: Ends) -> bool
    ensures { (blocks : List Block) → ends.first ≡ end_in blocks p.block → ends.second ≡ end_in blocks q.block
        → result ≡ spec.known_to_differ blocks p q }
{
    is_inside(p, ends.first) && is_inside(q, ends.second)
        || is_null(p) && is_at_most_at_end(q, ends.second)
        || is_null(q) && is_at_most_at_end(p, ends.first)
}

/// A comparison of pointers to different blocks.
fn of_different(operator: BinaryOperator, differ: bool) -> Option<bool>
    ensures { result ≡ spec.of_different operator differ }
{
    match operator {
        BinaryOperator::Equal if differ => Some(false),
        BinaryOperator::NotEqual if differ => Some(true),
        _ => None,
    }
}

/// A comparison of two pointers, by the sizes of their blocks.
pub fn compared_by(operator: BinaryOperator, p: Pointer, q: Pointer, ends: Ends) -> Option<bool>
    ensures { (blocks : List Block) → ends.first ≡ end_in blocks p.block → ends.second ≡ end_in blocks q.block
        → result ≡ spec.compared blocks operator p q }
{
    if p.block == q.block {
        within_block(operator, p, q)
    } else {
        of_different(operator, known_to_differ(p, q, ends))
    }
}
