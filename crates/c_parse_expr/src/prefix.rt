//! What stands before an operand.

ghost use Rattle.std.specs.Prelude.{◌≡◌};
ghost use Rattle.c_parse_expr.specs.Reading.Expressions.{step_word, unary_word};
ghost use Rattle.c_parse_expr.specs.Laws.WordCode.{next_word};

use c_ast::{Punctuator, Step, UnaryOperator};
use c_parse_base::Cursor;

/// The `++` or `--` before an operand that comes next, if one does.
pub fn next_step(cursor: &Cursor<'_, '_>) -> Option<Step>
    ensures { result ≡ next_word step_word cursor.now }
{
    if cursor.sees(Punctuator::PlusPlus) {
        return Some(Step::PreIncrement);
    }
    if cursor.sees(Punctuator::MinusMinus) {
        return Some(Step::PreDecrement);
    }
    None
}

/// The operator before an operand that comes next, if one does (C11 6.5.3).
pub fn next_unary(cursor: &Cursor<'_, '_>) -> Option<UnaryOperator>
    ensures { result ≡ next_word unary_word cursor.now }
{
    if cursor.sees(Punctuator::Ampersand) {
        return Some(UnaryOperator::AddressOf);
    }
    if cursor.sees(Punctuator::Star) {
        return Some(UnaryOperator::Dereference);
    }
    if cursor.sees(Punctuator::Plus) {
        return Some(UnaryOperator::Plus);
    }
    if cursor.sees(Punctuator::Minus) {
        return Some(UnaryOperator::Minus);
    }
    if cursor.sees(Punctuator::Tilde) {
        return Some(UnaryOperator::Complement);
    }
    if cursor.sees(Punctuator::Exclamation) {
        return Some(UnaryOperator::Not);
    }
    None
}
