//! Operators between two operands.

ghost use Rattle.std.specs.Prelude.{◌≡◌};
ghost use Rattle.c_grammar.specs.Operators as grammar;
ghost use Rattle.c_grammar.specs.Words.{lexeme_word};
ghost use Rattle.c_parse_base.specs.Reading.Answers.{next_value};
ghost use Rattle.c_parse_expr.specs.Reading.Operators as spec;

use c_ast::{BinaryOperator, Lexeme, Punctuator};
use c_parse_base::Cursor;

/// The operator that a punctuator is (C11 6.5.5 to 6.5.14).
pub fn operator_of(mark: Punctuator) -> Option<BinaryOperator>
    ensures { result ≡ spec.operator_of mark }
{
    match mark {
        Punctuator::Star => Some(BinaryOperator::Multiply),
        Punctuator::Slash => Some(BinaryOperator::Divide),
        Punctuator::Percent => Some(BinaryOperator::Remainder),
        Punctuator::Plus => Some(BinaryOperator::Add),
        Punctuator::Minus => Some(BinaryOperator::Subtract),
        Punctuator::ShiftLeft => Some(BinaryOperator::ShiftLeft),
        Punctuator::ShiftRight => Some(BinaryOperator::ShiftRight),
        Punctuator::Less => Some(BinaryOperator::Less),
        Punctuator::Greater => Some(BinaryOperator::Greater),
        Punctuator::LessEqual => Some(BinaryOperator::LessEqual),
        Punctuator::GreaterEqual => Some(BinaryOperator::GreaterEqual),
        Punctuator::EqualEqual => Some(BinaryOperator::Equal),
        Punctuator::ExclamationEqual => Some(BinaryOperator::NotEqual),
        Punctuator::Ampersand => Some(BinaryOperator::BitAnd),
        Punctuator::Caret => Some(BinaryOperator::BitXor),
        Punctuator::Bar => Some(BinaryOperator::BitOr),
        Punctuator::AmpersandAmpersand => Some(BinaryOperator::And),
        Punctuator::BarBar => Some(BinaryOperator::Or),
        _ => None,
    }
}

/// How loosely an operator binds, from 1 for `*` to 10 for `||`.
pub fn looseness(operator: BinaryOperator) -> u8
    ensures { result ≡ grammar.looseness operator }
{
    match operator {
        BinaryOperator::Multiply | BinaryOperator::Divide | BinaryOperator::Remainder => 1,
        BinaryOperator::Add | BinaryOperator::Subtract => 2,
        BinaryOperator::ShiftLeft | BinaryOperator::ShiftRight => 3,
        BinaryOperator::Less
        | BinaryOperator::Greater
        | BinaryOperator::LessEqual
        | BinaryOperator::GreaterEqual => 4,
        BinaryOperator::Equal | BinaryOperator::NotEqual => 5,
        BinaryOperator::BitAnd => 6,
        BinaryOperator::BitXor => 7,
        BinaryOperator::BitOr => 8,
        BinaryOperator::And => 9,
        BinaryOperator::Or => 10,
    }
}

/// The operator that a lexeme is, if it is one.
#[tactic(auto, using(crate::specs::Laws::OperatorLaws::operator_at_mark, crate::specs::Laws::OperatorLaws::operator_at_none, crate::specs::Laws::OperatorLaws::operator_at_other))]
fn operator_in(kind: &Lexeme) -> Option<BinaryOperator>
    ensures { result ≡ spec.operator_word (lexeme_word kind.now) }
{
    match kind {
        Lexeme::Punct(number) => match Punctuator::from_number(*number) {
            Some(mark) => operator_of(mark),
            None => None,
        },
        _ => None,
    }
}

/// The operator if it is one of the tier.
fn in_tier(tier: u8, operator: Option<BinaryOperator>) -> Option<BinaryOperator>
    ensures { result ≡ spec.in_tier tier operator }
{
    match operator {
        Some(found) if looseness(found) == tier => Some(found),
        _ => None,
    }
}

/// The operator of a tier that comes next, if one does.
#[tactic(auto, using(crate::specs::Laws::OperatorLaws::next_in_tier, crate::specs::Laws::OperatorLaws::none_in_tier))]
pub fn tier_operator(cursor: &Cursor<'_, '_>, tier: u8) -> Option<BinaryOperator>
    ensures { result ≡ next_value (spec.pick_binary tier) cursor.now }
{
    match cursor.peek() {
        Some(token) => in_tier(tier, operator_in(&token.kind)),
        None => None,
    }
}
