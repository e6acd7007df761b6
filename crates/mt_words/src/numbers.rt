// The numbers and the choices that the values of options write.
ghost use Rattle.std.specs.Prelude.{◌≡◌, ℕ, List, IfOk, IfSome, IfNone, option_map};
ghost use Rattle.std.specs.Prelude.{◌<◌, ◌≤◌};
ghost use Rattle.std.specs.Char.{digit_value};
ghost use Rattle.mt_words.specs.Numbers.{AreChoices, IsCount, IsNumber, IsStack, OrDefault};
ghost use Rattle.mt_words.specs.Numbers.{default_choices, default_count, default_stack};

use mt_base::Tag;
use std::alloc::{AllocError, Global};

/// Steps and units of work where the words give none.
const DEFAULT_COUNT: u64 = 100_000_000;

/// The bytes of the stack where the words give none.
const DEFAULT_STACK: u64 = 1_048_576;

/// The choice where the words give none.
const DEFAULT_CHOICE: u8 = 5;

/// The steps or units of work that an option gives.
pub fn count_or_default(value: Option<&str>) -> Option<u64>
    ensures some { IfSome result (OrDefault IsCount default_count (option_map (λ text. text.now) value.entry)) }
    ensures none { IfNone result ((count : ℕ) → ¬ OrDefault IsCount default_count (option_map (λ text. text.now) value.entry) count) }
{
    match value {
        Some(digits) => count_of(digits.as_bytes()),
        None => Some(DEFAULT_COUNT),
    }
}

/// The bytes of the stack that an option gives.
pub fn stack_or_default(value: Option<&str>) -> Option<u64>
    ensures some { IfSome result (OrDefault IsStack default_stack (option_map (λ text. text.now) value.entry)) }
    ensures none { IfNone result ((stack : ℕ) → ¬ OrDefault IsStack default_stack (option_map (λ text. text.now) value.entry) stack) }
{
    match value {
        Some(digits) => stack_of(digits.as_bytes()),
        None => Some(DEFAULT_STACK),
    }
}

/// The random choices that an option gives.
pub fn choices_or_default(
    alloc: Global,
    value: Option<&str>,
) -> Result<Option<Vec<Tag>>, AllocError>
    ensures some { IfOk result (λ found. IfSome found (λ choices.
        OrDefault AreChoices default_choices (option_map (λ text. text.now) value.entry) choices.items)) }
    ensures none { IfOk result (λ found. IfNone found ((choices : List ℕ) →
        ¬ OrDefault AreChoices default_choices (option_map (λ text. text.now) value.entry) choices)) }
{
    match value {
        Some(digits) => choices_of(alloc, digits.as_bytes()),
        None => Ok(Some(one_choice(alloc)?)),
    }
}

// The number that 1 to 20 decimal digits write.
fn count_of(digits: &[u8]) -> Option<u64>
    ensures some { IfSome result (IsCount digits.now) }
    ensures none { IfNone result ((count : ℕ) → ¬ IsCount digits.now count) }
{
    if digits.len() == 0 || digits.len() > 20 {
        return None;
    }
    number_of(digits, u64::MAX)
}

// The bytes of a stack of which the digits write the KiB.
fn stack_of(digits: &[u8]) -> Option<u64>
    ensures some { IfSome result (IsStack digits.now) }
    ensures none { IfNone result ((stack : ℕ) → ¬ IsStack digits.now stack) }
{
    if digits.len() > 0 && digits[0] == b'0' {
        return None;
    }
    let kib = number_of(digits, 65_536)?;
    if kib == 0 {
        return None;
    }
    Some(kib * 1024)
}

// The number that decimal digits write, where it is not over `most`.
#[tactic(auto, using(crate::proofs::Digits::digit_at, crate::proofs::Digits::digits_value_so_far))]
fn number_of(digits: &[u8], most: u64) -> Option<u64>
    ensures some { IfSome result (IsNumber digits.now most) }
    ensures none { IfNone result ((number : ℕ) → ¬ IsNumber digits.now most number) }
{
    let mut number: u64 = 0;
    for byte in digits {
        let digit = char::from(*byte).to_digit(10)?;
        number = number.checked_mul(10)?.checked_add(u64::from(digit))?;
        if number > most {
            return None;
        }
    }
    Some(number)
}

// The choice where the words give none.
fn one_choice(alloc: Global) -> Result<Vec<Tag>, AllocError>
    ensures { IfOk result (λ choices. choices.items ≡ default_choices) }
{
    let mut choices = Vec::new(alloc);
    if let Some(choice) = Tag::new(DEFAULT_CHOICE) {
        choices.push(choice)?;
    }
    Ok(choices)
}

// The choices that hexadecimal digits write, one each.
fn choices_of(alloc: Global, digits: &[u8]) -> Result<Option<Vec<Tag>>, AllocError>
    ensures some { IfOk result (λ found. IfSome found (λ choices. AreChoices digits.now choices.items)) }
    ensures none { IfOk result (λ found. IfNone found ((choices : List ℕ) → ¬ AreChoices digits.now choices)) }
{
    if digits.len() == 0 || digits.len() > 4096 {
        return Ok(None);
    }
    let mut choices = Vec::with_capacity(alloc, digits.len())?;
    for byte in digits {
        match choice_of(*byte) {
            Some(choice) => choices.push(choice)?,
            None => return Ok(None),
        }
    }
    Ok(Some(choices))
}

// The choice that a hexadecimal digit writes.
fn choice_of(byte: u8) -> Option<Tag>
    ensures some { IfSome result (λ choice. choice ≡ digit_value byte) }
    ensures digit { IfSome result (λ choice. digit_value byte < 16) }
    ensures none { IfNone result (16 ≤ digit_value byte) }
{
    let digit = char::from(byte).to_digit(16)?;
    Tag::new(digit as u8)
}
