//! The numbers of symbols.

ghost use Rattle.std.specs.Prelude.{◌≡◌, slice_index, IfOk};
ghost use Rattle.unit_object.specs.Numbers as spec;

use c_type_base::Target;
use gen_unit::CodeTarget;
use std::alloc::AllocError;

/// The numbers that functions, objects and externs have among the symbols, by their own. What is no symbol has any number.
#[derive(Drop)]
pub struct Numbers {
    pub functions: Vec<u32>,
    pub globals: Vec<u32>,
    pub externs: Vec<u32>,
}

fn number_at(numbers: &[u32], number: u32) -> Result<u32, AllocError>
    ensures { IfOk result (λ n. n ≡ slice_index numbers.now number) }
{
    match numbers.get(number as usize) {
        Some(n) => Ok(*n),
        None => Err(AllocError),
    }
}

/// The symbol that a word waits for.
pub fn code_number(numbers: &Numbers, target: CodeTarget) -> Result<u32, AllocError>
    ensures { IfOk result (λ n. n ≡ spec.code_number numbers.now target) }
{
    match target {
        CodeTarget::Function(number) => number_at(&numbers.functions, number),
        CodeTarget::Extern(number) => number_at(&numbers.externs, number),
        CodeTarget::Global(number) => number_at(&numbers.globals, number),
        CodeTarget::Text(number) => Ok(number),
    }
}

/// The symbol to which a first value points.
pub fn data_number(numbers: &Numbers, target: Target) -> Result<u32, AllocError>
    ensures { IfOk result (λ n. n ≡ spec.data_number numbers.now target) }
{
    match target {
        Target::Global(number) => number_at(&numbers.globals, number),
        Target::Extern(number) => number_at(&numbers.externs, number),
        Target::Text(number) => Ok(number),
    }
}
