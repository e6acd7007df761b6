// Rows of calls of the arithmetic that no code of the machine reaches with these numbers.
use a64_alu::{Flags, condition_holds, invert};
use std::alloc::{AllocError, Global};
use test_rows::hex;

/// The conditions that hold at flags, N the highest of four bits, as a number whose lowest bit stands for condition 0.
pub fn holding(alloc: Global, nzcv: &str) -> Result<String, AllocError> {
    let Some(nzcv) = hex(nzcv) else {
        return String::from_str(alloc, "no flags");
    };
    let flags = Flags {
        negative: nzcv & 8 != 0,
        zero: nzcv & 4 != 0,
        carry: nzcv & 2 != 0,
        overflow: nzcv & 1 != 0,
    };
    let mut mask: u32 = 0;
    for cond in 0..16u8 {
        if condition_holds(cond, flags) {
            mask |= 1 << cond;
        }
    }
    format!(in alloc; "{mask:X}")
}

pub fn complement(alloc: Global, wide: bool, value: &str) -> Result<String, AllocError> {
    match hex(value) {
        Some(value) => format!(in alloc; "{:X}", invert(wide, value)),
        None => String::from_str(alloc, "no number"),
    }
}
