// What rows say of a state, with numbers in hexadecimal:
//
//     xN=V, sp=V        the registers that hold something else than before all words
//     tags=TxN,TxN..    the tags from 256 bytes below the frame to 256 bytes above it: T of N granules, then of more
//     sum=V             the sum of the doublewords there, in which each sum is multiplied with a factor before the next is added
use crate::code::X0;
use std::alloc::{AllocError, Global};
use std::fmt::Write;

/// The bytes of 31 registers and SP.
const REGISTERS: usize = 256;

/// How far SP stands below where it was when registers are stored.
const BELOW: u64 = 4096;

/// The state that these bytes tell, where SP stood at a place before.
pub fn told(alloc: Global, sp: u64, out: &[u8]) -> Result<String, AllocError> {
    let mut told = String::new(alloc);
    let (registers, rest) = out.split_at(out.len().min(REGISTERS));
    let (tags, sum) = rest.split_at(rest.len().saturating_sub(8));
    let mut before = X0;
    for (register, bytes) in registers.chunks(8).enumerate() {
        let value = number_of(bytes);
        if register == 31 {
            let value = value.wrapping_add(BELOW);
            if value != sp {
                write!(told, "sp={value:X} ")?;
            }
        } else if value != before {
            write!(told, "x{register}={value:X} ")?;
        }
        before = before.wrapping_add(1);
    }
    put_tags(&mut told, tags)?;
    write!(told, " sum={:X}", number_of(sum))?;
    Ok(told)
}

fn put_tags(told: &mut String, tags: &[u8]) -> Result<(), AllocError> {
    let mut run: Option<(u8, u64)> = None;
    told.push_str("tags=")?;
    for tag in tags {
        run = match run {
            Some((same, count)) if same == *tag => Some((same, count.saturating_add(1))),
            Some((other, count)) => {
                write!(told, "{other:X}x{count:X},")?;
                Some((*tag, 1))
            }
            None => Some((*tag, 1)),
        };
    }
    if let Some((last, count)) = run {
        write!(told, "{last:X}x{count:X}")?;
    }
    Ok(())
}

/// The number of bytes, the lowest first.
fn number_of(bytes: &[u8]) -> u64 {
    let mut number: u64 = 0;
    for byte in bytes.iter().rev() {
        number = number << 8 | u64::from(*byte);
    }
    number
}
