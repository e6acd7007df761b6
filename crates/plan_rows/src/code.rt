// Words that stand before and after the words of a row.
ghost use Rattle.std.specs.Prelude.{◌<◌, ◌≤◌};

use std::alloc::{AllocError, Global};

/// What X0 holds before the words of a row; X1 holds one more, and so on.
pub const X0: u64 = 0x5A5A_0000_0000_1000;

/// What sums of bytes are multiplied with.
pub const FACTOR: u64 = 0x9E37_79B9_7F4A_7C15;

/// Stores X0 to X30 and SP at 4,096 bytes below SP.
const BELOW_SP: u32 = 0xD140_07FF; // sub sp, sp, #1, lsl #12

const STORE_X0: u32 = 0xF900_03E0; // str x0, [sp]

const STORE_SP: [u32; 2] = [
    0x9100_03E0, // add x0, sp, #0
    0xF900_7FE0, // str x0, [sp, #248]
];

/// Puts out the 256 bytes at SP.
const PUT_REGISTERS: [u32; 7] = [
    0x9100_03E1, // add x1, sp, #0
    0xD280_2002, // movz x2, #256
    0x3940_0020, // ldrb w0, [x1]
    0xD400_0021, // svc #1
    0x9100_0421, // add x1, x1, #1
    0xD100_0442, // sub x2, x2, #1
    0xB5FF_FF82, // cbnz x2, .-16
];

/// Puts out the tag of each of X7 granules from X4 on. X3 becomes the sum of their doublewords, each time multiplied with X8.
const PUT_TAGS: [u32; 11] = [
    0xD280_0003, // movz x3, #0
    0xD960_0084, // ldg x4, [x4]
    0xF940_0085, // ldr x5, [x4]
    0x9B08_1463, // madd x3, x3, x8, x5
    0xF940_0485, // ldr x5, [x4, #8]
    0x9B08_1463, // madd x3, x3, x8, x5
    0xD378_EC80, // ubfm x0, x4, #56, #59
    0xD400_0021, // svc #1
    0x9100_4084, // add x4, x4, #16
    0xD100_04E7, // sub x7, x7, #1
    0xB5FF_FEE7, // cbnz x7, .-36
];

/// Puts out the eight bytes of X3, the lowest first, and exits with 0.
const PUT_SUM: [u32; 8] = [
    0xD280_0102, // movz x2, #8
    0xAA03_03E0, // orr x0, xzr, x3
    0xD400_0021, // svc #1
    0xD348_FC63, // ubfm x3, x3, #8, #63
    0xD100_0442, // sub x2, x2, #1
    0xB5FF_FF82, // cbnz x2, .-16
    0xD280_0000, // movz x0, #0
    0xD400_0061, // svc #3
];

/// The words of a row behind those that give X0 to X30 their numbers, and before those that put out registers, and the tags and
/// the sum of so many granules from a place on.
pub fn around(
    alloc: Global,
    words: &[u32],
    from: u64,
    granules: u64,
) -> Result<Vec<u32>, AllocError> {
    let mut code = Vec::new(alloc);
    for register in 0..31 {
        set(&mut code, register, X0 + register as u64)?;
    }
    code.extend_from_slice(words)?;
    code.push(BELOW_SP)?;
    for register in 0..31 {
        code.push(STORE_X0 | register << 10 | register)?;
    }
    code.extend_from_slice(&STORE_SP)?;
    code.extend_from_slice(&PUT_REGISTERS)?;
    set(&mut code, 4, from)?;
    set(&mut code, 7, granules)?;
    set(&mut code, 8, FACTOR)?;
    code.extend_from_slice(&PUT_TAGS)?;
    code.extend_from_slice(&PUT_SUM)?;
    Ok(code)
}

/// A register becomes a number.
fn set(code: &mut Vec<u32>, register: u32, value: u64) -> Result<(), AllocError> {
    let register = register & 31;
    code.extend_from_slice(&[
        0xD280_0000 | halfword(value, 0) << 5 | register,
        0xF2A0_0000 | halfword(value, 16) << 5 | register,
        0xF2C0_0000 | halfword(value, 32) << 5 | register,
        0xF2E0_0000 | halfword(value, 48) << 5 | register,
    ])
}

/// The 16 bits of a number from a place on.
fn halfword(value: u64, place: u32) -> u32
    requires { place ≤ 48 }
    ensures { result < 65536 }
{
    (value >> place & 0xffff) as u32
}
