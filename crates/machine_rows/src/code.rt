// Words that stand before and after the words of a row.
ghost use Rattle.std.specs.Prelude.{◌<◌, ◌≤◌};

use crate::layout::{CODE, SETUP};
use std::alloc::AllocError;

/// `svc #3`
const EXIT: u32 = 0xD400_0061;

/// `ret`
const RET: u32 = 0xD65F_03C0;

/// `movz x0, #0`
const X0_IS_0: u32 = 0xD280_0000;

/// Puts out the eight bytes of X1, the lowest first, by X0 and X2.
const PUT_X1: [u32; 6] = [
    0xD280_0102, // movz x2, #8
    0xAA01_03E0, // orr x0, xzr, x1
    0xD400_0021, // svc #1
    0xD348_FC21, // ubfm x1, x1, #8, #63
    0xD100_0442, // sub x2, x2, #1
    0xB5FF_FF82, // cbnz x2, .-16
];

/// Keeps SP, X0, X1 and X2 in X26 to X29.
const KEEP: [u32; 4] = [
    0x9100_03FA, // add x26, sp, #0
    0xAA00_03FB, // orr x27, xzr, x0
    0xAA01_03FC, // orr x28, xzr, x1
    0xAA02_03FD, // orr x29, xzr, x2
];

/// X1 becomes the flags, N the highest of four bits.
const X1_IS_FLAGS: [u32; 15] = [
    0xD280_0001, // movz x1, #0
    0x9A9F_47E0, // csinc x0, xzr, xzr, mi
    0x8B01_0021, // add x1, x1, x1
    0x8B00_0021, // add x1, x1, x0
    0x9A9F_07E0, // csinc x0, xzr, xzr, eq
    0x8B01_0021, // add x1, x1, x1
    0x8B00_0021, // add x1, x1, x0
    0x9A9F_27E0, // csinc x0, xzr, xzr, cs
    0x8B01_0021, // add x1, x1, x1
    0x8B00_0021, // add x1, x1, x0
    0x9A9F_67E0, // csinc x0, xzr, xzr, vs
    0x8B01_0021, // add x1, x1, x1
    0x8B00_0021, // add x1, x1, x0
    0xD280_01E0, // movz x0, #15
    0xCA00_0021, // eor x1, x1, x0
];

/// `add sp, x1, #0` and `ldr x1, [sp]`: what stands at X1, whatever its tag is.
const X1_IS_LOADED: [u32; 2] = [0x9100_003F, 0xF940_03E1];

/// `ldg x1, [x1]`: the tag of the granule at X1, in its bits 59 to 56.
const X1_IS_TAG: u32 = 0xD960_0021;

/// Code that is being written.
#[derive(Drop)]
pub struct Code {
    pub words: Vec<u32>,
}

impl Code {
    pub fn put(&mut self, words: &[u32]) -> Result<(), AllocError> {
        self.words.extend_from_slice(words)
    }

    /// A register becomes a number.
    pub fn set(&mut self, register: u32, value: u64) -> Result<(), AllocError> {
        let register = register & 31;
        self.put(&[
            0xD280_0000 | halfword(value, 0) << 5 | register,
            0xF2A0_0000 | halfword(value, 16) << 5 | register,
            0xF2C0_0000 | halfword(value, 32) << 5 | register,
            0xF2E0_0000 | halfword(value, 48) << 5 | register,
        ])
    }

    /// SP becomes a number, and X16 becomes 0.
    pub fn set_sp(&mut self, value: u64) -> Result<(), AllocError> {
        self.set(16, value)?;
        self.put(&[0x9100_021F, 0xD280_0010]) // add sp, x16, #0; movz x16, #0
    }

    /// Goes to an address, from `SETUP` on: by a branch to `CODE`, and by X30 to any other.
    pub fn go_to(&mut self, at: u64) -> Result<(), AllocError> {
        if at == CODE {
            let written = 4 * (self.words.len() as u64 & 0xFFFF);
            self.branch((CODE - SETUP).wrapping_sub(written))
        } else {
            self.set(30, at)?;
            self.put(&[RET])
        }
    }

    /// Branches so many bytes on.
    pub fn branch(&mut self, distance: u64) -> Result<(), AllocError> {
        let words = (distance / 4 & 0x3FF_FFFF) as u32;
        self.put(&[0x1400_0000 | words])
    }

    /// Keeps what putting out changes.
    pub fn keep(&mut self) -> Result<(), AllocError> {
        self.put(&KEEP)
    }

    /// Puts out a register that holds what it held where `keep` stands; number 31 is SP.
    pub fn put_register(&mut self, register: u32) -> Result<(), AllocError> {
        let kept = match register & 31 {
            0 => 27,
            1 => 28,
            2 => 29,
            31 => 26,
            other => other,
        };
        self.put(&[0xAA00_03E1 | kept << 16])?; // orr x1, xzr, <kept>
        self.put(&PUT_X1)
    }

    pub fn put_flags(&mut self) -> Result<(), AllocError> {
        self.put(&X1_IS_FLAGS)?;
        self.put(&PUT_X1)
    }

    /// Puts out the eight bytes at an address.
    pub fn put_loaded(&mut self, at: u64) -> Result<(), AllocError> {
        self.set(1, at)?;
        self.put(&X1_IS_LOADED)?;
        self.put(&PUT_X1)
    }

    /// Puts out an address with the tag of its granule.
    pub fn put_tag(&mut self, at: u64) -> Result<(), AllocError> {
        self.set(1, at)?;
        self.put(&[X1_IS_TAG])?;
        self.put(&PUT_X1)
    }

    /// Exits with 0.
    pub fn exit(&mut self) -> Result<(), AllocError> {
        self.put(&[X0_IS_0, EXIT])
    }
}

/// The 16 bits of a number from a place on.
fn halfword(value: u64, place: u32) -> u32
    requires { place ≤ 48 }
    ensures { result < 65536 }
{
    (value >> place & 0xffff) as u32
}
