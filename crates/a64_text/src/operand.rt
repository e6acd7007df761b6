ghost use Rattle.std.specs.Prelude.{◌≤◌, ◌<◌};

use crate::condition::CONDITIONS;
use std::fmt;

/// A number with a sign.
#[derive(Clone, Copy)]
pub struct Signed {
    pub negative: bool,
    pub magnitude: u64,
}

impl Signed {
    /// A field in two's complement of `width` bits, times a power of two.
    pub fn new(value: u32, width: u32, scale: u32) -> Signed
        requires width { 0 < width }
        requires narrow { width ≤ 26 }
        requires scale { scale ≤ 12 }
    {
        let value = value as u64;
        if value >> (width - 1) == 0 {
            Signed {
                negative: false,
                magnitude: value << scale,
            }
        } else {
            Signed {
                negative: true,
                magnitude: (1u64 << width).saturating_sub(value) << scale,
            }
        }
    }
}

impl fmt::Display for Signed {
    fn fmt<W: fmt::Write>(&self, f: &mut fmt::Formatter<W>) -> fmt::Result {
        let sign = if self.negative { "-" } else { "" };
        write!(f, "{sign}{}", self.magnitude)
    }
}

/// One operand of a line.
#[derive(Clone, Copy)]
pub enum Operand {
    None,
    /// A general register, whose number 31 is the stack pointer or zero.
    Register { wide: bool, number: u8, sp: bool },
    Number(u64),
    Shift(u64),
    Condition(u8),
    /// A distance from this instruction, in bytes.
    Offset(Signed),
    /// A base register and an offset in bytes.
    Memory(u8, Signed),
}

impl fmt::Display for Operand {
    fn fmt<W: fmt::Write>(&self, f: &mut fmt::Formatter<W>) -> fmt::Result {
        match *self {
            Operand::None => Ok(()),
            Operand::Register { wide, number, sp } => write_register(f, wide, number, sp),
            Operand::Number(value) => write!(f, "#{value}"),
            Operand::Shift(bits) => write!(f, "lsl #{bits}"),
            Operand::Condition(cond) => f.write_str(CONDITIONS[(cond % 16) as usize]),
            Operand::Offset(distance) => {
                let sign = if distance.negative { "-" } else { "+" };
                write!(f, ".{sign}{}", distance.magnitude)
            }
            Operand::Memory(base, offset) => write_memory(f, base, offset),
        }
    }
}

fn write_register<W: fmt::Write>(
    f: &mut fmt::Formatter<W>,
    wide: bool,
    number: u8,
    sp: bool,
) -> fmt::Result {
    let letter = if wide { "x" } else { "w" };
    if number != 31 {
        write!(f, "{letter}{number}")
    } else if !sp {
        write!(f, "{letter}zr")
    } else {
        f.write_str(if wide { "sp" } else { "wsp" })
    }
}

fn write_memory<W: fmt::Write>(f: &mut fmt::Formatter<W>, base: u8, offset: Signed) -> fmt::Result {
    f.write_str("[")?;
    write_register(f, true, base, true)?;
    if offset.magnitude != 0 {
        write!(f, ", #{offset}")?;
    }
    f.write_str("]")
}
