ghost use Rattle.std.specs.Prelude.{◌≡◌, ◌≤◌, ◌*◌, ◌^◌, ◌<◌, ◌↔◌, IsTrue};
ghost use Rattle.a64_code.specs.Field.{bits};
ghost use Rattle.a64_code.specs.Line.{by_width};
ghost use Rattle.a64_code.specs.Listed.{holds_at_most};
ghost use Rattle.a64_code.specs.StackPointer.{is_sp};

use crate::instr::Reg;
use crate::register::RegisterField;

/// The place of a field in an instruction's words: its lowest bit, its number of bits in the form on 64 bits and in that on
/// 32, and for a register as which field the number 31 is the stack pointer.
#[derive(Clone, Copy)]
pub struct Place {
    pub low: u32,
    pub wide: u32,
    pub narrow: u32,
    pub sp: Option<RegisterField>,
}

/// A place from a bit on, of so many bits, or of so many in the form on 64 bits and so many in that on 32.
macro_rules! number {
    ($low:literal, $width:literal) => {
        number!($low, $width, $width)
    };
    ($low:literal, $wide:literal, $narrow:literal) => {
        Place { low: $low, wide: $wide, narrow: $narrow, sp: None }
    };
}

/// The five bits of a register, and the field as which it takes the stack pointer.
macro_rules! register {
    ($low:literal) => {
        number!($low, 5)
    };
    ($low:literal, $field:ident) => {
        Place { low: $low, wide: 5, narrow: 5, sp: Some(RegisterField::$field) }
    };
}

/// No field, where an instruction has fewer than four.
pub const NONE: Place = number!(0, 0);

/// The register that is written.
pub const RD: Place = register!(0);

/// The same, or SP.
pub const RD_SP: Place = register!(0, Rd);

/// The register that is loaded, stored or tested.
pub const RT: Place = register!(0);

/// The same, or SP.
pub const RT_SP: Place = register!(0, Rt);

/// The first register that is read.
pub const RN: Place = register!(5);

/// The same or a base, or SP.
pub const RN_SP: Place = register!(5, Rn);

/// The third register that is read.
pub const RA: Place = register!(10);

/// The second register of a pair.
pub const RT2: Place = register!(10);

/// The second register that is read.
pub const RM: Place = register!(16);

/// The place of a halfword, in halfwords.
pub const HW: Place = number!(21, 2, 1);

/// The rotation of a bit-field move.
pub const IMMR: Place = number!(16, 6, 5);

/// The last bit of a bit-field move.
pub const IMMS: Place = number!(10, 6, 5);

/// Whether a number is shifted by 12 bits.
pub const SH: Place = number!(22, 1);

/// The offset of a pair, signed, in 8 bytes.
pub const IMM7: Place = number!(15, 7);

/// A number, or an offset in units of what is loaded or stored.
pub const IMM12: Place = number!(10, 12);

/// A halfword, or the number of a service.
pub const IMM16: Place = number!(5, 16);

/// The distance of a branch on a condition, signed, in words.
pub const IMM19: Place = number!(5, 19);

/// The distance of a branch, signed, in words.
pub const IMM26: Place = number!(0, 26);

/// The lower two bits of a distance in pages.
pub const IMMLO: Place = number!(29, 2);

/// The upper bits of a distance in pages, which is signed.
pub const IMMHI: Place = number!(5, 19);

/// The condition of a selection.
pub const COND: Place = number!(12, 4);

/// The condition of a branch.
pub const BRANCH_COND: Place = number!(0, 4);

/// An offset in granules.
pub const UIMM6: Place = number!(16, 6);

/// An offset in tags.
pub const UIMM4: Place = number!(10, 4);

/// An offset in granules, signed.
pub const SIMM9: Place = number!(12, 9);

impl Place {
    /// The number that stands here in a word.
    pub fn word(self, wide: bool, word: u32) -> u32
        requires { IsTrue (holds_at_most 31 self) }
        ensures { result ≡ bits word self.low (by_width wide self.wide self.narrow) }
    {
        bits_of(word, self.low, self.width(wide))
    }

    /// The number that stands here in a word, in at most 8 bits.
    pub fn byte(self, wide: bool, word: u32) -> u8
        requires { IsTrue (holds_at_most 8 self) }
        ensures { result ≡ bits word self.low (by_width wide self.wide self.narrow) }
    {
        bits_of(word, self.low, self.width(wide)) as u8
    }

    /// The number that stands here in a word, in at most 16 bits.
    pub fn half(self, wide: bool, word: u32) -> u16
        requires { IsTrue (holds_at_most 16 self) }
        ensures { result ≡ bits word self.low (by_width wide self.wide self.narrow) }
    {
        bits_of(word, self.low, self.width(wide)) as u16
    }

    /// The register that stands here in a word.
    pub fn register(self, wide: bool, word: u32) -> Reg
        requires { IsTrue (holds_at_most 8 self) }
        ensures { result.0 ≡ bits word self.low (by_width wide self.wide self.narrow) }
    {
        Reg(self.byte(wide, word))
    }

    /// Whether a value is within the field's width.
    pub fn holds(self, wide: bool, value: u32) -> bool
        requires { by_width wide self.wide self.narrow ≤ 31 }
        ensures { IsTrue result ↔ (value < 2 ^ by_width wide self.wide self.narrow) }
    {
        value < 1 << self.width(wide)
    }

    /// A value put here, in a word that is otherwise zero.
    pub fn with(self, value: u32) -> u32
        requires place { self.low ≤ 31 }
        requires room { value * 2 ^ self.low < 2 ^ 32 }
        ensures { result ≡ value * 2 ^ self.low }
    {
        value << self.low
    }

    /// Whether this is that register's field and number 31 in it is the stack pointer.
    pub fn is_sp(self, field: RegisterField) -> bool
        ensures { result ≡ is_sp self.sp field }
    {
        matches!(
            (self.sp, field),
            (Some(RegisterField::Rd), RegisterField::Rd)
                | (Some(RegisterField::Rn), RegisterField::Rn)
                | (Some(RegisterField::Rt), RegisterField::Rt)
        )
    }

    /// The number of bits in a form.
    fn width(self, wide: bool) -> u32
        ensures { result ≡ by_width wide self.wide self.narrow }
    {
        if wide { self.wide } else { self.narrow }
    }
}

/// The number that stands in a word's bits from `low` on, `width` of them.
fn bits_of(word: u32, low: u32, width: u32) -> u32
    requires low { low ≤ 31 }
    requires width { width ≤ 31 }
    ensures { result ≡ bits word low width }
{
    (word >> low) & ((1 << width) - 1)
}
