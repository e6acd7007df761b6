ghost use Rattle.std.specs.Prelude.{◌≡◌, ◌^◌, ◌<◌};
ghost use Rattle.mt_base.specs.Wrapping.{wrapping_add, wrapping_sub};
ghost use Rattle.a64_alu.specs.Width.{width, of_width};
ghost use Rattle.a64_alu.specs.Adding.{subtract_with_flags};

use crate::flags::Flags;
use crate::width::of_width;

/// The sum, as ADD has it.
pub fn add(wide: bool, x: u64, y: u64) -> u64
    ensures value { result ≡ wrapping_add (width wide) (of_width wide x) (of_width wide y) }
    ensures below { result < 2 ^ width wide }
{
    of_width(wide, x.wrapping_add(y))
}

/// The difference, as SUB has it.
pub fn subtract(wide: bool, x: u64, y: u64) -> u64
    ensures value { result ≡ wrapping_sub (width wide) (of_width wide x) (of_width wide y) }
    ensures below { result < 2 ^ width wide }
{
    of_width(wide, x.wrapping_sub(y))
}

/// The difference and its flags, as SUBS has them: `AddWithCarry` of the Arm ARM of x, NOT y and 1.
pub fn subtract_with_flags(wide: bool, x: u64, y: u64) -> (u64, Flags)
    ensures { result ≡ subtract_with_flags (width wide) (of_width wide x) (of_width wide y) }
{
    let x = of_width(wide, x);
    let y = of_width(wide, y);
    let difference = of_width(wide, x.wrapping_sub(y));
    let sign = if wide { 1 << 63 } else { 1 << 31 };
    let flags = Flags {
        negative: difference >= sign,
        zero: difference == 0,
        carry: x >= y,
        overflow: (x >= sign) != (y >= sign) && (x >= sign) != (difference >= sign),
    };
    (difference, flags)
}
