ghost use Rattle.std.specs.Prelude.{◌≡◌, ◌^◌, ◌<◌};
ghost use Rattle.std.specs.Int.{cast_unsigned, w64};
ghost use Rattle.mt_base.specs.TwosComplement.{to_signed};
ghost use Rattle.a64_alu.specs.Width.{width, of_width, invert};

use mt_base::sext;

/// The bits of a number: 64 where an instruction is wide, else 32.
pub(crate) fn width(wide: bool) -> u8
    ensures { result ≡ width wide }
{
    if wide { 64 } else { 32 }
}

/// The number that an instruction reads of a register, or leaves there: the lower 32 bits where it is not wide.
pub fn of_width(wide: bool, value: u64) -> u64
    ensures value { result ≡ of_width wide value }
    ensures below { result < 2 ^ width wide }
{
    if wide { value } else { value & 0xffff_ffff }
}

/// The number read as a signed one.
pub(crate) fn signed(wide: bool, value: u64) -> i64
    ensures { result ≡ to_signed (width wide) (of_width wide value) }
{
    if wide {
        value.cast_signed()
    } else {
        sext(value, 32).cast_signed()
    }
}

/// Every bit turned: `NOT` of the Arm ARM, as MVN and MOVN have it.
pub fn invert(wide: bool, x: u64) -> u64
    ensures value { result ≡ invert (width wide) (of_width wide x) }
    ensures below { result < 2 ^ width wide }
{
    of_width(wide, !x)
}
