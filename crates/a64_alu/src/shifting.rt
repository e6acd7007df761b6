ghost use Rattle.std.specs.Prelude.{◌≡◌, ◌^◌, ◌%◌, ◌<◌};
ghost use Rattle.a64_alu.specs.Width.{width, of_width};
ghost use Rattle.a64_alu.specs.Shifting.{shift_left_by, shift_right_by, arithmetic_shift_right_by};

use crate::width::{of_width, signed, width};

/// The count of a shift, modulo the width.
fn places(wide: bool, count: u64) -> u64
    ensures value { result ≡ of_width wide count % width wide }
    ensures below { result < width wide }
{
    count % u64::from(width(wide))
}

/// LSLV of the Arm ARM: to the left by the count modulo the width.
pub fn shift_left(wide: bool, x: u64, count: u64) -> u64
    ensures value { result ≡ shift_left_by (width wide) (of_width wide x) (of_width wide count) }
    ensures below { result < 2 ^ width wide }
{
    of_width(wide, x << places(wide, count))
}

/// LSRV of the Arm ARM: to the right by the count modulo the width, with zeros at the top.
pub fn shift_right(wide: bool, x: u64, count: u64) -> u64
    ensures value { result ≡ shift_right_by (width wide) (of_width wide x) (of_width wide count) }
    ensures below { result < 2 ^ width wide }
{
    of_width(wide, x) >> places(wide, count)
}

/// ASRV of the Arm ARM: to the right by the count modulo the width, with copies of the sign at the top.
pub fn shift_arithmetic(wide: bool, x: u64, count: u64) -> u64
    ensures value { result ≡ arithmetic_shift_right_by (width wide) (of_width wide x) (of_width wide count) }
    ensures below { result < 2 ^ width wide }
{
    of_width(
        wide,
        (signed(wide, x) >> places(wide, count)).cast_unsigned(),
    )
}
