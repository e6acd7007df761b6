ghost use Rattle.std.specs.Prelude.{◌≡◌, ◌^◌, ◌<◌};
ghost use Rattle.a64_alu.specs.Width.{width, of_width};
ghost use Rattle.a64_alu.specs.Dividing.{divide_unsigned, divide_signed};

use crate::width::{of_width, signed};

/// UDIV of the Arm ARM: a division by 0 gives 0.
pub fn divide_unsigned(wide: bool, x: u64, y: u64) -> u64
    ensures value { result ≡ divide_unsigned (of_width wide x) (of_width wide y) }
    ensures below { result < 2 ^ width wide }
{
    let x = of_width(wide, x);
    let y = of_width(wide, y);
    x.checked_div(y).unwrap_or(0)
}

/// SDIV of the Arm ARM, rounded toward zero: a division by 0 gives 0, and the least number divided by -1 is itself.
pub fn divide_signed(wide: bool, x: u64, y: u64) -> u64
    ensures value { result ≡ divide_signed (width wide) (of_width wide x) (of_width wide y) }
    ensures below { result < 2 ^ width wide }
{
    let x = signed(wide, x);
    let y = signed(wide, y);
    if y == 0 {
        0
    } else {
        of_width(wide, x.wrapping_div(y).cast_unsigned())
    }
}
