ghost use Rattle.std.specs.Prelude.{◌≡◌, ◌^◌, ◌<◌};
ghost use Rattle.a64_alu.specs.Width.{width, of_width};
ghost use Rattle.a64_alu.specs.Multiplying.{multiply_add, multiply_sub};

use crate::width::of_width;

/// `a + x * y`, as MADD has it.
pub fn multiply_add(wide: bool, x: u64, y: u64, a: u64) -> u64
    ensures value { result ≡ multiply_add (width wide) (of_width wide x) (of_width wide y) (of_width wide a) }
    ensures below { result < 2 ^ width wide }
{
    of_width(wide, a.wrapping_add(x.wrapping_mul(y)))
}

/// `a - x * y`, as MSUB has it.
pub fn multiply_sub(wide: bool, x: u64, y: u64, a: u64) -> u64
    ensures value { result ≡ multiply_sub (width wide) (of_width wide x) (of_width wide y) (of_width wide a) }
    ensures below { result < 2 ^ width wide }
{
    of_width(wide, a.wrapping_sub(x.wrapping_mul(y)))
}
