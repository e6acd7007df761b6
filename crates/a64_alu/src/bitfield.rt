ghost use Rattle.std.specs.Prelude.{◌≡◌, ◌^◌, ◌<◌};
ghost use Rattle.a64_alu.specs.Width.{width, of_width};
ghost use Rattle.a64_alu.specs.Bitfield.{bitfield_unsigned, bitfield_signed};

use crate::width::{of_width, width};
use mt_base::{sext, zext};

/// UBFM of the Arm ARM: bits `immr` to `imms` with zeros above, or where `imms` is the lower number, bits 0 to `imms` at
/// the place of the width minus `immr`.
pub fn unsigned_bitfield(wide: bool, immr: u8, imms: u8, x: u64) -> u64
    ensures value { result ≡ bitfield_unsigned (width wide) immr imms (of_width wide x) }
    ensures below { result < 2 ^ width wide }
{
    let width = width(wide);
    let immr = immr % width;
    let imms = imms % width;
    let x = of_width(wide, x);
    if immr <= imms {
        zext(x >> immr, imms - immr + 1)
    } else {
        of_width(wide, zext(x, imms + 1) << (width - immr))
    }
}

/// SBFM of the Arm ARM: as `unsigned_bitfield`, with copies of the highest bit above what is moved.
pub fn signed_bitfield(wide: bool, immr: u8, imms: u8, x: u64) -> u64
    ensures value { result ≡ bitfield_signed (width wide) immr imms (of_width wide x) }
    ensures below { result < 2 ^ width wide }
{
    let width = width(wide);
    let immr = immr % width;
    let imms = imms % width;
    let x = of_width(wide, x);
    if immr <= imms {
        of_width(wide, sext(x >> immr, imms - immr + 1))
    } else {
        of_width(wide, sext(x, imms + 1) << (width - immr))
    }
}
