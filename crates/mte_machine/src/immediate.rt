// The numbers that instructions hold in themselves.
ghost use Rattle.std.specs.Prelude.{◌≡◌, ◌*◌, ◌^◌, ◌<◌, false};
ghost use Rattle.a64_alu.specs.Width.{width};
ghost use Rattle.a64_code.specs.Results.{shifted_immediate, with_halfword};

// A halfword at one of its places in a register: four of 64 bits, two of 32.
pub(crate) fn halfword_at(wide: bool, hw: u8, halfword: u16) -> u64
    requires place { hw < 4 }
    requires narrow { wide ≡ false → hw < 2 }
    ensures value { result ≡ halfword * 2 ^ (16 * hw) }
    ensures below { result < 2 ^ width wide }
{
    u64::from(halfword) << (16 * u32::from(hw))
}

// A value with one of its four halfwords replaced.
pub(crate) fn with_halfword(value: u64, hw: u8, halfword: u16) -> u64
    requires { hw < 4 }
    ensures { result ≡ with_halfword (16 * hw) halfword value }
{
    let unit = 1u64 << (16 * u32::from(hw));
    value % unit + u64::from(halfword) * unit + value / unit / 65536 * 65536 * unit
}

// An immediate of 12 bits, shifted by 12 where `sh` is 1.
pub(crate) fn shifted_immediate(sh: u8, imm12: u16) -> u64
    requires shift { sh < 2 }
    ensures value { result ≡ shifted_immediate sh imm12 }
    ensures below { result < 2 ^ 32 }
{
    u64::from(imm12) << (12 * u32::from(sh))
}
