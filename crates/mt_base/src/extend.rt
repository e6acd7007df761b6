ghost use Rattle.std.specs.Prelude.{◌≡◌, ◌≤◌};
ghost use Rattle.mt_base.specs.Extension.{sign_extend, zero_extend};

/// The low `bits` bits of the value, with zeros above: `ZeroExtend` of the Arm ARM, for 1 to 64 bits.
pub fn zext(value: u64, bits: u8) -> u64
    requires least { 1 ≤ bits }
    requires most { bits ≤ 64 }
    ensures { result ≡ zero_extend bits value }
{
    value & u64::MAX >> (64 - bits)
}

/// The low `bits` bits of the value, with copies of the highest of them above: `SignExtend` of the Arm ARM, for 1 to
/// 64 bits.
pub fn sext(value: u64, bits: u8) -> u64
    requires least { 1 ≤ bits }
    requires most { bits ≤ 64 }
    ensures { result ≡ sign_extend bits 64 value }
{
    let low = zext(value, bits);
    let sign = 1 << (bits - 1);
    if low < sign {
        low
    } else {
        (low - sign).wrapping_sub(sign)
    }
}

#[cfg(test)]
mod tests {
    use super::*;

    #[test]
    fn extension_copies_the_sign_or_zeros(rt: HostRuntime) {
        let rows = [
            (0x80, 8, 0x80, 0xffff_ffff_ffff_ff80),
            (0x17f, 8, 0x7f, 0x7f),
            (1, 1, 1, u64::MAX),
            (0x1f_fffc, 21, 0x1f_fffc, 0xffff_ffff_ffff_fffc),
            (u64::MAX, 32, 0xffff_ffff, u64::MAX),
            (1 << 63, 64, 1 << 63, 1 << 63),
        ];
        for (value, bits, by_zero, by_sign) in rows {
            assert_eq!(rt; zext(value, bits), by_zero, "{value:x} of {bits} bits");
            assert_eq!(rt; sext(value, bits), by_sign, "{value:x} of {bits} bits");
        }
    }
}
