ghost use Rattle.std.specs.Prelude.{◌≡◌, ℕ, ◌%◌, ◌^◌, ◌≤◌};
ghost use Rattle.mt_base.specs.Pointers.{tag_of, with_tag, address_of};
ghost use Rattle.mt_base.specs.Granules.{round16};

use crate::tag::Tag;

/// The bits of a pointer below its tag.
const ADDRESS_BITS: u32 = 56;

/// The logical tag of a pointer: its bits 59 to 56.
pub fn tag_of(pointer: u64) -> Tag
    ensures { result ≡ tag_of pointer }
{
    Tag::from_low_bits(pointer >> ADDRESS_BITS)
}

/// The pointer with its bits 59 to 56 replaced by the tag.
pub fn with_tag(pointer: u64, tag: Tag) -> u64
    ensures { result ≡ with_tag pointer tag }
{
    pointer & !(0xf << ADDRESS_BITS) | u64::from(tag.value()) << ADDRESS_BITS
}

/// The address that an access through the pointer goes to: its bits 55 to 0.
pub fn address_of(pointer: u64) -> u64
    ensures { result ≡ address_of pointer }
{
    pointer & ((1 << ADDRESS_BITS) - 1)
}

/// The least multiple of 16 that is at least `n`, for n at most 2^63.
pub fn round16(n: u64) -> u64
    requires { n ≤ 2 ^ 63 }
    ensures value { result ≡ round16 n }
    ensures multiple { result % 16 ≡ 0 }
    ensures covers { n ≤ result }
    ensures least { (m : ℕ) → n ≤ m → m % 16 ≡ 0 → result ≤ m }
{
    (n + 15) / 16 * 16
}

#[cfg(test)]
mod tests {
    use super::*;
    use std::test::Fail;

    #[test]
    fn bits_59_to_56_are_the_tag(rt: HostRuntime) -> Result<(), Fail> {
        let tag = Tag::new(0xa).ok_or("not a tag")?;
        let pointer = 0xf512_3456_789a_bcde;
        assert_eq!(rt; tag_of(pointer).value(), 5);
        assert_eq!(rt; with_tag(pointer, tag), 0xfa12_3456_789a_bcde);
        assert_eq!(rt; address_of(pointer), 0x0012_3456_789a_bcde);
        for (n, want) in [
            (0, 0),
            (1, 16),
            (15, 16),
            (16, 16),
            (17, 32),
            (1 << 63, 1 << 63),
        ] {
            assert_eq!(rt; round16(n), want, "{n}");
        }
        Ok(())
    }
}
