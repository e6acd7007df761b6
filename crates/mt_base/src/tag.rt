ghost use Rattle.std.specs.Prelude.{◌≡◌, ℕ, ◌%◌, ◌<◌, ◌≤◌, ◌↔◌, ◌==◌, ◌&&◌, IsTrue, IsSome, IfSome, slice_index};
ghost use Rattle.mt_base.specs.Tags.{next_tag, allowed_from, is_allowed};

use std::marker::Model;

/// A logical or an allocation tag: a number from 0 to 15.
#[derive(Clone, Copy, Debug, PartialEq, Eq)]
pub struct Tag {
    value: u8,
}

impl Model for Tag {
    ghost Value = { ℕ };

    ghost view = { λ t. t.value };

    ghost invariant = { λ t. t.value < 16 };

    ghost inverse = { λ n. record { value = n } };
}

impl Tag {
    /// The tag of untagged memory.
    pub fn zero() -> Self
        ensures { result ≡ 0 }
    {
        Tag { value: 0 }
    }

    /// The tag with this number, or `None` where the number is over 15.
    pub fn new(value: u8) -> Option<Self>
        ensures valid { IsSome result ↔ (value ≤ 15) }
        ensures value { IfSome result (λ t. t ≡ value) }
    {
        if value <= 15 {
            Some(Tag { value })
        } else {
            None
        }
    }

    /// The tag in the four lowest bits.
    pub(crate) fn from_low_bits(bits: u64) -> Self
        ensures { result ≡ bits % 16 }
    {
        Tag {
            value: (bits % 16) as u8,
        }
    }

    /// The tag's number, from 0 to 15.
    pub fn value(self) -> u8
        ensures value { result ≡ self }
        ensures in_range { result < 16 }
    {
        self.value
    }
}

/// The tags that may not be chosen: bit t is set where tag t is excluded.
#[derive(Clone, Copy)]
pub struct Exclude(pub u16);

impl Exclude {
    /// Whether the tag with this number, below 16, may be chosen.
    fn allows(self, tag: u8) -> bool
        requires { tag < 16 }
        ensures { result ≡ is_allowed self.0 tag }
    {
        self.0 >> tag & 1 == 0
    }
}

/// `AArch64.ChooseNonExcludedTag` of the Arm ARM, for an offset of at most 15.
///
/// Offset 0 gives the first tag from `tag` on, round the ring of sixteen, that is not excluded; offset n gives the n-th
/// such tag after `tag`. Where all are excluded it gives 0.
pub fn next_tag(tag: Tag, offset: u8, exclude: Exclude) -> Tag
    requires { offset ≤ 15 }
    ensures { result ≡ next_tag tag offset exclude.0 }
{
    if offset == 0 {
        return first_allowed(tag.value, exclude);
    }
    let mut chosen = first_allowed(tag.value + 1, exclude);
    for step in 1..offset {
        chosen = first_allowed(chosen.value + 1, exclude);
    }
    chosen
}

/// The first tag from the number `from` on, round the ring, that is not excluded, or 0 where all are excluded.
fn first_allowed(from: u8, exclude: Exclude) -> Tag
    requires { from ≤ 16 }
    ensures { result ≡ slice_index (allowed_from exclude.0 from) 0 }
{
    for step in 0..16 {
        let value = (from + step) % 16;
        if exclude.allows(value) {
            return Tag { value };
        }
    }
    Tag::zero()
}

#[cfg(test)]
mod tests {
    use super::*;
    use std::test::Fail;

    /// A tag, an offset, the excluded tags and the choice that the pseudocode of the Arm ARM gives by hand.
    #[test]
    fn next_tag_follows_the_pseudocode(rt: HostRuntime) -> Result<(), Fail> {
        let rows = [
            (15, 1, 0x0001, 1),
            (3, 0, 0xffff, 0),
            (3, 5, 0xffff, 0),
            (0, 0, 0x0001, 1),
            (5, 2, 0x0040, 8),
            (9, 0, 0x0001, 9),
            (14, 3, 0x8001, 3),
            (2, 15, 0xfffb, 2),
            (7, 0, 0x0000, 7),
            (12, 9, 0x0000, 5),
        ];
        for (from, offset, excluded, want) in rows {
            let tag = Tag::new(from).ok_or("not a tag")?;
            assert!(rt; offset <= 15);
            let got = next_tag(tag, offset, Exclude(excluded)).value();
            assert_eq!(rt; got, want, "from {from} by {offset} without {excluded:x}");
        }
        assert_eq!(rt; Tag::new(16).is_none(), true);
        Ok(())
    }
}
