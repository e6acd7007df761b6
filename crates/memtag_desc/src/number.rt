ghost use Rattle.std.specs.Prelude.{◌≡◌, ◌<◌, ◌≤◌, ◌^◌, length, IfOk};
ghost use Rattle.memtag_desc.specs.Laws.Reading.{number_at};

use crate::refusal::DescRefusal;

// The most bytes that a number of a descriptor has.
const MOST: usize = 8;

// A number of a descriptor, as it was read: its value, and how many bytes it takes.
#[derive(Clone, Copy)]
pub(crate) struct Number {
    pub(crate) value: u64,
    pub(crate) bytes: u64,
}

// The number with which the rest of the bytes begins. The rest stands at `place`, and there are `total` bytes in all.
pub(crate) fn number_at(place: u64, total: u64, rest: &[u8]) -> Result<Number, DescRefusal>
    ensures is { result ≡ number_at place total rest.now }
    ensures value { IfOk result (λ n. n.value < 2 ^ 56) }
    ensures within { IfOk result (λ n. n.bytes ≤ length rest.now) }
{
    let mut value = 0;
    let mut scale = 1;
    for k in 0..MOST {
        let Some(byte) = rest.get(k) else {
            return Err(DescRefusal::Cut { at: total });
        };
        let byte = u64::from(*byte);
        if byte < 128 {
            if byte == 0 && k > 0 {
                return Err(DescRefusal::LongForm { at: place });
            }
            return Ok(Number {
                value: value + scale * byte,
                bytes: k as u64 + 1,
            });
        }
        value += scale * (byte - 128);
        scale *= 128;
    }
    Err(DescRefusal::TooFar { at: place })
}
