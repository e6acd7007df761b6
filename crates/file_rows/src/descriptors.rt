use memtag_desc::{DescRefusal, Interval, decode, encode};
use std::alloc::{AllocError, Global};
use std::fmt::Write;

// What the bytes are read as: intervals or a fault. Intervals have to be written as the same bytes again.
pub(crate) fn answer(alloc: Global, bytes: &[u8]) -> Result<String, AllocError> {
    match decode(alloc, bytes) {
        Ok(intervals) => {
            if encode(alloc, &intervals)?.as_slice() == bytes {
                listed(alloc, &intervals)
            } else {
                String::from_str(alloc, "written otherwise")
            }
        }
        Err(DescRefusal::Cut { at }) => format!(in alloc; "Cut {at}"),
        Err(DescRefusal::LongForm { at }) => format!(in alloc; "LongForm {at}"),
        Err(DescRefusal::TooFar { at }) => format!(in alloc; "TooFar {at}"),
        Err(DescRefusal::NoMemory) => Err(AllocError),
    }
}

// Each interval as its start and its bytes.
fn listed(alloc: Global, intervals: &[Interval]) -> Result<String, AllocError> {
    let mut list = String::new(alloc);
    for interval in intervals {
        if !list.is_empty() {
            list.push_str(", ")?;
        }
        let one = format!(in alloc; "{:#x} {}", interval.start, interval.bytes)?;
        list.push_str(one.as_str())?;
    }
    Ok(list)
}
