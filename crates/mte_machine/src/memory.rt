// The accesses of instructions to memory. Each is judged whole, by the calls of `TagMemory` alone, before it changes
// anything.

mod judge;
mod pair;
mod single;
mod tag;

pub(crate) use pair::{load_pair, store_pair};
pub(crate) use single::{load, store};
pub(crate) use tag::{clear_granules, load_tag, tag_granules};
