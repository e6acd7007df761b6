//! Descriptors: where the tagged objects of an image lie, as a list of bytes (Memtag ABI).
#![tactic(auto)]

mod interval;
mod number;
mod reading;
mod record;
mod refusal;
mod writing;

pub use interval::Interval;
pub use reading::decode;
pub use refusal::DescRefusal;
pub use writing::encode;
