//! What programs share that compare rows of text with what the code does: rows, numbers, bytes, texts, and a count of what differs.
#![tactic(auto)]

mod number;
mod quoted;
mod row;
mod tally;
mod words;

pub use number::{bytes_of, hex};
pub use quoted::unquoted;
pub use row::Row;
pub use tally::Tally;
pub use words::words_of;
