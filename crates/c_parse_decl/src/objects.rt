//! Declarations of objects.

mod objects_read;
mod parser;

pub use objects_read::{ObjectRead, ObjectsRead};
pub use parser::{local, rest};
