//! What a program of the C profile means: a run over separate blocks of memory, without addresses.
#![tactic(auto)]

mod access;
mod cell;
mod kind;
mod reason;
mod value;

pub use access::Access;
pub use cell::Cell;
pub use kind::Kind;
pub use reason::Reason;
pub use value::{Pointer, Value};
