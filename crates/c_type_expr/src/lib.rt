//! The walk over expressions and the types that are written in them: what it keeps, and the rows of operators.
#![tactic(auto)]

mod address;
mod fault;
mod judged;
mod length;
mod parts;
mod rows;
mod scopes;
mod type_rows;
mod walk;

pub use fault::Fault;
pub use judged::{expression, judged_value, written};
pub use length::computes;
pub use parts::whole_on;
pub use rows::call::{copy_signature, copy_types};
pub use rows::leaf::text_bytes;
pub use scopes::{Binding, Called, Meaning, Place, Scopes, Signature};
pub use type_rows::{tag_number, whole};
pub use walk::Walk;
