//! The frames of functions: where each parameter and local stands, and how many bytes a frame has.
#![tactic(auto)]

mod ends;
mod frame;
mod function;
mod held;
mod need;
mod need_stmt;
mod placed;
mod scopes;

pub use frame::{Frame, LayoutRefusal, Slot, Slots};
pub use function::layout;
