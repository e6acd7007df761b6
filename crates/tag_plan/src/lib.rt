//! The code that tags the slots of a frame and takes their tags away, and that makes the pointer to a slot.
#![tactic(auto)]

mod calls;
mod places;
mod rounds;
mod stretch;

pub use calls::{enter_scope, epilogue, leave_scope, prologue, slot_address};
