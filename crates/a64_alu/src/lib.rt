//! Arithmetic of A64 instructions: results and flags, as the shared pseudocode of the Arm ARM has them.
#![tactic(auto)]

mod adding;
mod bitfield;
mod condition;
mod dividing;
mod flags;
mod multiplying;
mod shifting;
mod width;

pub use adding::{add, subtract, subtract_with_flags};
pub use bitfield::{signed_bitfield, unsigned_bitfield};
pub use condition::condition_holds;
pub use dividing::{divide_signed, divide_unsigned};
pub use flags::Flags;
pub use multiplying::{multiply_add, multiply_sub};
pub use shifting::{shift_arithmetic, shift_left, shift_right};
pub use width::{invert, of_width};
