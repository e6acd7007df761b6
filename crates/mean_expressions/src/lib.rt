//! The steps in expressions, and the stack of what waits for their values and places.
#![tactic(auto)]

mod evaluating;
mod evaluation;
mod frames;
mod locating;
mod operands;
mod places;

pub use evaluating::evaluate;
pub use frames::{
    Control, Declarations, DoneFrame, Flow, FlowFrame, Frame, Heading, Loop, OperandFrame,
    PlaceFrame, ValueFrame,
};
pub use locating::{local_block, locate};
pub use operands::operand_given;
pub use places::place_given;
