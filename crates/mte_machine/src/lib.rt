//! The machine: it executes A64 code, one instruction a step, for at most a given number of steps.
#![tactic(auto)]

mod arithmetic;
mod branches;
mod decoder;
mod effect;
mod granule_tags;
mod immediate;
mod loads_and_stores;
mod machine;
mod memory;
mod pointer_tags;
mod registers;
mod results;
mod services;
mod step;

pub use a64_code::MachineEnd;
pub use machine::Machine;
pub use step::Step;
