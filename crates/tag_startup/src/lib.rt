//! The start-up: maps an image into the machine, tags its objects and serves its relocations, so that it runs from there.
#![tactic(auto)]

mod judge;
mod parts;
mod refusal;
mod relocate;
mod startup;
mod tags;

pub use refusal::StartRefusal;
pub use startup::start;
