//! The steps of statements, loops, declarations and initialisers that stay in their scope and call.
#![tactic(auto)]

mod declaring;
mod done;
mod initialising;
mod loops;
mod statements;
mod values;

pub use declaring::declare;
pub use done::done_given;
pub use initialising::fill;
pub use statements::{after_body, after_item, execute_plain, sequence};
pub use values::value_given;
