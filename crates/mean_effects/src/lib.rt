//! What nodes of programs do to the memory and the work once their operands are known: accesses, copies, operators.
#![tactic(auto)]

mod access;
mod answers;
mod assigning;
mod copying;
mod effects;
mod filling;
mod here;
mod members;
mod now;
mod object;
mod operators;
mod sizes;
mod stepping;
mod writing;

pub use access::read;
pub use assigning::{Assignment, assign_effect};
pub use copying::{Copy, copy_struct};
pub use effects::{is_true, spend};
pub use filling::{fill_text, zero_object};
pub use here::Here;
pub use members::member_of;
pub use now::{Ending, Now};
pub use object::Object;
pub use operators::{Operation, moved_by, number_of_truth, on_values, second_effect, unary_effect};
pub use sizes::exact_size;
pub use stepping::step_effect;
pub use writing::write;
