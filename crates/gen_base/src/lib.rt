//! What the code of expressions is made of: waiting values, conversions, accesses and operators.
#![tactic(auto)]

mod accesses;
mod comparisons;
mod conversions;
mod integers;
mod items;
mod operators;
mod pointers;
mod registers;
mod sizes;
mod waiting;

pub use accesses::{push_load, push_load_local, push_store, push_store_local, reached};
pub use comparisons::push_is_other;
pub use conversions::{push_convert, push_paying_convert};
pub use integers::{push_on_integer, push_on_integers};
pub use items::{next_label, push, push_instr, push_moves};
pub use operators::{bytes_of, int_in, push_combined, push_element, push_operated, push_stepped};
pub use registers::{LEFT, RETURNED, SCRATCH, STACK_POINTER, ZERO, argument, push_move};
pub use waiting::{push_fetch, push_keep};
