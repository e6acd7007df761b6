//! Values, and the memory that a program's run reads and writes, with what the definition of the meaning says of them.
#![tactic(auto)]

mod compare;
mod copying;
mod judge;
mod lookup;
mod memory;
mod owner;
mod reading;
mod slot;
mod storing;
mod values;
mod writing;

pub use compare::{Ends, difference};
pub use judge::{read_in, reason_after, reason_against, scalar_in};
pub use memory::Memory;
pub use reading::{number_of_cells, pointer_of_cells, value_of_cells};
pub use slot::Slot;
pub use values::{converted_to, missing_result, moved, null, number_in, pointer_in};
pub use writing::{put_number, put_pointer, put_value};
