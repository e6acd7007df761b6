//! What the parser is made of: a cursor over tokens, functions of the tokens that are left, when they read a language, and type names.
#![tactic(auto)]

mod cursor;
mod fault;
mod type_names;
mod type_read;
mod type_words;
mod words;

pub use cursor::{Cursor, place_of};
pub use fault::{Fault, Stop};
pub use type_names::{base, begins_type, stars, type_name};
pub use type_read::TypeRead;
pub use words::Named;
