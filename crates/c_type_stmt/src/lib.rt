//! The walk over what stands in bodies and behind declarators: declarations, initialisers and statements.
#![tactic(auto)]

mod declaration;
mod first_bytes;
mod fitted;
mod initial;
mod initial_expression;
mod layout;
mod statements;

pub use declaration::{ask_object, bind_local, copy_known, declared_type, is_new, is_small};
pub use fitted::Fitted;
pub use initial::{initialised, span_of};
pub use statements::statement_body;
