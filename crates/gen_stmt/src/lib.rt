//! The symbolic code of statements.
#![tactic(auto)]

mod around;
mod branches;
mod declarations;
mod declared;
mod for_loop;
mod jumps;
mod loops;
mod scopes;
mod statements;

pub use around::{Around, Range};
pub use declarations::store_local;
pub use statements::{body, statement};
