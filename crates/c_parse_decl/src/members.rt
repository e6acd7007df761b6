//! The bodies of structs.

mod body_read;
mod member_list;
mod parser;

pub use body_read::BodyRead;
pub use parser::body;
