//! Initializers.

mod init_read;
mod list_read;
mod parser;

pub use init_read::InitRead;
pub use parser::initial;
