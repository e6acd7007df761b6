//! The parameters of a function.

mod parameter;
mod parameters_read;
mod parser;

pub use parameters_read::ParametersRead;
pub use parser::parameters;
