//! The parser of what declarations are made of: declarators, parameters, initializers, objects, and the members of structs.
#![tactic(auto)]

mod declarators;
mod initializers;
mod members;
mod objects;
mod parameter_list;

pub use declarators::{Declared, starred};
pub use members::{BodyRead, body};
pub use objects::{ObjectsRead, local, rest};
pub use parameter_list::{ParametersRead, parameters};
