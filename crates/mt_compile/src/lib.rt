//! The compiler: from the text of a source to the words of its code, or to the frames of its functions, or the first reason why there are none.
#![tactic(auto)]

mod code;
mod compiler;
mod constant;
mod file;
mod planned;
mod program;
mod refusal;
mod refused;
mod source;
mod typed;

pub use compiler::compile;
pub use file::{TypedFile, typed_file};
pub use planned::plan_of;
pub use refusal::CompileRefusal;
pub use refused::Refused;
pub use source::SourceText;
pub use typed::typed_of;
