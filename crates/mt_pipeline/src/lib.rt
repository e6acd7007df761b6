//! The commands of mtcc: from words, files and an input to an output, an error line and a status.
#![tactic(auto)]

mod builder;
mod driver;
mod dump;
mod go;
mod plan;
mod run;
mod runner;
mod sources;
mod write;

pub use builder::build;
pub use driver::{NoWords, drive, end_without_words};
pub use linker::LinkRefusal;
pub use mt_answers::{Answer, BuildRefusal, Ended, RunRefusal, Why, finish};
pub use mt_compile::{CompileRefusal, Refused, SourceText};
pub use runner::run_image;
