//! What the texts of a program's sources mean together, computed.
#![tactic(auto)]

mod files;
mod refusal;
mod run;
mod texts;

pub use files::Files;
pub use refusal::MeanRefusal;
pub use run::mean_files;
pub use texts::mean_texts;
