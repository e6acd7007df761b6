//! What the commands of mtcc answer, and how they read the files of a job: reasons, statuses and lines, and files in turn.
#![tactic(auto)]

mod answer;
mod each;
mod ended;
mod put;
mod read;
mod refusal;
mod report;
mod undefined;

pub use answer::Answer;
pub use each::{Stage, make_each};
pub use ended::{Ended, Why};
pub use put::put_bytes;
pub use read::read_file;
pub use refusal::{BuildRefusal, RunRefusal};
pub use report::finish;
pub use undefined::Undefined;
