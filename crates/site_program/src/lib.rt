//! The top calls of sitebuild: all that the program does, from the words of its command line to its status.
#![tactic(auto)]

mod check;
mod jobs;
mod line;
mod make;
mod once;
mod one_build;
mod status;
mod std_sink;
mod usage;

pub use jobs::run_jobs;
pub use once::run_once;
pub use status::Status;
pub use std_sink::StdSink;
