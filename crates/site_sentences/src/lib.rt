//! What sitebuild says to a person: a sentence for each thing that can be wrong, the line that tells it, and the answers
//! to what people ask a program first.
#![tactic(auto)]

mod failure;
mod lines;
mod questions;
mod sentences;
mod showing;

pub use failure::Failure;
pub use lines::{failure_line, fault_line, obstacle_line, script_line, usage_lines};
pub use questions::{Question, answer, asked};
pub use sentences::{
    failure_sentence, fault_sentence, reason_sentence, script_sentence, usage_sentence,
    yaml_sentence,
};
pub use showing::shown;
