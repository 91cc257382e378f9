//! The lines of a session's script.
#![tactic(auto)]

mod ahead;
mod body;
mod head;
mod line;
mod number;
mod raw_line;
mod reader;
mod std_input;
mod waiting;

pub use line::{Line, ScriptKind};
pub use reader::{ScriptReader, next_line};
pub use std_input::StdInput;
pub use waiting::wait_a_moment;
