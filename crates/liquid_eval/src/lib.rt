//! The evaluation of templates: from a parsed template, and whatever answers look-ups, to a text, or to the first fault.
#![tactic(auto)]

mod cells;
mod evaluating;
mod evaluation;
mod excerpts;
mod signal;
mod starting;
mod texts_apart;
mod work;

pub use evaluation::{Evaluated, Evaluator, evaluate};
