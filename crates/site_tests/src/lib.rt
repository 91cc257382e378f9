//! Whole runs over ends in memory: what rows of text cannot say of them. Calls of the ends that fail, words and moments that the program does not hand on,
//! how often an end is called, what is rendered, threads that are at work at once, and sites of thousands of items. The other rows of whole sites stand in `tests/`.
#![tactic(auto)]

mod scenario;
mod scenario_error;

pub use scenario::{Ends, RunEnd, Scenario};
pub use scenario_error::ScenarioError;

#[cfg(test)]
mod calls;
#[cfg(test)]
mod failing;
#[cfg(test)]
mod many;
#[cfg(test)]
mod renderers;
#[cfg(test)]
mod runs;
#[cfg(test)]
mod seen;
#[cfg(test)]
mod threads;
