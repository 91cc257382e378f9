//! Random edits of small sites: after each, what a session builds is what a build from nothing gives, and what it renders is what
//! has to be rendered. The edits are drawn, and writes fail between them, so no row of text can say them. And the first fault of a session's files, which needs a session too.
#![tactic(auto)]

#[cfg(test)]
mod building;
#[cfg(test)]
mod dice;
#[cfg(test)]
mod editing;
#[cfg(test)]
mod first_faults;
#[cfg(test)]
mod forms;
#[cfg(test)]
mod notes;
#[cfg(test)]
mod outputs;
#[cfg(test)]
mod sites;
#[cfg(test)]
mod walks;
#[cfg(test)]
mod witness;
