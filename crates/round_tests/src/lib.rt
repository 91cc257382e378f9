//! What renders are kept by, and what a round renders again: look-ups, records and kept renders, lists of events, rounds of one item after another, and rounds of
//! many workers beside them. The program shows none of their calls, and no run of it decides how threads take turns.
#![tactic(auto)]

#[cfg(test)]
mod memo;
#[cfg(test)]
mod pool;
#[cfg(test)]
mod records;
#[cfg(test)]
mod rounds;
mod row;
#[cfg(test)]
mod serial;
#[cfg(test)]
mod text_code;
#[cfg(test)]
mod workers;
