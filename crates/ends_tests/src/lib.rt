//! What the calls at the bottom answer for rows of values, and what no reply of the program shows: paths, values and texts, ends that fail or give their bytes in
//! pieces, sources and outputs in memory and on real folders, what a command line orders, and the sentences for numbers that no site reaches.
#![tactic(auto)]

#[cfg(test)]
mod bytes;
#[cfg(test)]
mod disk_out;
#[cfg(test)]
mod disk_source;
#[cfg(test)]
mod generator;
#[cfg(test)]
mod held;
#[cfg(test)]
mod keeping;
#[cfg(test)]
mod lines;
#[cfg(test)]
mod memory_out;
#[cfg(test)]
mod memory_source;
#[cfg(test)]
mod sentences;
#[cfg(test)]
mod stretches;
#[cfg(test)]
mod values;
#[cfg(test)]
mod words;
