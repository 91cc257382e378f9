//! Front matter, and the YAML subset that it and data files are written in.
#![tactic(auto)]

mod block_scalars;
mod blocks;
mod escapes;
mod extents;
mod faults;
mod flow_parts;
mod flow_scalars;
mod flow_values;
mod folding;
mod front_matter;
mod gaps;
mod growth;
mod keys;
mod leaves;
mod line_faults;
mod line_keys;
mod line_leaves;
mod line_runs;
mod lines;
mod plain_scalars;
mod quote_ends;
mod quotes;
mod reading;
mod scalars;
mod scans;
mod text_lines;

pub use faults::{YamlError, YamlFault};
pub use front_matter::{Front, split_front};
pub use reading::{read_mapping, read_yaml};
