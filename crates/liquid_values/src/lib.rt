//! What the operands of templates stand for, by whatever answers look-ups: literals, ranges, variables and their members.
#![tactic(auto)]

mod excerpts;
mod filters;
mod found;
mod item_members;
mod locals;
mod loop_values;
mod members;
mod mode;
mod names;
mod operands;
mod place;
mod site_members;
mod stack;
mod stop;
mod strict_options;

pub use excerpts::{Excerpts, own_excerpt};
pub use filters::apply_liquid;
pub use found::Found;
pub use locals::{Bound, ForLoop, Locals, RowLoop};
pub use loop_values::{column_of, count_value, ends_row, row_of};
pub use mode::Mode;
pub use operands::operand;
pub use place::Place;
pub use site_members::{holds_item, items_in};
pub use stop::Stop;
pub use strict_options::unknown_filter;
