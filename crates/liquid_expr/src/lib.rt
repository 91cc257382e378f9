//! The pieces of a template's text, and what stands in them: expressions, conditions and parameters.
#![tactic(auto)]

mod ahead;
mod condition;
mod cutting;
mod expression;
mod front;
mod looping;
mod naming;
mod operand;
mod places;
mod reading;
mod reads;
mod spans;
mod stop;
mod tag;
mod token;
mod tokens;

pub use cutting::{CutError, Cutter, Next, Pieces, cut, cut_up};
pub use naming::{
    TagText, inside, read_include, read_language, read_name_parts, read_path, tag_text, trimmed,
};
pub use reads::{
    read_assign, read_condition, read_cycle, read_expr, read_loop, read_name, read_nothing,
    read_params, read_values,
};
pub use stop::ReadExprError;
