//! What tables of filters stand on: how arguments are counted, what an input is taken for, what is asked of elements, and the
//! limits of what is made. The filters of lists and dates that need nothing more stand here too.
#![tactic(auto)]

mod arguments;
mod dates;
mod element_properties;
mod elements;
mod keyed;
mod limits;
mod lists;
mod numerals;
mod site_variables;
mod stop;
mod white;
mod writer;

pub use arguments::{no_more, one, one_or_none, one_or_two, two, up_to_two};
pub use dates::{date, dated};
pub use element_properties::properties;
pub use elements::{Elements, range_count};
pub use keyed::{Entry, Source, name_given, paired};
pub use limits::{MOST_TEXT, finished};
pub use lists::{ListFilter, char_count, first_of, is_blank, last_of, list_filter, push_copies};
pub use numerals::{fit, num};
pub use site_variables::site_variable;
pub use stop::{Filtered, Stop};
pub use white::{begins_white, is_white, without_end, without_front};
pub use writer::Writer;
