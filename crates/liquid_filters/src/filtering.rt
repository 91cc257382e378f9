// What a filter gives.
ghost use Rattle.std.specs.Prelude.{◌≡◌, map};
ghost use Rattle.site_base.specs.View.{plain};
ghost use Rattle.read_record.specs.Queries.{run};
ghost use Rattle.filter_base.specs.Answers.{limited, Makes, Gives, Replies, Filters};
ghost use Rattle.liquid_filters.specs.Table.{filter_named, meaning_of, number_value};

use crate::FilterName;
use crate::numbers::number_filter;
use filter_base::{Filtered, Stop, date, finished, list_filter};
use list_filters::{selection_filter, sort_filter};
use read_record::Look;
use site_base::{FaultKind, Value};
use std::alloc::Global;
use text_filters::{
    change_filter, replacement_filter, span_filter, split_filter, text_filter, url_decode,
    words_filter,
};

/// What the filter of a name makes of an input and arguments, by what it looks up. `Unknown` comes exactly where the name is not
/// in the table.
pub fn filter<L: Look>(
    alloc: Global,
    name: &str,
    input: &Value,
    args: &[Value],
    look: &mut L,
) -> Filtered
    ensures same { L.view look.new ≡ L.view look.old }
    ensures gives { Filters (filter_named name.now) (L.view look.old) (L.trace look.old) (plain input.now) (map plain args.now) result (L.trace look.new) }
{
    match FilterName::named(name) {
        Some(filter) => filter.apply(alloc, input, args, look),
        None => Filtered::Unknown,
    }
}

impl FilterName {
    /// What the filter makes of an input and arguments.
    pub fn apply<L: Look>(
        self,
        alloc: Global,
        input: &Value,
        args: &[Value],
        look: &mut L,
    ) -> Filtered
        ensures same { L.view look.new ≡ L.view look.old }
        ensures gives { Replies (run (L.view look.old) (L.trace look.old) (limited (meaning_of self (plain input.now) (map plain args.now)))) result (L.trace look.new) }
    {
        finished(self.value(alloc, input, args, look))
    }

    // The same, before its limits are tested.
    fn value<L: Look>(
        self,
        alloc: Global,
        input: &Value,
        args: &[Value],
        look: &mut L,
    ) -> Result<Value, Stop>
        ensures same { L.view look.new ≡ L.view look.old }
        ensures gives { Gives (L.view look.old) (L.trace look.old) (meaning_of self (plain input.now) (map plain args.now)) result (L.trace look.new) }
    {
        match self {
            FilterName::Change(change) => change_filter(alloc, change, input, args),
            FilterName::Date => date(alloc, input, args, look),
            FilterName::List(filter) => list_filter(alloc, filter, input, args),
            FilterName::Number(filter) => number(number_filter(filter, input, args)),
            FilterName::Replacement(filter) => replacement_filter(alloc, filter, input, args),
            FilterName::Select(selection) => selection_filter(alloc, selection, input, args, look),
            FilterName::Sort(filter) => sort_filter(alloc, filter, input, args, look),
            FilterName::Span(filter) => span_filter(alloc, filter, input, args),
            FilterName::Split => split_filter(alloc, input, args),
            FilterName::Text(filter) => text_filter(alloc, filter, input, args),
            FilterName::TruncateWords => words_filter(alloc, input, args),
            FilterName::UrlDecode => url_decode(alloc, input, args),
        }
    }
}

fn number(found: Result<i64, FaultKind>) -> Result<Value, Stop>
    ensures { Makes (number_value found) result }
{
    match found {
        Ok(number) => Ok(Value::Int(number)),
        Err(kind) => Err(Stop::Fault(kind)),
    }
}
