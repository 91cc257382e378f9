// What a filter gives.
ghost use Rattle.std.specs.Prelude.{◌≡◌, map};
ghost use Rattle.site_base.specs.View.{plain};
ghost use Rattle.read_record.specs.Queries.{run};
ghost use Rattle.filter_base.specs.Answers.{limited, Gives, Replies, Filters};
ghost use Rattle.jekyll_filters.specs.Table.{filter_named, meaning_of};

use crate::FilterName;
use crate::addresses::address_filter;
use crate::changes::change_filter;
use crate::dates::date_filter;
use crate::groups::group_by;
use crate::json_texts::jsonify;
use crate::lists::list_filter;
use crate::markdown::markdownify;
use crate::words::number_of_words;
use filter_base::{Filtered, Stop, finished};
use markdown_grammar::Convert;
use read_record::Look;
use site_base::Value;
use std::alloc::Global;

/// What the filter of a name makes of an input and arguments, by what it looks up and by what makes HTML of Markdown. `Unknown`
/// comes exactly where the name is not in the table.
pub fn jekyll_filter<L: Look, C: Convert>(
    alloc: Global,
    name: &str,
    input: &Value,
    args: &[Value],
    look: &mut L,
    convert: &C,
) -> Filtered
    ensures same { L.view look.new ≡ L.view look.old }
    ensures gives { Filters (filter_named name.now) (L.view look.old) (L.trace look.old) (plain input.now) (map plain args.now) result (L.trace look.new) }
{
    match FilterName::named(name) {
        Some(filter) => filter.apply(alloc, input, args, look, convert),
        None => Filtered::Unknown,
    }
}

impl FilterName {
    /// What the filter makes of an input and arguments.
    pub fn apply<L: Look, C: Convert>(
        self,
        alloc: Global,
        input: &Value,
        args: &[Value],
        look: &mut L,
        convert: &C,
    ) -> Filtered
        ensures same { L.view look.new ≡ L.view look.old }
        ensures gives { Replies (run (L.view look.old) (L.trace look.old) (limited (meaning_of self (plain input.now) (map plain args.now)))) result (L.trace look.new) }
    {
        finished(self.value(alloc, input, args, look, convert))
    }

    // The same, before its limits are tested.
    fn value<L: Look, C: Convert>(
        self,
        alloc: Global,
        input: &Value,
        args: &[Value],
        look: &mut L,
        convert: &C,
    ) -> Result<Value, Stop>
        ensures same { L.view look.new ≡ L.view look.old }
        ensures gives { Gives (L.view look.old) (L.trace look.old) (meaning_of self (plain input.now) (map plain args.now)) result (L.trace look.new) }
    {
        match self {
            FilterName::Address(filter) => address_filter(alloc, filter, input, args, look),
            FilterName::Change(change) => change_filter(alloc, change, input, args),
            FilterName::Date(filter) => date_filter(alloc, filter, input, args, look),
            FilterName::GroupBy => group_by(alloc, input, args, look),
            FilterName::Jsonify => jsonify(alloc, input, args, look),
            FilterName::List(filter) => list_filter(alloc, filter, input, args),
            FilterName::Markdownify => markdownify(alloc, input, args, convert),
            FilterName::NumberOfWords => number_of_words(alloc, input, args),
        }
    }
}
