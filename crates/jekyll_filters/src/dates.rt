// The filters that write dates by a pattern of their own.
ghost use Rattle.std.specs.Prelude.{◌≡◌, map};
ghost use Rattle.site_base.specs.View.{plain};
ghost use Rattle.filter_base.specs.Answers.{Gives};
ghost use Rattle.jekyll_filters.specs.Dates.{pattern_of, date_filter};

use filter_base::{Stop, dated, no_more};
use read_record::Look;
use site_base::Value;
use std::alloc::Global;

/// A filter that writes a date by a pattern of its own.
#[derive(Clone, Copy, Debug, PartialEq, Eq)]
pub enum DateFilter {
    DateToLongString,
    DateToRfc822,
    DateToString,
    DateToXmlschema,
}

/// The date that the input names, in the site's offset; what is no date stays.
pub(crate) fn date_filter<L: Look>(
    alloc: Global,
    filter: DateFilter,
    input: &Value,
    args: &[Value],
    look: &mut L,
) -> Result<Value, Stop>
    ensures same { L.view look.new ≡ L.view look.old }
    ensures gives { Gives (L.view look.old) (L.trace look.old) (date_filter filter (plain input.now) (map plain args.now)) result (L.trace look.new) }
{
    no_more(args)?;
    dated(alloc, filter.pattern(), input, look)
}

impl DateFilter {
    fn pattern(self) -> &'static str
        ensures { result.now ≡ pattern_of self }
    {
        match self {
            DateFilter::DateToLongString => "%d %B %Y",
            DateFilter::DateToRfc822 => "%a, %d %b %Y %H:%M:%S %z",
            DateFilter::DateToString => "%d %b %Y",
            DateFilter::DateToXmlschema => "%Y-%m-%dT%H:%M:%S%:z",
        }
    }
}
