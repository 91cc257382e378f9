// The dates of documents.
ghost use Rattle.std.specs.Prelude.{◌≡◌, IfOk, IfSome, MatchResult};
ghost use Rattle.site_base.specs.View.{plain};
ghost use Rattle.site_config.specs.Forms.{given};
ghost use Rattle.site_dates.specs.Format.{format_moment};
ghost use Rattle.site_dates.specs.Moment.{IsMoment};
ghost use Rattle.site_dates.specs.Offset.{IsOffset};
ghost use Rattle.site_items.specs.Addresses.{date_part};
ghost use Rattle.site_items.specs.Dates.{date_value, given_date, name_date, name_title};
ghost use Rattle.site_items.specs.Items.{document_date, title_part};
ghost use Rattle.site_items.specs.Outcomes.{IsFault};

use crate::item_error::{ItemError, LineFault};
use crate::kind::Kind;
use site_base::{FaultKind, Memory, Text, Value};
use site_dates::{FormatError, format_moment, read_moment};
use site_files::dated_name;
use std::alloc::Global;

/// The moment that a variable `date` names at an offset from UTC in seconds, where there is one.
///
/// `BadDate` comes exactly where it is neither nil nor the text of a date.
pub(crate) fn given_date(offset: i32, value: Option<&Value>) -> Result<Option<i64>, ItemError>
    requires { IsOffset offset }
    ensures value { MatchResult result (λ moment. given_date offset (given value.entry) ≡ Ok moment) (IsFault (given_date offset (given value.entry))) }
    ensures range { IfOk result (λ moment. IfSome moment IsMoment) }
{
    match value {
        None | Some(Value::Nil) => Ok(None),
        Some(Value::Text(text)) => match read_moment(text.as_str(), offset) {
            Some(moment) => Ok(Some(moment)),
            None => Err(bad_date()),
        },
        Some(_) => Err(bad_date()),
    }
}

fn bad_date() -> ItemError
    ensures { result ≡ ItemError.Fault (record { line = 0; kind = FaultKind.BadDate }) }
{
    ItemError::Fault(LineFault {
        line: 0,
        kind: FaultKind::BadDate,
    })
}

/// The moment of an item: none for a page; for a document the one that its variable names, else the one in its file's name
/// without extension.
pub(crate) fn document_date(offset: i32, kind: Kind, name: &str, given: Option<i64>) -> Option<i64>
    requires offset { IsOffset offset }
    requires given { IfSome given IsMoment }
    ensures value { result ≡ document_date offset kind name.now given }
    ensures range { IfSome result IsMoment }
{
    if kind.is_page() {
        return None;
    }
    given.or(name_date(offset, name))
}

fn name_date(offset: i32, name: &str) -> Option<i64>
    requires { IsOffset offset }
    ensures value { result ≡ name_date offset name.now }
    ensures range { IfSome result IsMoment }
{
    match dated_name(name, offset) {
        Some(dated) => Some(dated.moment),
        None => None,
    }
}

/// The title in the name of a file without extension: what stands behind its date; all of it for a draft, and where it
/// has no date.
pub(crate) fn title_part(offset: i32, kind: Kind, name: &str) -> &str
    requires { IsOffset offset }
    ensures { result.now ≡ title_part offset kind name.now }
{
    if kind.is_draft() {
        return name;
    }
    name_title(offset, name)
}

fn name_title(offset: i32, name: &str) -> &str
    requires { IsOffset offset }
    ensures { result.now ≡ name_title offset name.now }
{
    match dated_name(name, offset) {
        Some(dated) => dated.title,
        None => name,
    }
}

/// A moment as the variable `date` has it: `YYYY-MM-DD HH:MM:SS +HHMM` at an offset from UTC in seconds, or nil.
pub(crate) fn date_value(alloc: Global, offset: i32, moment: Option<i64>) -> Result<Value, Memory>
    requires offset { IsOffset offset }
    requires moment { IfSome moment IsMoment }
    ensures { IfOk result (λ value. plain value ≡ date_value offset moment) }
{
    match moment {
        Some(moment) => match written(alloc, offset, moment, "%Y-%m-%d %H:%M:%S %z")? {
            Some(text) => Ok(Value::Text(text)),
            None => Ok(Value::Text(Text::new(alloc))),
        },
        None => Ok(Value::Nil),
    }
}

/// The part of a moment that a pattern names; `None` where there is no moment, or no such pattern.
pub(crate) fn date_part(
    alloc: Global,
    offset: i32,
    moment: Option<i64>,
    pattern: &str,
) -> Result<Option<Text>, Memory>
    requires offset { IsOffset offset }
    requires moment { IfSome moment IsMoment }
    ensures { IfOk result (λ text. text ≡ date_part offset moment pattern.now) }
{
    match moment {
        Some(moment) => written(alloc, offset, moment, pattern),
        None => Ok(None),
    }
}

fn written(alloc: Global, offset: i32, moment: i64, pattern: &str) -> Result<Option<Text>, Memory>
    requires offset { IsOffset offset }
    requires moment { IsMoment moment }
    ensures { IfOk result (λ text. text ≡ format_moment moment offset pattern.now) }
{
    match format_moment(alloc, moment, offset, pattern) {
        Ok(text) => Ok(Some(text)),
        Err(FormatError::BadFormat) => Ok(None),
        Err(FormatError::Memory) => Err(Memory),
    }
}
