// The names of posts.
ghost use Rattle.std.specs.Prelude.{◌≡◌, IfSome, option_and_then};
ghost use Rattle.std.specs.Option.{option_map};
ghost use Rattle.site_dates.specs.Moment.{IsMoment, read_moment};
ghost use Rattle.site_dates.specs.Offset.{IsOffset};
ghost use Rattle.site_files.specs.PostNames.{behind_dash, dated_name, dated_parts, has_title, is_post_name, with_moment};

use crate::names::{extension, stem};
use site_dates::read_moment;

/// A name that begins with a date.
#[derive(Clone, Copy)]
pub struct DatedName<'a> {
    /// The date's first second, in seconds from the beginning of 1970.
    pub moment: i64,
    /// What stands behind the date and a `-`.
    pub title: &'a str,
}

/// The parts of a name without its extension that begins with a date `YYYY-MM-DD`, at this offset from UTC in seconds, and
/// `-`; `None` exactly where it does not.
pub fn dated_name(name: &str, offset: i32) -> Option<DatedName<'_>>
    requires { IsOffset offset }
    ensures parts { option_map dated_parts result ≡ dated_name offset name.now }
    ensures range { IfSome result (λ dated. IsMoment dated.moment) }
{
    match name.split_at_checked(10) {
        Some((date, rest)) => dated_rest(date, rest, offset),
        None => None,
    }
}

// The same, of the first ten bytes and the rest.
fn dated_rest<'a>(date: &str, rest: &'a str, offset: i32) -> Option<DatedName<'a>>
    requires { IsOffset offset }
    ensures parts { option_map dated_parts result ≡ option_and_then (with_moment (read_moment date.now offset)) (behind_dash rest.entry.now) }
    ensures range { IfSome result (λ dated. IsMoment dated.moment) }
{
    match rest.strip_prefix('-') {
        Some(title) => dated_title(date, title, offset),
        None => None,
    }
}

// The same, of the title.
fn dated_title<'a>(date: &str, title: &'a str, offset: i32) -> Option<DatedName<'a>>
    requires { IsOffset offset }
    ensures parts { option_map dated_parts result ≡ with_moment (read_moment date.now offset) title.entry.now }
    ensures range { IfSome result (λ dated. IsMoment dated.moment) }
{
    match read_moment(date, offset) {
        Some(moment) => Some(DatedName { moment, title }),
        None => None,
    }
}

/// Whether a file may be a post by its name: `YYYY-MM-DD-title.EXT`, with a date at this offset from UTC in seconds, and
/// with a title and an extension that are not empty.
pub fn is_post_name(name: &str, offset: i32) -> bool
    requires { IsOffset offset }
    ensures { result ≡ is_post_name offset name.now }
{
    has_title(dated_name(stem(name), offset)) && extension(name).len() > 1
}

fn has_title(name: Option<DatedName<'_>>) -> bool
    ensures { result ≡ has_title (option_map dated_parts name.entry) }
{
    match name {
        Some(dated) => !dated.title.is_empty(),
        None => false,
    }
}
