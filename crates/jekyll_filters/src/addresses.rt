// Addresses in the site.
ghost use Rattle.std.specs.Prelude.{◌≡◌, IfOk, map};
ghost use Rattle.site_base.specs.Values.{value_text};
ghost use Rattle.site_base.specs.View.{plain};
ghost use Rattle.filter_base.specs.Answers.{Gives};
ghost use Rattle.jekyll_filters.specs.Addresses.{begins_colon, has_scheme, address, based, absolute_url, in_site, address_filter};

use filter_base::{Stop, no_more, site_variable};
use permalinks::{front, push_path};
use read_record::Look;
use site_base::{Memory, Text, Value, value_text};
use site_text::{Class, class_run, is_letter};
use std::alloc::Global;

/// A filter that makes an address in the site.
#[derive(Clone, Copy, Debug, PartialEq, Eq)]
pub enum AddressFilter {
    AbsoluteUrl,
    RelativeUrl,
}

/// The text of the input as an address in the site; one that begins with a scheme stays.
pub(crate) fn address_filter<L: Look>(
    alloc: Global,
    filter: AddressFilter,
    input: &Value,
    args: &[Value],
    look: &mut L,
) -> Result<Value, Stop>
    ensures same { L.view look.new ≡ L.view look.old }
    ensures gives { Gives (L.view look.old) (L.trace look.old) (address_filter filter (plain input.now) (map plain args.now)) result (L.trace look.new) }
{
    no_more(args)?;
    let path = value_text(alloc, input)?;
    if has_scheme(path.as_bytes()) {
        Ok(Value::Text(path))
    } else {
        in_site(alloc, filter, path.as_str(), look)
    }
}

fn in_site<L: Look>(
    alloc: Global,
    filter: AddressFilter,
    path: &str,
    look: &mut L,
) -> Result<Value, Stop>
    ensures same { L.view look.new ≡ L.view look.old }
    ensures gives { Gives (L.view look.old) (L.trace look.old) (in_site filter path.now) result (L.trace look.new) }
{
    match filter {
        AddressFilter::AbsoluteUrl => absolute_url(alloc, path, look),
        AddressFilter::RelativeUrl => based(alloc, Text::new(alloc), path, look),
    }
}

fn absolute_url<L: Look>(alloc: Global, path: &str, look: &mut L) -> Result<Value, Stop>
    ensures same { L.view look.new ≡ L.view look.old }
    ensures gives { Gives (L.view look.old) (L.trace look.old) (absolute_url path.now) result (L.trace look.new) }
{
    let url = site_variable(alloc, "url", look)?;
    based(alloc, value_text(alloc, &url)?, path, look)
}

// The site's base and a path behind what stands before them.
fn based<L: Look>(alloc: Global, before: Text, path: &str, look: &mut L) -> Result<Value, Stop>
    ensures same { L.view look.new ≡ L.view look.old }
    ensures gives { Gives (L.view look.old) (L.trace look.old) (based before path.now) result (L.trace look.new) }
{
    let base = site_variable(alloc, "baseurl", look)?;
    Ok(Value::Text(address(alloc, before, &base, path)?))
}

fn address(alloc: Global, before: Text, base: &Value, path: &str) -> Result<Text, Memory>
    ensures { IfOk result (λ made. made ≡ address before (value_text (plain base.now)) path.now) }
{
    let base = value_text(alloc, base)?;
    let mut address = front(before, base.as_str())?;
    push_path(&mut address, path)?;
    Ok(address)
}

// Whether it begins with a letter, then letters, digits, `+`, `.` and `-`, and then `:`.
fn has_scheme(text: &[u8]) -> bool
    ensures { result ≡ has_scheme text.now }
{
    match text {
        [first, rest @ ..] => {
            is_letter(*first) && begins_colon(&rest[class_run(Class::Scheme, rest)..])
        }
        [] => false,
    }
}

fn begins_colon(text: &[u8]) -> bool
    ensures { result ≡ begins_colon text.now }
{
    matches!(text, [b':', ..])
}
