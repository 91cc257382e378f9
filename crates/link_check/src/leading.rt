// Where a link leads.
ghost use Rattle.std.specs.Prelude.{◌≡◌, ◌++◌, ◌≤◌, IfOk, Some, length, option_copied};
ghost use Rattle.std.specs.List.{suffix_len};
ghost use Rattle.std.specs.String.{string_bytes};
ghost use Rattle.link_check.specs.Segments.{after_base};
ghost use Rattle.link_check.specs.Targets as targets;

use crate::resolving::{file_of, names_folder, resolved};
use crate::values::{decoded, is_foreign, plain, without_query};
use site_base::{Memory, PathError, SitePath};
use site_text::starts_with_byte;
use std::alloc::{AllocError, Global};

/// Where a link leads.
#[derive(Drop)]
pub enum LinkTarget {
    /// To a file of the site. Whether there is one is not said.
    Path(SitePath),
    /// To another host or scheme, or to what is not below the site's base.
    Outside,
    /// Nowhere: it has a wrong form, leads above the root, or to what is no path.
    Bad,
}

/// Where the value of a link leads that stands in a file, on a site below a base, which is empty, or has `/` in front and none at its end.
///
/// `&amp;` is read as `&`; a query and a fragment are passed over; `%` and two digits are a byte; `.` and `..` are followed; and a folder leads to its `index.html`. After RFC 3986,
/// sections 2.1, 3.1, 4.2 and 5.2.4. The only error is want of memory.
pub fn target(alloc: Global, from: &SitePath, value: &str, base: &str) -> Result<LinkTarget, Memory>
    ensures { IfOk result (λ leads. leads ≡ targets.target from.now value.now base.now) }
{
    let value = value.as_bytes();
    if !value.contains(&b'&') {
        return plain_target(alloc, from, value, base);
    }
    let plain = plain(alloc, value)?;
    plain_target(alloc, from, &plain, base)
}

fn plain_target(
    alloc: Global,
    from: &SitePath,
    value: &[u8],
    base: &str,
) -> Result<LinkTarget, Memory>
    ensures { IfOk result (λ leads. leads ≡ targets.plain_target from.now base.now value.now) }
{
    if is_foreign(value) {
        return Ok(LinkTarget::Outside);
    }
    path_target(alloc, from, without_query(value), base)
}

// Where the path of a value leads, whose escapes are not read yet.
fn path_target(
    alloc: Global,
    from: &SitePath,
    path: &[u8],
    base: &str,
) -> Result<LinkTarget, Memory>
    ensures { IfOk result (λ leads. leads ≡ targets.decoded_target from.now base.now (targets.decoded path.now)) }
{
    if !path.contains(&b'%') {
        return decoded_target(alloc, from, path, base);
    }
    match decoded(alloc, path)? {
        Some(bytes) => decoded_target(alloc, from, &bytes, base),
        None => Ok(LinkTarget::Bad),
    }
}

fn decoded_target(
    alloc: Global,
    from: &SitePath,
    bytes: &[u8],
    base: &str,
) -> Result<LinkTarget, Memory>
    ensures { IfOk result (λ leads. leads ≡ targets.decoded_target from.now base.now (Some bytes.now)) }
{
    match str::from_utf8(bytes) {
        Ok(text) => placed(alloc, from, text, base),
        Err(_) => Ok(LinkTarget::Bad),
    }
}

fn placed(alloc: Global, from: &SitePath, text: &str, base: &str) -> Result<LinkTarget, Memory>
    ensures { IfOk result (λ leads. leads ≡ targets.placed from.now base.now text.now) }
{
    if text.is_empty() {
        return Ok(LinkTarget::Path(from.copy(alloc)?));
    }
    if starts_with_byte(text, b'/') {
        return inside(alloc, below(base, text));
    }
    let path = beside(alloc, from.text(), text)?;
    at_root(alloc, path.as_str())
}

fn inside(alloc: Global, path: Option<&str>) -> Result<LinkTarget, Memory>
    ensures { IfOk result (λ leads. leads ≡ targets.inside (option_copied path.entry)) }
{
    match path {
        Some(path) => at_root(alloc, path),
        None => Ok(LinkTarget::Outside),
    }
}

// A path without the base that it is below.
fn below<'a>(base: &str, path: &'a str) -> Option<&'a str>
    ensures { option_copied result ≡ targets.below base.now path.now }
{
    match path.strip_prefix(base) {
        Some(rest) => after_base(rest),
        None => None,
    }
}

// What stands after the base, if that is nothing, or begins with `/`.
fn after_base<'a>(rest: &'a str) -> Option<&'a str>
    ensures { option_copied result ≡ after_base rest.now }
{
    if rest.is_empty() || starts_with_byte(rest, b'/') {
        return Some(rest);
    }
    None
}

// A path from the folder of a file, as one from the root.
fn beside(alloc: Global, from: &str, path: &str) -> Result<String, AllocError>
    ensures { IfOk result (λ whole. string_bytes whole ≡ targets.folder_of from.now ++ path.now) }
{
    let mut whole = String::from_str(alloc, folder_of(from))?;
    whole.push_str(path)?;
    Ok(whole)
}

// A path up to its last `/`, and with it.
pub(crate) fn folder_of(path: &str) -> &str
    ensures { result.now ≡ targets.folder_of path.now }
{
    &path[..path.len() - name_len(path.as_bytes())]
}

fn name_len(path: &[u8]) -> usize
    ensures value { result ≡ suffix_len targets.is_of_name path.now }
    ensures within { result ≤ length path.now }
{
    path.iter().rev().take_while(|c| is_of_name(**c)).count()
}

fn is_of_name(c: u8) -> bool
    ensures { result ≡ targets.is_of_name c }
{
    c != b'/'
}

// Where a path leads that begins at the root.
fn at_root(alloc: Global, path: &str) -> Result<LinkTarget, Memory>
    ensures { IfOk result (λ leads. leads ≡ targets.at_root path.now) }
{
    match resolved(alloc, path)? {
        Some(left) => {
            let file = file_of(alloc, names_folder(path), left)?;
            path_or_bad(alloc, file.as_str())
        }
        None => Ok(LinkTarget::Bad),
    }
}

fn path_or_bad(alloc: Global, text: &str) -> Result<LinkTarget, Memory>
    ensures { IfOk result (λ leads. leads ≡ targets.path_or_bad text.now) }
{
    match SitePath::read(alloc, text) {
        Ok(path) => Ok(LinkTarget::Path(path)),
        Err(PathError::Memory) => Err(Memory),
        Err(_) => Ok(LinkTarget::Bad),
    }
}
