// URLs from templates.
ghost use Rattle.std.specs.Prelude.{◌≡◌, ◌++◌, IfOk, ◌∷◌, List, ℕ, Bool, MatchResult, Some};
ghost use Rattle.std.specs.List.{slice_split};
ghost use Rattle.std.specs.String.{string_bytes};
ghost use Rattle.permalinks.specs.Placeholders.{field};
ghost use Rattle.permalinks.specs.Url.{IsRefusal, IsCut, is_colon, is_name, name_len, both, part_text, parts_text, filled, behind_slashes, with_slashes, url, url_by};

use crate::placeholder::Placeholder;
use crate::{UrlParts, Values};
use site_base::{Memory, Text};
use std::alloc::{AllocError, Global};

/// Why there is no URL, or no path for it.
#[derive(Clone, Copy, Debug, PartialEq, Eq)]
pub enum UrlError {
    /// A placeholder has no value.
    Placeholder,
    /// The URL is no path of a site.
    BadPath,
    Memory,
}

impl From<AllocError> for UrlError {
    ghost use Rattle.std.specs.Prelude.{◌≡◌};
    ghost use Rattle.permalinks.specs.declared.template.UrlError.TheVariants as url_error;

    ghost from_gives = { λ _ error. error ≡ url_error.Memory };

    fn from(_: AllocError) -> UrlError {
        UrlError::Memory
    }
}

impl From<Memory> for UrlError {
    ghost use Rattle.std.specs.Prelude.{◌≡◌};
    ghost use Rattle.permalinks.specs.declared.template.UrlError.TheVariants as url_error;

    ghost from_gives = { λ _ error. error ≡ url_error.Memory };

    fn from(_: Memory) -> UrlError {
        UrlError::Memory
    }
}

/// The URL of a template: each placeholder, which is `:` and the longest run of `a` to `z` and `_`, is replaced by its
/// value; then `/` is put in front where it is missing, and runs of `/` become one.
///
/// `Placeholder` comes exactly where a placeholder has no value.
pub fn url(alloc: Global, template: &str, parts: &UrlParts) -> Result<Text, UrlError>
    ensures { MatchResult result
        (λ text. url template.now parts.now ≡ Some text)
        (IsRefusal (url template.now parts.now)) }
{
    url_by(alloc, template, parts)
}

/// The same, of values that are asked for where their placeholder is met.
pub fn url_by<V: Values>(alloc: Global, template: &str, values: &V) -> Result<Text, UrlError>
    ensures { MatchResult result
        (λ text. url_by template.now (V.stands_for values.now) ≡ Some text)
        (IsRefusal (url_by template.now (V.stands_for values.now))) }
{
    let text = filled(alloc, template, values)?;
    Ok(Text::from_string(with_slashes(alloc, text.as_str())?)?)
}

fn filled<V: Values>(alloc: Global, template: &str, values: &V) -> Result<String, UrlError>
    ensures { MatchResult result
        (λ text. filled (V.stands_for values.now) template.now ≡ Some (string_bytes text))
        (IsRefusal (filled (V.stands_for values.now) template.now)) }
{
    let mut text = String::new(alloc);
    push_template(alloc, &mut text, template, values)?;
    Ok(text)
}

fn push_template<V: Values>(
    alloc: Global,
    text: &mut String,
    template: &str,
    values: &V,
) -> Result<(), UrlError>
    ensures { MatchResult result
        (λ _. both (Some (string_bytes text.old)) (filled (V.stands_for values.now) template.now) ≡ Some (string_bytes text.new))
        (IsRefusal (filled (V.stands_for values.now) template.now)) }
{
    match template.split_once(':') {
        None => Ok(text.push_str(template)?),
        Some((start, rest)) => {
            text.push_str(start)?;
            push_parts(alloc, text, rest, values)
        }
    }
}

// Adds what the parts of a template behind its first `:` stand for.
fn push_parts<V: Values>(
    alloc: Global,
    text: &mut String,
    rest: &str,
    values: &V,
) -> Result<(), UrlError>
    ensures { MatchResult result
        (λ _. both (Some (string_bytes text.old)) (parts_text (V.stands_for values.now) (slice_split is_colon rest.now)) ≡ Some (string_bytes text.new))
        (IsRefusal (parts_text (V.stands_for values.now) (slice_split is_colon rest.now))) }
{
    for part in rest.split(':') {
        match push_part(alloc, text, part, values) {
            Ok(()) => (),
            Err(error) => return Err(error),
        }
    }
    Ok(())
}

fn push_part<V: Values>(
    alloc: Global,
    text: &mut String,
    part: &str,
    values: &V,
) -> Result<(), UrlError>
    ensures { MatchResult result
        (λ _. both (Some (string_bytes text.old)) (part_text (V.stands_for values.now) part.now) ≡ Some (string_bytes text.new))
        (IsRefusal (part_text (V.stands_for values.now) part.now)) }
{
    let end = name_len(part.as_bytes());
    match value_of(alloc, &part[..end], values)? {
        Some(value) => {
            text.push_str(value.as_str())?;
            text.push_str(&part[end..])?;
            Ok(())
        }
        None => Err(UrlError::Placeholder),
    }
}

// What the placeholder of a name stands for.
fn value_of<V: Values>(alloc: Global, name: &str, values: &V) -> Result<Option<Text>, Memory>
    ensures { IfOk result (λ text. text ≡ field (V.stands_for values.now) name.now) }
{
    match Placeholder::named(name) {
        Some(placeholder) => values.value(alloc, placeholder),
        None => Ok(None),
    }
}

// The length of the name that a part begins with.
fn name_len(part: &[u8]) -> usize
    ensures is { result ≡ name_len part.now }
    ensures cut { IsCut part.now result }
{
    let mut end = 0;
    while end < part.len() {
        if !is_name(part[end]) {
            return end;
        }
        end += 1;
    }
    end
}

fn is_name(byte: u8) -> bool
    ensures { result ≡ is_name byte }
{
    byte.is_ascii_lowercase() || byte == b'_'
}

// The text with `/` in front, and one `/` for each run of them.
fn with_slashes(alloc: Global, text: &str) -> Result<String, AllocError>
    ensures { IfOk result (λ url. string_bytes url ≡ with_slashes text.now) }
{
    let mut url = String::new(alloc);
    let mut ends = false;
    for segment in text.split('/') {
        ends = push_segment(&mut url, segment)?;
    }
    if ends {
        url.push('/')?;
        return Ok(url);
    }
    Ok(url)
}

// Adds a segment behind a `/`, and says whether it is empty and was left out.
fn push_segment(url: &mut String, segment: &str) -> Result<bool, AllocError>
    ensures step { (ends : Bool) (segments : List (List ℕ)) → IfOk result (λ empty.
        string_bytes url.old ++ behind_slashes ends (segment.now ∷ segments)
        ≡ string_bytes url.new ++ behind_slashes empty segments) }
{
    if segment.is_empty() {
        return Ok(true);
    }
    url.push('/')?;
    url.push_str(segment)?;
    Ok(false)
}
