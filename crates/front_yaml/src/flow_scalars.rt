// The scalars and keys inside flow values.
ghost use Rattle.std.specs.Prelude.{◌≡◌, length};
ghost use Rattle.front_yaml.specs.Flow.{start_fault, scalar, key_text, key};
ghost use Rattle.front_yaml.specs.Given.{ReadsAt, ReadsSized, Fits};
ghost use Rattle.front_yaml.specs.declared.faults.PlaceError.TheVariants.{Fault};

use crate::faults::PlaceError;
use crate::folding::folded;
use crate::gaps::skip_from;
use crate::growth::text_of;
use crate::plain_scalars::{is_bracket, plain, plain_fault, plain_raw, starts_plain};
use crate::quote_ends::is_quote;
use crate::quotes::quoted;
use crate::scalars::equals;
use crate::scans::{starts, tail};
use site_base::{Text, Value, YamlKind};
use std::alloc::Global;

// The fault of a byte that starts no value.
fn start_fault(text: &[u8]) -> PlaceError
    ensures { result ≡ Fault (record { place = (start_fault text.now).0; kind = (start_fault text.now).1 }) }
{
    match text {
        [] => PlaceError::at(0, YamlKind::Flow),
        [c, ..] => {
            if is_bracket(*c) || *c == b':' {
                PlaceError::at(0, YamlKind::Flow)
            } else {
                PlaceError::at(0, YamlKind::Outside)
            }
        }
    }
}

/// The scalar at the front, and its bytes.
pub(crate) fn scalar(alloc: Global, text: &[u8]) -> Result<(Value, usize), PlaceError>
    ensures value { ReadsSized result (scalar text.now) }
    ensures within { Fits (length text.now) result }
{
    match text {
        [] => Err(start_fault(text)),
        [c, ..] => {
            if is_quote(*c) {
                match quoted(alloc, text) {
                    Ok((text, len)) => Ok((Value::Text(text), len)),
                    Err(error) => Err(error),
                }
            } else if starts_plain(true, text) {
                plain(alloc, true, text)
            } else {
                Err(start_fault(text))
            }
        }
    }
}

// The key at the front, without its `:`, and its bytes.
fn key_text(alloc: Global, text: &[u8]) -> Result<(Text, usize), PlaceError>
    ensures value { ReadsAt result (key_text text.now) }
    ensures within { Fits (length text.now) result }
{
    if starts(text, b'\'') || starts(text, b'"') {
        return quoted(alloc, text);
    }
    if !starts_plain(true, text) {
        return Err(start_fault(text));
    }
    let raw = plain_raw(true, text);
    if let Some(fault) = plain_fault(true, raw) {
        return Err(PlaceError::Fault(fault));
    }
    if equals(raw, "<<") {
        return Err(PlaceError::at(0, YamlKind::Outside));
    }
    Ok((text_of(folded(alloc, false, raw)?)?, raw.len()))
}

/// The key at the front, and its bytes with the `:`.
pub(crate) fn key(alloc: Global, text: &[u8]) -> Result<(Text, usize), PlaceError>
    ensures value { ReadsAt result (key text.now) }
    ensures within { Fits (length text.now) result }
{
    let (name, len) = match key_text(alloc, text) {
        Ok(found) => found,
        Err(error) => return Err(error),
    };
    let gap = match skip_from(text, len) {
        Ok(gap) => gap,
        Err(error) => return Err(error),
    };
    if starts(tail(text, len + gap), b':') {
        Ok((name, len + gap + 1))
    } else {
        Err(PlaceError::at(len + gap, YamlKind::Flow))
    }
}
