// The key of a line of a mapping, and why a line has none.
ghost use Rattle.std.specs.Prelude.{◌≡◌, ◌≤◌, length, IfOk, IfSome};
ghost use Rattle.front_yaml.specs.TextLines.{inside};
ghost use Rattle.front_yaml.specs.LineKeys.{line_key, no_key, no_quoted_key, no_key_fault};
ghost use Rattle.front_yaml.specs.Given.{ReadsLines, as_line_pair};

use crate::extents::{is_closed, opens};
use crate::faults::{PlaceError, YamlError, YamlFault};
use crate::keys::key;
use crate::line_leaves::joined;
use crate::line_runs::{first_lines, taken};
use crate::plain_scalars::starts_plain;
use crate::quote_ends::{is_quote, quote_len};
use crate::text_lines::TextLine;
use site_base::{Memory, Text, YamlKind};
use std::alloc::Global;

/// The key of a line, and its bytes with the `:`.
pub(crate) fn line_key(alloc: Global, line: &TextLine) -> Result<Option<(Text, usize)>, YamlError>
    ensures value { ReadsLines result (line_key line.now) }
    ensures within { IfOk result (λ k. IfSome k (λ x. x.1 ≤ length (inside line.now))) }
{
    match key(alloc, line.inside()) {
        Ok(found) => Ok(found),
        Err(PlaceError::Fault(fault)) => Err(YamlError::at(line.number(), fault.kind)),
        Err(PlaceError::Memory) => Err(YamlError::Memory),
    }
}

// Why a text at the front of a line has no key; `all` is the text with the lines that may belong to it.
fn no_key(text: &[u8], all: &[u8]) -> YamlKind
    ensures { result ≡ no_key text.now all.now }
{
    match text {
        [] => YamlKind::NoKey,
        [c, ..] => {
            if is_quote(*c) {
                no_quoted_key(*c, all)
            } else if opens(*c) {
                if is_closed(all) {
                    YamlKind::NoKey
                } else {
                    YamlKind::Flow
                }
            } else if starts_plain(false, text) {
                YamlKind::NoKey
            } else {
                YamlKind::Outside
            }
        }
    }
}

// The same of a text that starts with a quote.
fn no_quoted_key(quote: u8, all: &[u8]) -> YamlKind
    ensures { result ≡ no_quoted_key quote all.now }
{
    match all {
        [] => YamlKind::Quote,
        [_, rest @ ..] => match quote_len(quote, rest) {
            Some(_) => YamlKind::NoKey,
            None => YamlKind::Quote,
        },
    }
}

/// The fault of a line of a mapping that has no key.
pub(crate) fn no_key_fault(
    alloc: Global,
    floor: usize,
    line: &TextLine,
    body: &[TextLine],
) -> Result<YamlFault, Memory>
    ensures { IfOk result (λ f. as_line_pair f ≡ no_key_fault floor line.now body.now) }
{
    let text = line.inside();
    let count = taken(floor, text, body);
    let all = joined(alloc, text, first_lines(body, count))?;
    Ok(YamlFault {
        line: line.number(),
        kind: no_key(text, all.as_slice()),
    })
}
