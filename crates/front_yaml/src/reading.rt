// The value of a text.
ghost use Rattle.std.specs.Prelude.{◌≡◌, ◌≤◌, length};
ghost use Rattle.site_base.specs.View.{plain};
ghost use Rattle.std.specs.List.{prefix_len};
ghost use Rattle.front_yaml.specs.Yaml.{without_start, goes_on, lines_value, yaml, pairs_of, yaml_pairs};
ghost use Rattle.front_yaml.specs.Given.{Gives, ReadsLines};

use crate::blocks::below;
use crate::faults::YamlError;
use crate::front_matter::mark_len;
use crate::line_runs::first_lines;
use crate::scans::tail;
use crate::text_lines::{TextLine, cut_lines};
use site_base::{Hash, Value, YamlKind};
use std::alloc::Global;

/// How deep lists and hashes may nest.
const DEPTH: u32 = 64;

// The lines without a first line `---`.
fn without_start<'l, 'a>(lines: &'l [TextLine<'a>]) -> &'l [TextLine<'a>]
    ensures { result.now ≡ without_start lines.now }
{
    match lines {
        [first, rest @ ..] => { if first.is_start() { rest } else { lines } }
        [] => lines,
    }
}

// How many lines stand before the first that marks an end.
fn going_on(lines: &[TextLine]) -> usize
    ensures value { result ≡ prefix_len goes_on lines.now }
    ensures within { result ≤ length lines.now }
{
    lines.iter().take_while(|line| !line.is_marker()).count()
}

fn lines_value(alloc: Global, lines: &[TextLine]) -> Result<Value, YamlError>
    ensures { Gives result (lines_value lines.now) }
{
    let count = going_on(lines);
    let value = match below(alloc, DEPTH, 0, first_lines(lines, count)) {
        Ok(value) => value,
        Err(error) => return Err(error),
    };
    if count < lines.len() {
        return Err(YamlError::at(lines[count].number(), YamlKind::Outside));
    }
    Ok(value)
}

/// The value of a text in the subset of YAML 1.2 that `docs/PROFILE.md` describes.
///
/// A byte-order mark at the front and a first line `---` are passed over; LF, CR LF and CR end a line. Numbers are `Int`s,
/// and a key that stands twice keeps its place and takes the last value. A text that carries nothing is `Nil`.
///
/// `Fault` comes exactly where the text has no value. It names what is met first in reading, the end of a quote or of a
/// flow value being looked for where it is opened, and the number, from 1, of the line where it is met. `Memory` comes
/// where memory was wanting.
pub fn read_yaml(alloc: Global, text: &str) -> Result<Value, YamlError>
    ensures { Gives result (yaml text.now) }
{
    let bytes = text.as_bytes();
    let lines = cut_lines(alloc, tail(bytes, mark_len(bytes)))?;
    lines_value(alloc, without_start(lines.as_slice()))
}

// The pairs of a value, which has to be a hash or nothing.
fn pairs_of(alloc: Global, value: Value) -> Result<Hash, YamlError>
    ensures { ReadsLines result (pairs_of (plain value)) }
{
    match value {
        Value::Nil => Ok(Hash::new(alloc)),
        Value::Hash(pairs) => Ok(pairs),
        _ => Err(YamlError::at(1, YamlKind::NotMapping)),
    }
}

/// The pairs of a text in the YAML subset that has to be a mapping, as front matter and the configuration.
///
/// A text without a value gives no pairs. The faults are those of `read_yaml`, and `NotMapping` at line 1 where the
/// value is neither a mapping nor nothing.
pub fn read_mapping(alloc: Global, text: &str) -> Result<Hash, YamlError>
    ensures { ReadsLines result (yaml_pairs text.now) }
{
    match read_yaml(alloc, text) {
        Ok(value) => pairs_of(alloc, value),
        Err(error) => Err(error),
    }
}
