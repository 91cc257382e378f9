// Values of several lines that are no blocks.
ghost use Rattle.std.specs.Prelude.{◌≡◌, ◌+◌, ◌<◌, ◌≤◌, ◌∷◌, ◌++◌, length, take, IfOk};
ghost use Rattle.front_yaml.specs.TextLines.{stream, line_ends};
ghost use Rattle.front_yaml.specs.LineLeaves.{leaf_lines, scalar_lines};
ghost use Rattle.front_yaml.specs.Given.{Gives};
ghost use Rattle.front_yaml.specs.declared.faults.YamlError.TheVariants.{Fault};

use crate::block_scalars::{append_line, block_scalar};
use crate::faults::{PlaceError, PlaceFault, YamlError};
use crate::folding::line_ends;
use crate::growth::append;
use crate::leaves::leaf;
use crate::line_faults::none_left;
use crate::line_runs::{first_lines, lines_after, reaching, taken};
use crate::scans::front;
use crate::text_lines::TextLine;
use site_base::{Memory, Value};
use std::alloc::Global;

/// A text, and the lines after it, each with a line end.
pub(crate) fn joined(alloc: Global, text: &[u8], lines: &[TextLine]) -> Result<Vec<u8>, Memory>
    ensures { IfOk result (λ bytes. bytes.items ≡ text.now ++ (10 ∷ stream lines.now)) }
{
    let mut out = Vec::new(alloc);
    append(&mut out, text)?;
    out.push(b'\n')?;
    for line in lines {
        append_line(&mut out, 0, line)?;
        out.push(b'\n')?;
    }
    Ok(out)
}

// The fault at a place of a text, told by lines, of which this is the first.
fn by_lines(line: &TextLine, text: &[u8], fault: PlaceFault) -> YamlError
    requires { fault.place ≤ length text.now }
    ensures { result ≡ Fault (record { line = line.now.number + line_ends (take fault.place text.now); kind = fault.kind }) }
{
    YamlError::at(
        line.number() + line_ends(front(text, fault.place)) as u64,
        fault.kind,
    )
}

/// The scalar or flow value that starts with a text at the end of a line, and may go on over lines of an indent.
pub(crate) fn leaf_lines(
    alloc: Global,
    depth: u32,
    floor: usize,
    line: &TextLine,
    text: &[u8],
    body: &[TextLine],
) -> Result<Value, YamlError>
    ensures { Gives result (leaf_lines depth floor line.now text.now body.now) }
{
    let count = taken(floor, text, body);
    let all = joined(alloc, text, first_lines(body, count))?;
    let bytes = all.as_slice();
    match leaf(alloc, depth, bytes) {
        Ok(value) => none_left(floor, lines_after(body, count), value),
        Err(PlaceError::Fault(fault)) => Err(by_lines(line, bytes, fault)),
        Err(PlaceError::Memory) => Err(YamlError::Memory),
    }
}

/// The block scalar of a header at the end of a line, and the lines below it.
pub(crate) fn scalar_lines(
    alloc: Global,
    floor: usize,
    line: &TextLine,
    text: &[u8],
    body: &[TextLine],
) -> Result<Value, YamlError>
    requires { 0 < length text.now }
    ensures { Gives result (scalar_lines floor line.now text.now body.now) }
{
    let count = reaching(floor, body);
    match block_scalar(alloc, line.number(), text, first_lines(body, count)) {
        Ok(text) => none_left(floor, lines_after(body, count), Value::Text(text)),
        Err(error) => Err(error),
    }
}
