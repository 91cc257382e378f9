// Which lines belong to a value, and which start the entries of a block.
ghost use Rattle.std.specs.Prelude.{◌≡◌, ◌≤◌, length, take, drop};
ghost use Rattle.std.specs.List.{prefix_len, position_or_len};
ghost use Rattle.front_yaml.specs.LineRuns.{is_idle, reaches, belongs, taken_by, is_item, is_pair};

use crate::scans::{is_dash, starts};
use crate::text_lines::TextLine;

// Whether a line starts an item of a sequence of this indent, or ends the sequence.
fn is_item(indent: usize, line: &TextLine) -> bool
    ensures { result ≡ is_item indent line.now }
{
    line.carries() && line.indent() <= indent
}

// Whether a line starts a pair of a mapping of this indent, or ends the mapping; a list at the indent of its key does not.
fn is_pair(indent: usize, line: &TextLine) -> bool
    ensures { result ≡ is_pair indent line.now }
{
    line.carries()
        && line.indent() <= indent
        && !(line.indent() == indent && is_dash(line.inside()))
}

// Whether a line may go on a quoted text or a block scalar.
fn reaches(floor: usize, line: &TextLine) -> bool
    ensures { result ≡ reaches floor line.now }
{
    line.is_blank() || floor <= line.indent()
}

// Whether a line may go on any other value.
fn belongs(floor: usize, line: &TextLine) -> bool
    ensures { result ≡ belongs floor line.now }
{
    !line.carries() || floor <= line.indent()
}

/// What stands before a line.
pub(crate) fn first_lines<'l, 'a>(lines: &'l [TextLine<'a>], n: usize) -> &'l [TextLine<'a>]
    requires { n ≤ length lines.now }
    ensures { result.now ≡ take n lines.now }
{
    &lines[..n]
}

/// What stands from a line on.
pub(crate) fn lines_after<'l, 'a>(lines: &'l [TextLine<'a>], n: usize) -> &'l [TextLine<'a>]
    requires { n ≤ length lines.now }
    ensures { result.now ≡ drop n lines.now }
{
    &lines[n..]
}

/// How many lines stand before the next item.
pub(crate) fn before_item(indent: usize, lines: &[TextLine]) -> usize
    ensures value { result ≡ position_or_len (is_item indent) lines.now }
    ensures within { result ≤ length lines.now }
{
    lines
        .iter()
        .take_while(|line| !is_item(indent, *line))
        .count()
}

/// How many lines stand before the next pair.
pub(crate) fn before_pair(indent: usize, lines: &[TextLine]) -> usize
    ensures value { result ≡ position_or_len (is_pair indent) lines.now }
    ensures within { result ≤ length lines.now }
{
    lines
        .iter()
        .take_while(|line| !is_pair(indent, *line))
        .count()
}

/// How many lines at the front carry nothing.
pub(crate) fn idle_lines(lines: &[TextLine]) -> usize
    ensures value { result ≡ prefix_len is_idle lines.now }
    ensures within { result ≤ length lines.now }
{
    lines.iter().take_while(|line| !line.carries()).count()
}

/// How many lines at the front may go on a value.
pub(crate) fn belonging(floor: usize, lines: &[TextLine]) -> usize
    ensures value { result ≡ prefix_len (belongs floor) lines.now }
    ensures within { result ≤ length lines.now }
{
    lines
        .iter()
        .take_while(|line| belongs(floor, *line))
        .count()
}

/// How many lines at the front may go on a quoted text or a block scalar.
pub(crate) fn reaching(floor: usize, lines: &[TextLine]) -> usize
    ensures value { result ≡ prefix_len (reaches floor) lines.now }
    ensures within { result ≤ length lines.now }
{
    lines
        .iter()
        .take_while(|line| reaches(floor, *line))
        .count()
}

/// How many lines may belong to the scalar or flow value that starts so.
pub(crate) fn taken(floor: usize, text: &[u8], lines: &[TextLine]) -> usize
    ensures value { result ≡ prefix_len (taken_by floor text.now) lines.now }
    ensures within { result ≤ length lines.now }
{
    if starts(text, b'\'') || starts(text, b'"') {
        reaching(floor, lines)
    } else {
        belonging(floor, lines)
    }
}
