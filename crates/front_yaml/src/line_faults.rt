// What is wrong with lines by their place.
ghost use Rattle.std.specs.Prelude.{◌≡◌, option_map, Ok};
ghost use Rattle.site_base.specs.View.{plain};
ghost use Rattle.front_yaml.specs.LineFaults.{indent_fault, left_fault, left_kind, none_left};
ghost use Rattle.front_yaml.specs.Given.{Gives, as_line_pair};

use crate::faults::{YamlError, YamlFault};
use crate::text_lines::TextLine;
use site_base::{Value, YamlKind};

/// What is wrong with the place of an entry in a block of this indent.
pub(crate) fn indent_fault(indent: usize, line: &TextLine) -> Option<YamlFault>
    ensures { option_map as_line_pair result ≡ indent_fault indent line.now }
{
    let kind = if line.has_tab() {
        YamlKind::Tab
    } else if line.indent() < indent {
        YamlKind::Indent
    } else {
        return None;
    };
    Some(YamlFault {
        line: line.number(),
        kind,
    })
}

// What is wrong with a line that carries something where none may.
fn left_kind(floor: usize, line: &TextLine) -> YamlKind
    ensures { result ≡ left_kind floor line.now }
{
    if line.has_tab() {
        YamlKind::Tab
    } else if floor <= line.indent() {
        YamlKind::Indent
    } else {
        YamlKind::NoKey
    }
}

// The fault of lines that no block has: that of the first that carries something.
fn left_fault(floor: usize, lines: &[TextLine]) -> Option<YamlFault>
    ensures { option_map as_line_pair result ≡ left_fault floor lines.now }
{
    for line in lines {
        if line.carries() {
            return Some(YamlFault {
                line: line.number(),
                kind: left_kind(floor, line),
            });
        }
    }
    None
}

/// The value, if no line that carries something is left over.
pub(crate) fn none_left(floor: usize, lines: &[TextLine], value: Value) -> Result<Value, YamlError>
    ensures { Gives result (none_left floor lines.now (Ok (plain value))) }
{
    match left_fault(floor, lines) {
        Some(fault) => Err(YamlError::Fault(fault)),
        None => Ok(value),
    }
}
