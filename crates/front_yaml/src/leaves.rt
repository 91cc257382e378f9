// A value that is no block: one scalar, or one flow value, and nothing after it.
ghost use Rattle.std.specs.Prelude.{◌≡◌, ◌≤◌, length};
ghost use Rattle.front_yaml.specs.Leaves.{scalar_leaf, leaf_value, nothing_after, leaf};
ghost use Rattle.front_yaml.specs.Given.{ReadsAt, ReadsValue, ReadsLeaf, FaultFits, LeafFits};

use crate::extents::begins_value;
use crate::faults::PlaceError;
use crate::flow_values::flow;
use crate::folding::line_ends;
use crate::gaps::skip;
use crate::plain_scalars::{plain, starts_plain};
use crate::quote_ends::is_quote;
use crate::quotes::quoted;
use crate::scans::{front, is_empty, tail};
use site_base::{Value, YamlKind};
use std::alloc::Global;

// The scalar at the front, its bytes, and what text after it would be.
fn scalar_leaf(alloc: Global, text: &[u8]) -> Result<(Value, usize, YamlKind), PlaceError>
    ensures value { ReadsLeaf result (scalar_leaf text.now) }
    ensures within { LeafFits (length text.now) result }
{
    match text {
        [] => Err(PlaceError::at(0, YamlKind::Outside)),
        [c, ..] => {
            if is_quote(*c) {
                match quoted(alloc, text) {
                    Ok((text, len)) => Ok((Value::Text(text), len, YamlKind::Quote)),
                    Err(error) => Err(error),
                }
            } else if starts_plain(false, text) {
                match plain(alloc, false, text) {
                    Ok((value, len)) => Ok((value, len, YamlKind::Indent)),
                    Err(error) => Err(error),
                }
            } else {
                Err(PlaceError::at(0, YamlKind::Outside))
            }
        }
    }
}

// The scalar or flow value at the front, its bytes, and what text after it would be.
fn leaf_value(
    alloc: Global,
    depth: u32,
    text: &[u8],
) -> Result<(Value, usize, YamlKind), PlaceError>
    ensures value { ReadsLeaf result (leaf_value depth text.now) }
    ensures within { LeafFits (length text.now) result }
{
    if !begins_value(text) {
        return scalar_leaf(alloc, text);
    }
    match flow(alloc, depth, text) {
        Ok((value, len)) => Ok((value, len, YamlKind::Flow)),
        Err(error) => Err(error),
    }
}

// Refuses text behind a value, as this kind where it stands on the same line.
fn nothing_after(kind: YamlKind, text: &[u8]) -> Result<(), PlaceError>
    ensures value { ReadsAt result (nothing_after kind text.now) }
    ensures place { FaultFits (length text.now) result }
{
    let len = match skip(false, text) {
        Ok(len) => len,
        Err(error) => return Err(error),
    };
    if is_empty(tail(text, len)) {
        return Ok(());
    }
    if line_ends(front(text, len)) == 0 {
        Err(PlaceError::at(len, kind))
    } else {
        Err(PlaceError::at(len, YamlKind::Indent))
    }
}

/// The value of a text that is one scalar or flow value, in which at most `depth` lists and hashes nest.
pub(crate) fn leaf(alloc: Global, depth: u32, text: &[u8]) -> Result<Value, PlaceError>
    ensures value { ReadsValue result (leaf depth text.now) }
    ensures place { FaultFits (length text.now) result }
{
    let (value, len, kind) = match leaf_value(alloc, depth, text) {
        Ok(found) => found,
        Err(error) => return Err(error),
    };
    match nothing_after(kind, tail(text, len)) {
        Ok(()) => Ok(value),
        Err(PlaceError::Fault(fault)) => Err(fault.further(len)),
        Err(PlaceError::Memory) => Err(PlaceError::Memory),
    }
}
