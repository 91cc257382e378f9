// How far a line goes into open containers.
ghost use Rattle.std.specs.Prelude.{◌≡◌, ◌≤◌, ◌<◌, ◌-◌, ◌||◌, [], IfSome, IsTrue, if◌then◌else◌, length, map, nat_lt, option_map};
ghost use Rattle.std.specs.Str.{IsCharBoundary};
ghost use Rattle.markdown_grammar.specs.Columns.{own_line};
ghost use Rattle.markdown_grammar.specs.Containers as grammar;
ghost use Rattle.markdown_grammar.specs.Lines as lines;
ghost use Rattle.markdown_grammar.specs.Matching.{matched};
ghost use Rattle.cm_containers.specs.Answers.{as_container, as_matched};
ghost use Rattle.cm_containers.specs.Entries.{entered_at, kept_by, matched_by};
ghost use Rattle.cm_containers.specs.Quoted.{up_to_quote};
ghost use Rattle.cm_containers.specs.Spots.{IsSpot, kept_line, rest_at, text_at};

use crate::kinds::{Container, Matched};
use crate::spots::{Spot, behind, behind_white, shift};

/// How many of the open containers a line goes on with, and the place where its rest begins.
#[derive(Clone, Copy)]
pub struct Entered {
    pub kept: usize,
    pub spot: Spot,
}

/// How many of the open containers, the outermost first, a line without its line end goes on with,
/// each by its own rule: a block quote by up to three columns of white space and `>`, with one space
/// behind it that may be left out; a list item by white space as wide as its indent, or where
/// nothing else stands on the line. The first that fails ends the count, since what stands in it is
/// no longer open. That a line may be lazy, and that an item which begins with a blank line has no
/// second one, is not looked at here. CommonMark 0.31.2, sections 2.2, 5.1 and 5.2.
pub fn match_line(containers: &[Container], line: &str) -> Matched
    ensures value { as_matched line.now result ≡ matched (map as_container containers.now) (own_line 0 line.now) }
    ensures cut { IsCharBoundary line.now result.at }
{
    let Entered { kept, spot } = enter_all(containers, containers.len(), true, line);
    Matched {
        kept: kept as u64,
        at: spot.at,
        column: spot.column,
    }
}

/// How far a line goes into containers, each by its own rule. A blank line goes on with an item only
/// where this has a block: the innermost has one where it is filled, and all others have one. So at the
/// end of a line, where no quote is left, all items are kept without a look at each: else as many blank
/// lines as items would take the square of their number.
pub(crate) fn enter_all(
    containers: &[Container],
    quoted: usize,
    is_filled: bool,
    line: &str,
) -> Entered
    requires { up_to_quote containers.now ≤ quoted }
    ensures value { entered_at line.now result ≡ matched_by is_filled containers.now (own_line 0 line.now) }
    ensures spot { IsSpot line.now result.spot }
    ensures kept { result.kept ≤ length containers.now }
{
    let mut spot = Spot {
        at: 0,
        start: 0,
        column: 0,
    };
    let mut kept = 0;
    while kept < containers.len() {
        if kept >= quoted && is_at_end(line, spot) {
            let kept = items_kept(is_filled, containers.len());
            return Entered { kept, spot };
        }
        let is_filled_here = is_filled_at(is_filled, kept + 1, containers.len());
        match enter(line, spot, containers[kept], is_filled_here) {
            Some(inside) => {
                spot = inside;
                kept += 1;
            }
            None => return Entered { kept, spot },
        }
    }
    Entered { kept, spot }
}

// Whether nothing is left of a line.
fn is_at_end(line: &str, spot: Spot) -> bool
    requires { IsSpot line.now spot }
    ensures { IsTrue result → text_at line.now spot ≡ [] }
{
    spot.at == line.len()
}

// How many items the end of a line goes on with: the innermost only where it is filled.
fn items_kept(is_filled: bool, count: usize) -> usize
    requires { 0 < count }
    ensures { result ≡ if is_filled then count else count - 1 }
{
    if is_filled { count } else { count - 1 }
}

// Whether a container has a block, by how many there are up to it, and whether the innermost has one.
fn is_filled_at(is_filled: bool, place: usize, count: usize) -> bool
    ensures { result ≡ (is_filled || nat_lt place count) }
{
    is_filled || place < count
}

// The place inside a container, where the line goes on with it by the container's own rule.
fn enter(line: &str, spot: Spot, held: Container, is_filled: bool) -> Option<Spot>
    requires { IsSpot line.now spot }
    ensures rest { option_map (rest_at line.now) result ≡ kept_by is_filled (grammar.entry (as_container held) (rest_at line.now spot)) }
    ensures inside { IfSome result (IsSpot line.now) }
{
    match held {
        Container::Quote => enter_quote(line, spot),
        Container::Item { indent, .. } => enter_filled(line, spot, indent, is_filled),
    }
}

// The place inside a block quote, where the rest of a line goes on with it: behind up to three columns
// of white space, `>`, and one space, which may be left out. CommonMark 0.31.2, section 5.1.
fn enter_quote(line: &str, spot: Spot) -> Option<Spot>
    requires { IsSpot line.now spot }
    ensures rest { option_map (rest_at line.now) result ≡ kept_line (grammar.entry grammar.block_quote (rest_at line.now spot)) }
    ensures inside { IfSome result (IsSpot line.now) }
{
    let mark = shift(line, spot, 4);
    let bytes = line.as_bytes();
    if mark.column - spot.column == 4 || mark.at == bytes.len() || bytes[mark.at] != b'>' {
        return None;
    }
    Some(shift(line, behind(mark.at, mark.column), 1))
}

// An item that has no block yet takes no blank line.
fn enter_filled(line: &str, spot: Spot, indent: u128, is_filled: bool) -> Option<Spot>
    requires { IsSpot line.now spot }
    ensures rest { option_map (rest_at line.now) result ≡ kept_by is_filled (grammar.item_entry indent spot.column (text_at line.now spot)) }
    ensures inside { IfSome result (IsSpot line.now) }
{
    if !is_filled && is_blank_from(line, spot) {
        return None;
    }
    enter_item(line, spot, indent)
}

// Whether nothing but white space stands behind a place.
fn is_blank_from(line: &str, spot: Spot) -> bool
    requires { IsSpot line.now spot }
    ensures { result ≡ lines.is_blank (text_at line.now spot) }
{
    let white = behind_white(line, spot);
    white.at == line.len()
}

// The place inside a list item, where the rest of a line goes on with it: behind white space as wide as
// the item's indent, or on a blank line. CommonMark 0.31.2, section 5.2.
fn enter_item(line: &str, spot: Spot, indent: u128) -> Option<Spot>
    requires { IsSpot line.now spot }
    ensures rest { option_map (rest_at line.now) result ≡ kept_line (grammar.item_entry indent spot.column (text_at line.now spot)) }
    ensures inside { IfSome result (IsSpot line.now) }
{
    let inside = shift(line, spot, indent);
    if inside.column - spot.column == indent {
        return Some(inside);
    }
    if inside.at == line.len() {
        return Some(inside);
    }
    None
}
