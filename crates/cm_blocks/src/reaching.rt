// How far into the open containers a line goes.
ghost use Rattle.std.specs.Prelude.{◌≡◌, ◌&&◌, ◌≤◌, IsTrue, length};
ghost use Rattle.markdown_grammar.specs.Columns.{own_line};
ghost use Rattle.markdown_grammar.specs.LineStarts.{start_of};
ghost use Rattle.markdown_grammar.specs.Places.{beside_paragraph};
ghost use Rattle.cm_containers.specs.Spots.{IsSpot, text_at};
ghost use Rattle.cm_blocks.specs.Flat.{reached};
ghost use Rattle.cm_blocks.specs.Reaching.{is_text, reach_of};

use cm_containers::{Entered, OpenContainers, Spot, behind_white};
use cm_starts::{Place, Start, line_start};

/// How many of the open containers a line goes on with, and where its rest begins, which may be the text
/// of a lazy line.
#[derive(Clone, Copy)]
pub(crate) struct Reach {
    pub kept: usize,
    pub spot: Spot,
    pub is_lazy: bool,
}

/// How far a line goes: into each container by its own rule, and, where a paragraph is open, lazily into
/// all others, if it starts nothing where it stands.
pub(crate) fn go_into(stack: &OpenContainers, is_prose: bool, is_filled: bool, line: &str) -> Reach
    ensures value { reach_of line.now result ≡ reached is_prose is_filled stack.now (own_line 0 line.now) }
    ensures spot { IsSpot line.now result.spot }
    ensures kept { result.kept ≤ length stack.now }
    ensures lazy { IsTrue result.is_lazy → IsTrue is_prose × (result.kept ≡ length stack.now) }
{
    let Entered { kept, spot } = stack.enter(is_filled, line);
    let count = stack.len();
    if goes_on_lazily(kept < count, is_prose, line, spot) {
        return Reach {
            kept: count,
            spot,
            is_lazy: true,
        };
    }
    Reach {
        kept,
        spot,
        is_lazy: false,
    }
}

// Whether the rest of a line goes on lazily with the containers that it has left out, if any.
fn goes_on_lazily(leaves_out: bool, is_prose: bool, line: &str, spot: Spot) -> bool
    requires { IsSpot line.now spot }
    ensures { result ≡ ((leaves_out && is_prose) && is_text (start_of beside_paragraph spot.column (text_at line.now spot))) }
{
    leaves_out && is_prose && goes_on_text(line, spot)
}

// Whether the rest of a line starts nothing, beside an open paragraph.
fn goes_on_text(line: &str, spot: Spot) -> bool
    requires { IsSpot line.now spot }
    ensures { result ≡ is_text (start_of beside_paragraph spot.column (text_at line.now spot)) }
{
    let white = behind_white(line, spot);
    let start = line_start(Place::Beside, white.column - spot.column, &line[white.at..]);
    matches!(start, Start::Text)
}
