// The lines of a leaf as one text.
ghost use Rattle.std.specs.Prelude.{◌≡◌, ◌++◌, [], IfOk, length, replicate, take};
ghost use Rattle.std.specs.Str.{IsCharBoundary};
ghost use Rattle.markdown_grammar.specs.Columns.{tab_width};
ghost use Rattle.cm_containers.specs.Spots.{IsSpot, text_at};
ghost use Rattle.cm_blocks.specs.LineTexts.{ended, unended};

use cm_containers::Spot;
use site_base::{Memory, Text};
use std::alloc::Global;
use std::marker::Model;

/// Lines with a line end behind each.
#[derive(Drop)]
pub struct LeafLines {
    text: String,
}

impl Model for LeafLines {
    ghost use Rattle.std.specs.Prelude.{List, ℕ};
    ghost use Rattle.std.specs.String.{string_bytes};
    ghost use Rattle.cm_blocks.specs.LineTexts.{EndsLine};

    ghost Value = { List ℕ };

    ghost view = { λ lines. string_bytes lines.text };

    ghost invariant = { λ lines. EndsLine (string_bytes lines.text) };
}

impl LeafLines {
    /// No lines; it takes no memory.
    pub fn new(alloc: Global) -> LeafLines
        ensures { result ≡ [] }
    {
        LeafLines {
            text: String::new(alloc),
        }
    }

    pub fn as_str(&self) -> &str
        ensures { result.now ≡ self.now }
    {
        self.text.as_str()
    }

    /// How many bytes the lines take with their ends.
    pub fn len(&self) -> usize
        ensures { result ≡ length self.now }
    {
        self.text.len()
    }

    /// The lines without the end of the last.
    pub fn inside(&self) -> &str
        ensures { result.now ≡ unended self.now }
    {
        let text = self.text.as_str();
        if text.len() == 0 {
            return text;
        }
        &text[..text.len() - 1]
    }

    /// The lines as a text; many bytes are not copied.
    pub(crate) fn into_text(self) -> Result<Text, Memory>
        ensures { IfOk result (λ text. text ≡ self) }
    {
        let LeafLines { text } = self;
        Text::from_string(text)
    }

    /// The first bytes as a text; many bytes are not copied.
    pub(crate) fn into_front(self, count: usize) -> Result<Text, Memory>
        requires { IsCharBoundary self count }
        ensures { IfOk result (λ text. text ≡ take count self) }
    {
        let LeafLines { mut text } = self;
        text.truncate(count);
        Text::from_string(text)
    }

    /// The lines, and other lines behind them.
    pub(crate) fn joined(self, others: &LeafLines) -> Result<LeafLines, Memory>
        ensures { IfOk result (λ lines. lines ≡ self ++ others.now) }
    {
        let LeafLines { mut text } = self;
        text.push_str(others.text.as_str())?;
        Ok(LeafLines { text })
    }

    /// The lines with one more.
    pub(crate) fn with(self, line: &str) -> Result<LeafLines, Memory>
        ensures { IfOk result (λ lines. lines ≡ self ++ ended line.now) }
    {
        let LeafLines { mut text } = self;
        text.reserve(line.len() + 1)?;
        text.push_str(line)?;
        text.push_str("\n")?;
        Ok(LeafLines { text })
    }

    /// The lines with the rest of one more, from a place on.
    pub(crate) fn with_rest(self, line: &str, spot: Spot) -> Result<LeafLines, Memory>
        requires { IsSpot line.now spot }
        ensures { IfOk result (λ lines. lines ≡ self ++ ended (text_at line.now spot)) }
    {
        let LeafLines { mut text } = self;
        if spot.start < spot.column {
            text.push_str(left_of_tab(spot.column))?;
            text.push_str(&line[spot.at + 1..])?;
        } else {
            text.push_str(&line[spot.at..])?;
        }
        text.push_str("\n")?;
        Ok(LeafLines { text })
    }
}

// The columns of a tab from one on, as spaces.
fn left_of_tab(column: u128) -> &'static str
    ensures { result.now ≡ replicate (tab_width column) 32 }
{
    match column % 4 {
        0 => "    ",
        1 => "   ",
        2 => "  ",
        _ => " ",
    }
}
