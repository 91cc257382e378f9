// The tokens of a text.
ghost use Rattle.std.specs.Prelude.{◌≡◌, IfOk};
ghost use Rattle.markdown_grammar.specs.Blocks.{blocks, blocks_of};
ghost use Rattle.markdown_grammar.specs.Columns.{whole_lines};
ghost use Rattle.markdown_grammar.specs.Lines.{text_lines};
ghost use Rattle.cm_blocks.specs.Tokens as spec;

use crate::kinds::Token;
use crate::lines::{first_line, has_nul, without_nul};
use crate::walk::Walk;
use site_base::Memory;
use std::alloc::Global;

/// The blocks of a Markdown text as tokens, in the order of the text. CommonMark 0.31.2, sections 3 to 5.
pub fn block_tokens(alloc: Global, text: &str) -> Result<Vec<Token>, Memory>
    ensures { IfOk result (λ found. found.items ≡ spec.tokens (blocks_of text.now)) }
{
    if has_nul(text) {
        let text = without_nul(alloc, text)?;
        return line_tokens(alloc, text.as_str());
    }
    line_tokens(alloc, text)
}

// The tokens of a text without U+0000: its lines, one after another.
fn line_tokens(alloc: Global, text: &str) -> Result<Vec<Token>, Memory>
    ensures { IfOk result (λ found. found.items ≡ spec.tokens (blocks (whole_lines (text_lines text.now)))) }
{
    let mut walk = Walk::new(alloc);
    let mut rest = text;
    while !rest.is_empty() {
        let cut = first_line(rest);
        walk.take_line(alloc, &rest[..cut.inside])?;
        rest = &rest[cut.whole..];
    }
    walk.finish()
}
