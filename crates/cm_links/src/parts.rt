// Parts of a link.
ghost use Rattle.std.specs.Prelude.{◌≡◌, ◌+◌, IfOk, take, drop};
ghost use Rattle.markdown_grammar.specs.References as grammar;
ghost use Rattle.cm_links.specs.Answers.{link_part};
ghost use Rattle.cm_links.specs.Cuts.{Encloses};

use crate::resolving::resolved;
use site_base::{Memory, Text};
use std::alloc::Global;

/// A part of a link: what it stands for, and how many bytes it takes with its marks.
#[derive(Drop)]
pub struct LinkPart {
    pub text: Text,
    pub len: usize,
}

/// What stands between two marks of a byte, n bytes long.
pub(crate) fn enclosed(alloc: Global, text: &str, n: usize) -> Result<LinkPart, Memory>
    requires { Encloses text.now n }
    ensures { IfOk result (λ part. part ≡ link_part (grammar.resolved (take n (drop 1 text.now)), n + 2)) }
{
    let inside = &text[1..];
    let text = resolved(alloc, &inside[..n])?;
    Ok(LinkPart { text, len: n + 2 })
}
