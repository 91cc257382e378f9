// Layouts, as look-ups give them.
ghost use Rattle.std.specs.Prelude.{◌≡◌, IfOk, codes};
ghost use Rattle.site_base.specs.View.{plain};
ghost use Rattle.liquid_eval.specs.Excerpts.{text_or_empty};
ghost use Rattle.filter_base.specs.Answers.{given};
ghost use Rattle.page_render.specs.Layouts.{layout_at, layout_of, member, or_nil, pairs_of};

use site_base::{Hash, Memory, PathError, SitePath, Text, Value};
use std::alloc::Global;

/// A layout.
#[derive(Drop)]
pub(crate) struct Layout {
    pub path: SitePath,
    pub variables: Hash,
    pub body: Text,
}

impl Layout {
    /// What the look-up of a layout gave; `None` where there is none.
    pub fn of(alloc: Global, found: &Value) -> Result<Option<Layout>, Memory>
        ensures { IfOk result (λ layout. layout ≡ layout_of (plain found.now)) }
    {
        match found {
            Value::Hash(fields) => layout_in(alloc, fields),
            _ => Ok(None),
        }
    }
}

fn layout_in(alloc: Global, fields: &Hash) -> Result<Option<Layout>, Memory>
    ensures { IfOk result (λ layout. layout ≡ layout_at (text_or_empty (member (codes "path") fields.now)) fields.now) }
{
    let path = text_of(alloc, fields.get("path"))?;
    match SitePath::read(alloc, path.as_str()) {
        Ok(path) => Ok(Some(Layout {
            path,
            variables: pairs_of(alloc, fields.get("vars"))?,
            body: text_of(alloc, fields.get("body"))?,
        })),
        Err(PathError::Memory) => Err(Memory),
        Err(_) => Ok(None),
    }
}

// A text with a further holder, or the empty text in place of any other value.
fn text_of(alloc: Global, value: Option<&Value>) -> Result<Text, Memory>
    ensures { IfOk result (λ text. text ≡ text_or_empty (or_nil (given value.entry))) }
{
    match value {
        Some(Value::Text(text)) => text.share(alloc),
        _ => Ok(Text::new(alloc)),
    }
}

// The pairs of a hash with a further holder, or none in place of any other value.
fn pairs_of(alloc: Global, value: Option<&Value>) -> Result<Hash, Memory>
    ensures { IfOk result (λ pairs. pairs ≡ pairs_of (or_nil (given value.entry))) }
{
    match value {
        Some(Value::Hash(pairs)) => pairs.share(alloc),
        _ => Ok(Hash::new(alloc)),
    }
}
