// An item's text, with the layouts that are around it.
ghost use Rattle.std.specs.Prelude.{◌≡◌, IfOk, None, OnOk, Some, if◌then◌else◌};
ghost use Rattle.filter_base.specs.Answers.{given};
ghost use Rattle.site_base.specs.View.{plain};
ghost use Rattle.page_render.specs.Layouts.{bare, ended, is_used, once_around, or_nil, over, unused};

use crate::layout::Layout;
use site_base::{Hash, Memory, Text, TextList, Value, copy};
use std::alloc::Global;

/// A text, and the layouts that are around it so far.
#[derive(Drop)]
pub(crate) struct Around {
    pub text: Text,
    /// The names of the layouts that were used.
    pub used: TextList,
    /// Their variables, in which those of inner layouts win.
    pub variables: Hash,
    /// The name of the layout that comes next.
    pub next: Option<Text>,
}

impl Around {
    /// A text before its first layout, which this value names.
    pub fn bare(alloc: Global, text: Text, layout: &Value) -> Result<Around, Memory>
        ensures { IfOk result (λ around. around ≡ bare text (plain layout.now)) }
    {
        let used = TextList::new(alloc);
        let next = unused(alloc, &used, Some(layout))?;
        Ok(Around {
            text,
            used,
            variables: Hash::new(alloc),
            next,
        })
    }

    /// The same text, with no further layout.
    pub fn ended(self) -> Around
        ensures { result ≡ ended self }
    {
        Around {
            text: self.text,
            used: self.used,
            variables: self.variables,
            next: None,
        }
    }

    /// The variables of the layouts, this one among them.
    pub fn variables_with(&self, alloc: Global, layout: &Layout) -> Result<Hash, Memory>
        ensures { IfOk result (λ variables. variables ≡ over self.now.variables layout.now.variables) }
    {
        let mut variables = layout.variables.share(alloc)?;
        put_over(alloc, &mut variables, &self.variables)?;
        Ok(variables)
    }

    /// What a layout of this name made of the text, with the variables of all layouts so far.
    pub fn once_around(
        self,
        alloc: Global,
        name: &Text,
        layout: &Layout,
        variables: Hash,
        made: Text,
    ) -> Result<Around, Memory>
        requires { variables ≡ over self.variables layout.now.variables }
        ensures { IfOk result (λ around. around ≡ once_around self name.now layout.now made) }
    {
        let mut used = self.used;
        used.push(alloc, name.as_str())?;
        let next = unused(alloc, &used, layout.variables.get("layout"))?;
        Ok(Around {
            text: made,
            used,
            variables,
            next,
        })
    }
}

fn put_over(alloc: Global, under: &mut Hash, pairs: &Hash) -> Result<(), Memory>
    ensures { OnOk result (under.new ≡ over pairs.now under.old) }
{
    for pair in pairs.as_slice() {
        under.set(pair.key.share(alloc)?, copy(alloc, &pair.value)?)?;
    }
    Ok(())
}

// The name of a layout, where it was not used.
fn unused(alloc: Global, used: &TextList, layout: Option<&Value>) -> Result<Option<Text>, Memory>
    ensures { IfOk result (λ name. name ≡ unused used.now (or_nil (given layout.entry))) }
{
    match layout {
        Some(Value::Text(name)) => unused_name(alloc, used, name),
        _ => Ok(None),
    }
}

fn unused_name(alloc: Global, used: &TextList, name: &Text) -> Result<Option<Text>, Memory>
    ensures { IfOk result (λ found. found ≡ (if is_used name.now used.now then None else Some name.now)) }
{
    if is_used(name, used) {
        Ok(None)
    } else {
        Ok(Some(name.share(alloc)?))
    }
}

fn is_used(name: &Text, used: &TextList) -> bool
    ensures { result ≡ is_used name.now used.now }
{
    used.as_slice()
        .iter()
        .any(|other| name.as_bytes() == other.as_bytes())
}
