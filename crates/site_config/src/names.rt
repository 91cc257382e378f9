// Lists of texts.
ghost use Rattle.std.specs.Prelude.{◌≡◌, ◌++◌, IfOk, map};
ghost use Rattle.site_config.specs.Config.{texts_in};

use site_base::{List, Memory, TextList, Value};
use std::alloc::Global;

/// Texts that the program has.
pub(crate) fn names_of(alloc: Global, texts: &[&str]) -> Result<TextList, Memory>
    ensures { IfOk result (λ names. names ≡ map (λ t. t.now) texts.now) }
{
    let mut names = TextList::new(alloc);
    for text in texts {
        names.push(alloc, text)?;
    }
    Ok(names)
}

/// These texts, and then those of a list.
pub(crate) fn with_texts(
    alloc: Global,
    mut names: TextList,
    list: &List,
) -> Result<TextList, Memory>
    ensures { IfOk result (λ all. all ≡ names ++ texts_in list.now) }
{
    for value in list.as_slice() {
        if let Value::Text(text) = value {
            names.push(alloc, text.as_str())?;
        }
    }
    Ok(names)
}
