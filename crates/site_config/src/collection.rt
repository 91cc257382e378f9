// A collection of documents.
ghost use Rattle.std.specs.Prelude.{◌≡◌, IfOk};
ghost use Rattle.site_config.specs.Forms.{given};
ghost use Rattle.site_config.specs.Config.{collection, posts};

use crate::reading::{flag, optional_text};
use crate::settings::setting;
use crate::sorting::Sorting;
use site_base::{Memory, Text, Value};
use std::alloc::Global;

/// A collection of documents.
#[derive(Drop)]
pub struct Collection {
    pub name: Text,
    /// Whether its documents are written.
    pub output: bool,
    /// The template of its documents' URLs, where it has one of its own.
    pub permalink: Option<Text>,
    pub sorting: Sorting,
}

impl Collection {
    /// A collection and its settings.
    pub(crate) fn read(
        alloc: Global,
        name: &str,
        value: Option<&Value>,
    ) -> Result<Collection, Memory>
        ensures { IfOk result (λ made. made ≡ collection name.now (given value.entry)) }
    {
        Ok(Collection {
            name: Text::copy(alloc, name)?,
            output: flag(setting("output", value)),
            permalink: optional_text(alloc, setting("permalink", value))?,
            sorting: Sorting::read(alloc, value)?,
        })
    }

    /// The posts, whose documents are written and sorted by date whatever is said of them.
    pub(crate) fn posts(alloc: Global, value: Option<&Value>) -> Result<Collection, Memory>
        ensures { IfOk result (λ made. made ≡ posts (given value.entry)) }
    {
        Ok(Collection {
            name: Text::copy(alloc, "posts")?,
            output: true,
            permalink: optional_text(alloc, setting("permalink", setting("posts", value)))?,
            sorting: Sorting::ByDate,
        })
    }
}
