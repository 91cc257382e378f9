// Values that a configuration gives to the items of one place.
ghost use Rattle.std.specs.Prelude.{◌≡◌, IfOk};
ghost use Rattle.site_base.specs.View.{plain};
ghost use Rattle.site_config.specs.Config.{scope_of};

use crate::reading::{copy_hash, optional_text, text_or};
use crate::settings::setting;
use site_base::{Hash, Memory, Text, Value};
use std::alloc::Global;

/// Values for the items below a path, perhaps of one type alone.
#[derive(Drop)]
pub struct Scope {
    pub path: Text,
    /// `posts`, `drafts`, `pages` or the name of a collection.
    pub kind: Option<Text>,
    pub values: Hash,
}

impl Scope {
    pub(crate) fn read(alloc: Global, value: &Value) -> Result<Scope, Memory>
        ensures { IfOk result (λ made. made ≡ scope_of (plain value.now)) }
    {
        let scope = setting("scope", Some(value));
        Ok(Scope {
            path: text_or(alloc, "", setting("path", scope))?,
            kind: optional_text(alloc, setting("type", scope))?,
            values: copy_hash(alloc, setting("values", Some(value)))?,
        })
    }
}
