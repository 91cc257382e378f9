// The names of a site's items.
ghost use Rattle.std.specs.Prelude.{◌≡◌, IfOk};

use crate::{Memory, SitePath};
use std::alloc::Global;

/// The name of an item: its source path, and its part, which is 0 for the file itself and n for page n of a
/// paginator.
#[derive(PartialEq, Eq, PartialOrd, Ord, Drop)]
pub struct ItemName {
    pub path: SitePath,
    pub part: u32,
}

const _: () = prove!(size_of::<ItemName>() == 16);

impl ItemName {
    pub fn copy(&self, alloc: Global) -> Result<ItemName, Memory>
        ensures { IfOk result (λ name. name ≡ self.now) }
    {
        Ok(ItemName {
            path: self.path.copy(alloc)?,
            part: self.part,
        })
    }
}
