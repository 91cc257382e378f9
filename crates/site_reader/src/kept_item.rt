// What files are as items, as it is kept.
ghost use Rattle.std.specs.Prelude.{◌≡◌, IfOk, IfSome, IsTrue};
ghost use Rattle.std.specs.Option.{option_copied};
ghost use Rattle.site_dates.specs.Offset.{IsOffset};
ghost use Rattle.site_reader.specs.Placements.{AreRead, IsMade};

use crate::file_rules::FileRules;
use crate::placing::kind_of;
use site_base::{Memory, SitePath};
use site_files::Place;
use site_items::{FileContent, Kind, LineFault, Timeless};
use std::alloc::Global;

/// What a file is as an item of a kind, at every moment.
#[derive(Drop)]
pub(crate) struct KeptItem {
    pub(crate) kind: Kind,
    pub(crate) made: Result<Timeless, LineFault>,
}

impl KeptItem {
    /// What a file is as an item at a place, if it is one.
    pub(crate) fn at(
        alloc: Global,
        rules: &FileRules,
        place: Place,
        path: &SitePath,
        content: &FileContent,
    ) -> Result<Option<KeptItem>, Memory>
        requires offset { IsOffset rules.now.rules.config.now.timezone }
        requires rules { AreRead rules.now }
        ensures { IfOk result (λ item. IsMade (option_copied rules.entry.now.told.bytes) path.now content.now item) }
    {
        match kind_of(place, content.front()) {
            Some(kind) => Ok(Some(KeptItem {
                kind,
                made: Timeless::known(alloc, &rules.rules, kind, path, content)?,
            })),
            None => Ok(None),
        }
    }

    /// What it is as an item of a kind, where it is of this kind.
    pub(crate) fn made_as(&self, kind: Kind) -> Option<&Result<Timeless, LineFault>>
        ensures kind { IfSome result (λ _. self.now.kind ≡ kind) }
        ensures made { IfSome result (λ made. made.now ≡ self.now.made) }
    {
        if self.is_of(kind) {
            Some(&self.made)
        } else {
            None
        }
    }

    // Whether it is of this kind.
    fn is_of(&self, kind: Kind) -> bool
        ensures { IsTrue result → self.now.kind ≡ kind }
    {
        self.kind == kind
    }

    /// An equal one. What can be shared is not copied.
    pub(crate) fn share(&self, alloc: Global) -> Result<KeptItem, Memory>
        ensures { IfOk result (λ item. item ≡ self.now) }
    {
        Ok(KeptItem {
            kind: self.kind,
            made: match &self.made {
                Ok(made) => Ok(made.share(alloc)?),
                Err(fault) => Err(*fault),
            },
        })
    }
}
