// Files that are kept, with what they are under a configuration.
ghost use Rattle.std.specs.Prelude.{◌≡◌, IfOk};
ghost use Rattle.std.specs.Str.{bytes_eq};
ghost use Rattle.site_dates.specs.Offset.{IsOffset};
ghost use Rattle.site_files.specs.Places.{place_of};
ghost use Rattle.site_reader.specs.Placements.{AreRead, IsPlacedBy, as_kept};

use crate::file_rules::FileRules;
use crate::kept_item::KeptItem;
use crate::placed_file::PlacedFile;
use site_base::{Memory, SharedBytes, SitePath};
use site_files::Place;
use site_items::KeptFile;
use std::alloc::Global;

/// A file that is kept, with what it is at its path under a configuration: its place, and what it is as an item.
#[derive(Drop)]
pub(crate) struct SiteFile {
    pub(crate) file: KeptFile,
    pub(crate) place: Place,
    pub(crate) item: Option<KeptItem>,
}

impl SiteFile {
    /// A file with what it is at a path, where its place is this.
    pub(crate) fn of(
        alloc: Global,
        rules: &FileRules,
        place: Place,
        path: &SitePath,
        file: KeptFile,
    ) -> Result<SiteFile, Memory>
        requires offset { IsOffset rules.now.rules.config.now.timezone }
        requires rules { AreRead rules.now }
        requires place { place ≡ place_of rules.now.rules.config.now rules.now.told.drafts path.now }
        ensures bytes { IfOk result (λ made. made.file ≡ file) }
        ensures placed { IfOk result (IsPlacedBy rules.entry.now.told path.now) }
    {
        let item = KeptItem::at(alloc, rules, place, path, &file.content())?;
        Ok(SiteFile { file, place, item })
    }

    /// Whether these are its bytes.
    pub(crate) fn has(&self, bytes: &SharedBytes) -> bool
        ensures { result ≡ bytes_eq self.now.file bytes.now }
    {
        self.file.has(bytes)
    }

    /// The file at its path.
    pub(crate) fn placed_at<'a>(&'a self, path: &'a SitePath) -> PlacedFile<'a>
        ensures { as_kept result ≡ (path.now, self.now) }
    {
        PlacedFile {
            place: self.place,
            path,
            content: self.file.content(),
            kept: self.item.as_ref(),
        }
    }

    /// An equal one. What can be shared is not copied.
    pub(crate) fn share(&self, alloc: Global) -> Result<SiteFile, Memory>
        ensures { IfOk result (λ made. made ≡ self.now) }
    {
        Ok(SiteFile {
            file: self.file.share(alloc)?,
            place: self.place,
            item: match &self.item {
                Some(item) => Some(item.share(alloc)?),
                None => None,
            },
        })
    }
}
