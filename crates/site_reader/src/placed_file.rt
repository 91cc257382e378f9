// Files with their places.
ghost use Rattle.std.specs.Prelude.{◌≡◌, IfSome, List};
ghost use Rattle.site_config.specs.declared.config.Config.{Config};
ghost use Rattle.site_config.specs.declared.scope.Scope.{Scope};
ghost use Rattle.site_items.specs.Items.{timeless};
ghost use Rattle.site_items.specs.Matter.{outcome_of};
ghost use Rattle.site_reader.specs.Placements.{IsKnown};

use crate::kept_item::KeptItem;
use site_base::SitePath;
use site_files::Place;
use site_items::{FileContent, Kind, LineFault, Timeless};

/// A file of the site, with its place and that of its front matter.
#[derive(Drop)]
pub(crate) struct PlacedFile<'a> {
    pub(crate) place: Place,
    pub(crate) path: &'a SitePath,
    pub(crate) content: FileContent<'a>,
    /// What the file is as an item, where that is kept.
    pub(crate) kept: Option<&'a KeptItem>,
}

impl<'a> PlacedFile<'a> {
    /// What the file is as an item of a kind, where that is kept.
    pub(crate) fn known_as(&self, kind: Kind) -> Option<&'a Result<Timeless, LineFault>>
        ensures { (config : Config) (scopes : List Scope) → IsKnown config scopes self.now →
            IfSome result (λ made. timeless config scopes kind self.now.path.now self.now.content ≡ outcome_of made.now) }
    {
        match self.kept {
            Some(item) => item.made_as(kind),
            None => None,
        }
    }
}
