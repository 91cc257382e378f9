// The paths that a site writes.
ghost use Rattle.std.specs.Prelude.{◌≡◌, IfOk};
ghost use Rattle.std.specs.Map.{keys_of};
ghost use Rattle.site_base.specs.Clash.{first_folder};
ghost use Rattle.site_base.specs.Places.{PathsRise};
ghost use Rattle.site_reader.specs.Outputs.{first_clash};

use crate::site_item::SiteItem;
use crate::winner::Winner;
use crate::winning::winners;
use site_base::{Memory, PathMap, SitePath};
use site_config::Config;
use site_items::StaticFile;
use std::alloc::Global;

/// The first path that is written and is a folder of another.
pub(crate) fn first_clash(
    alloc: Global,
    config: &Config,
    items: &[SiteItem],
    copies: &[StaticFile],
) -> Result<Option<SitePath>, Memory>
    ensures { IfOk result (λ clash. clash ≡ first_clash config.now items.now copies.now) }
{
    clash_among(alloc, winners(alloc, config, items, copies)?)
}

fn clash_among(alloc: Global, won: Vec<(SitePath, Winner)>) -> Result<Option<SitePath>, Memory>
    requires { PathsRise won.items }
    ensures { IfOk result (λ clash. clash ≡ first_folder (keys_of won.items)) }
{
    let paths = PathMap::from_rising(won);
    match paths.find_clash() {
        Some(path) => Ok(Some(path.copy(alloc)?)),
        None => Ok(None),
    }
}
