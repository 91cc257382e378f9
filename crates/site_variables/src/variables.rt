// The variables of a site.
ghost use Rattle.std.specs.Prelude.{◌≡◌, IfOk};
ghost use Rattle.site_variables.specs.Variables.{variables};

use crate::by_place::documents_by_place;
use crate::hashes::set_documents;
use crate::own::set_own;
use crate::settings::set_settings;
use site_base::{Hash, Memory};
use site_reader::Site;
use std::alloc::Global;

/// The variables of a site by their names, each of which can have further holders. A name has the first of these that there is: what
/// the site has of itself (`posts`, the newest first, `pages`, `html_pages`, `documents`, `static_files`, `collections`, `categories`,
/// `tags`); a setting of its configuration, or its default; the documents of a collection; what else the configuration says.
#[tactic(auto, unfolding(crate::specs::Variables::variables))]
pub fn site_variables(alloc: Global, site: &Site) -> Result<Hash, Memory>
    ensures { IfOk result (λ made. made ≡ variables site.now) }
{
    let documents = documents_by_place(alloc, site)?;
    let mut made = site.config.all.share(alloc)?;
    set_documents(alloc, &mut made, site, documents.as_slice())?;
    set_settings(alloc, &mut made, &site.config)?;
    set_own(alloc, &mut made, site, documents.as_slice())?;
    made.into_shared()
}
