// What a site itself gives, whatever its configuration says.
ghost use Rattle.std.specs.Prelude.{◌≡◌, IfOk, OnOk, filter, length};
ghost use Rattle.site_base.specs.Plain.{list, set};
ghost use Rattle.site_items.specs.Defaults.{set_all};
ghost use Rattle.site_variables.specs.Choosing.{ArePlaced, takes};
ghost use Rattle.site_variables.specs.Lists.{names, newest_posts};
ghost use Rattle.site_variables.specs.Variables.{hash_variables, item_variables, label_variables, own_variables};

use crate::choice::Choice;
use crate::hashes::{collections, static_files};
use crate::labels::by_labels;
use crate::lists::{backwards, chosen};
use crate::settings::set;
use site_base::{Hash, List, Memory, Value};
use site_reader::Site;
use std::alloc::Global;

/// Sets the site's own variables, where these are the documents of each collection.
pub(crate) fn set_own(
    alloc: Global,
    made: &mut Hash,
    site: &Site,
    documents: &[List],
) -> Result<(), Memory>
    requires { ArePlaced site.now.items (length site.now.config.collections) documents.now }
    ensures { OnOk result (made.new ≡ set_all (own_variables site.now) made.old) }
{
    set_items(alloc, made, site)?;
    set_hashes(alloc, made, site, documents)?;
    set_labels(alloc, made, site)
}

fn set_items(alloc: Global, made: &mut Hash, site: &Site) -> Result<(), Memory>
    ensures { OnOk result (made.new ≡ set_all (item_variables site.now) made.old) }
{
    let posts = newest_posts(alloc, site)?;
    set(alloc, made, "posts", Value::List(posts))?;
    set_chosen(alloc, made, "pages", Choice::Pages, site)?;
    set_chosen(alloc, made, "html_pages", Choice::HtmlPages, site)?;
    set_chosen(alloc, made, "documents", Choice::Documents, site)
}

fn newest_posts(alloc: Global, site: &Site) -> Result<List, Memory>
    ensures { IfOk result (λ made. list made ≡ newest_posts site.now) }
{
    let posts = chosen(alloc, Choice::Posts, &site.config, site.items.as_slice())?;
    backwards(alloc, posts.as_slice())
}

fn set_chosen(
    alloc: Global,
    made: &mut Hash,
    name: &str,
    choice: Choice,
    site: &Site,
) -> Result<(), Memory>
    ensures { OnOk result (made.new ≡ set name.now (names (filter (takes choice site.now.config) site.now.items)) made.old) }
{
    let items = chosen(alloc, choice, &site.config, site.items.as_slice())?;
    set(alloc, made, name, Value::List(items))
}

fn set_hashes(alloc: Global, made: &mut Hash, site: &Site, documents: &[List]) -> Result<(), Memory>
    requires { ArePlaced site.now.items (length site.now.config.collections) documents.now }
    ensures { OnOk result (made.new ≡ set_all (hash_variables site.now) made.old) }
{
    let files = static_files(alloc, site.statics.as_slice())?;
    set(alloc, made, "static_files", Value::List(files))?;
    let collections = collections(alloc, site, documents)?;
    set(alloc, made, "collections", Value::List(collections))
}

fn set_labels(alloc: Global, made: &mut Hash, site: &Site) -> Result<(), Memory>
    ensures { OnOk result (made.new ≡ set_all (label_variables site.now) made.old) }
{
    let categories = by_labels(alloc, "categories", site.items.as_slice())?;
    set(alloc, made, "categories", Value::Hash(categories))?;
    let tags = by_labels(alloc, "tags", site.items.as_slice())?;
    set(alloc, made, "tags", Value::Hash(tags))
}
