// The variables that an item has by its place in the site.
ghost use Rattle.std.specs.Prelude.{◌≡◌, IfOk, IfSome, OnOk, codes};
ghost use Rattle.site_base.specs.Plain.{set, text};
ghost use Rattle.site_base.specs.View.{plain};
ghost use Rattle.site_dates.specs.Moment.{IsMoment};
ghost use Rattle.site_dates.specs.Offset.{IsOffset};
ghost use Rattle.site_items.specs.Items.{addressed, document_variables, folder_of, has_end, id_of, page_variables, placed, without_end};
ghost use Rattle.site_items.specs.Seeking.{all_variables};

use crate::addresses::Sought;
use crate::dates::date_value;
use crate::names::{categories, names_value, slug_of, tags};
use site_base::{Hash, Memory, SitePath, Text, Value};
use site_files::{extension, file_name};
use std::alloc::Global;

/// How many variables of a document name its neighbours, the next and the previous.
const NEIGHBOURS: usize = 2;

/// Sets the variables that stand over the item's own.
pub(crate) fn set_variables(
    alloc: Global,
    sought: &Sought,
    url: &Text,
    mut vars: Hash,
) -> Result<Hash, Memory>
    requires offset { IsOffset sought.now.config.now.timezone }
    requires moment { IfSome sought.now.moment IsMoment }
    ensures { IfOk result (λ made. made ≡ all_variables sought.now url.now vars) }
{
    set_placed(alloc, &mut vars, sought.path, url)?;
    if sought.kind.is_page() {
        set_page_variables(alloc, &mut vars, sought.path.text(), url.as_str())?;
        vars.fit(0)?;
        return Ok(vars);
    }
    set_document_variables(alloc, &mut vars, sought, url.as_str())?;
    vars.fit(NEIGHBOURS)?;
    Ok(vars)
}

/// Sets the variables that a page at a path has by its place in the site, over its own.
pub fn set_page(alloc: Global, vars: &mut Hash, path: &SitePath, url: &Text) -> Result<(), Memory>
    ensures { OnOk result (vars.new ≡ page_variables path.now url.now (placed path.now url.now vars.old)) }
{
    set_placed(alloc, vars, path, url)?;
    set_page_variables(alloc, vars, path.text(), url.as_str())
}

fn set_placed(alloc: Global, vars: &mut Hash, path: &SitePath, url: &Text) -> Result<(), Memory>
    ensures { OnOk result (vars.new ≡ placed path.now url.now vars.old) }
{
    set(alloc, vars, "path", Value::Text(path.to_text(alloc)?))?;
    set(
        alloc,
        vars,
        "relative_path",
        Value::Text(path.to_text(alloc)?),
    )?;
    set(alloc, vars, "url", Value::Text(url.share(alloc)?))?;
    set_text(alloc, vars, "ext", extension(file_name(path.text())))
}

fn set_page_variables(alloc: Global, vars: &mut Hash, path: &str, url: &str) -> Result<(), Memory>
    ensures { OnOk result (vars.new ≡ page_variables path.now url.now vars.old) }
{
    set_text(alloc, vars, "name", file_name(path))?;
    set_text(alloc, vars, "dir", folder_of(url))
}

/// Sets the variables that tell the address of a page, over those that tell another.
pub fn set_address(alloc: Global, vars: &mut Hash, url: &Text) -> Result<(), Memory>
    ensures { OnOk result (vars.new ≡ addressed url.now vars.old) }
{
    set(alloc, vars, "url", Value::Text(url.share(alloc)?))?;
    set_text(alloc, vars, "dir", folder_of(url.as_str()))
}

fn set_document_variables(
    alloc: Global,
    vars: &mut Hash,
    sought: &Sought,
    url: &str,
) -> Result<(), Memory>
    requires offset { IsOffset sought.now.config.now.timezone }
    requires moment { IfSome sought.now.moment IsMoment }
    ensures { OnOk result (vars.new ≡ document_variables sought.now.config.now sought.now.kind sought.now.path.now url.now sought.now.moment vars.old) }
{
    let categories = categories(alloc, sought.kind, sought.path.text(), vars)?;
    let tags = tags(alloc, vars)?;
    let slug = slug_of(alloc, vars)?;
    set_text(
        alloc,
        vars,
        "collection",
        sought.kind.collection_name(sought.config),
    )?;
    if sought.kind.is_draft() {
        set(alloc, vars, "draft", Value::Bool(true))?;
    }
    let date = date_value(alloc, sought.config.timezone, sought.moment)?;
    set(alloc, vars, "date", date)?;
    if sought.kind.is_post() {
        let value = names_value(alloc, &categories)?;
        set(alloc, vars, "categories", value)?;
    }
    let value = names_value(alloc, &tags)?;
    set(alloc, vars, "tags", value)?;
    set_id(alloc, vars, url, slug.as_str())
}

// The folder of the URL, and the slug.
fn set_id(alloc: Global, vars: &mut Hash, url: &str, slug: &str) -> Result<(), Memory>
    ensures { OnOk result (vars.new ≡ set (codes "id") (text (id_of url.now slug.now)) vars.old) }
{
    let mut id = Text::copy(alloc, folder_of(without_end(url)))?;
    id.push_str(slug)?;
    set(alloc, vars, "id", Value::Text(id))
}

// A URL up to its last `/`, with it.
fn folder_of(url: &str) -> &str
    ensures { result.now ≡ folder_of url.now }
{
    &url[..url.len() - file_name(url).len()]
}

// A URL without one `/` at its end, unless that is all.
fn without_end(url: &str) -> &str
    ensures { result.now ≡ without_end url.now }
{
    if has_end(url) {
        &url[..url.len() - 1]
    } else {
        url
    }
}

fn has_end(url: &str) -> bool
    ensures { result ≡ has_end url.now }
{
    if url.len() <= 1 {
        return false;
    }
    url.ends_with("/")
}

fn set_text(alloc: Global, vars: &mut Hash, name: &str, value: &str) -> Result<(), Memory>
    ensures { OnOk result (vars.new ≡ set name.now (text value.now) vars.old) }
{
    set(alloc, vars, name, Value::Text(Text::copy(alloc, value)?))
}

fn set(alloc: Global, vars: &mut Hash, name: &str, value: Value) -> Result<(), Memory>
    ensures { OnOk result (vars.new ≡ set name.now (plain value) vars.old) }
{
    vars.set(Text::copy(alloc, name)?, value)
}
