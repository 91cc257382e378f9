// The page that is the template of a pagination, and the posts that its pages hold.
ghost use Rattle.std.specs.Prelude.{◌≡◌, ◌++◌, ◌≤◌, [], IfOk, OnOk, codes, length};
ghost use Rattle.std.specs.String.{string_bytes};
ghost use Rattle.site_base.specs.View.{plain};
ghost use Rattle.site_config.specs.Config.{flag};
ghost use Rattle.site_config.specs.Forms.{given};
ghost use Rattle.site_files.specs.Choosing.{without_slash};
ghost use Rattle.site_files.specs.Names.{folder};
ghost use Rattle.site_reader.specs.Paginating.{if_listed, is_hidden, is_listed, is_page_at, listed, page_place, posts, template_place};

use crate::rank::document_groups;
use crate::site_item::SiteItem;
use site_base::{ItemName, Memory, Value};
use site_config::Config;
use site_files::folder;
use site_items::{behind, variable};
use std::alloc::{AllocError, Global};

/// The place of the template: of the page `index.html` in the folder of the pages' paths, else of the one at the root.
pub(crate) fn template_place(
    alloc: Global,
    config: &Config,
    items: &[SiteItem],
) -> Result<Option<usize>, Memory>
    ensures { IfOk result (λ place. place ≡ template_place config.now items.now) }
{
    let pages = document_groups(config);
    let text = index_text(alloc, config.paginate_path.as_str())?;
    match page_place(pages, behind("/", text.as_str()), items) {
        Some(place) => Ok(Some(place)),
        None => Ok(page_place(pages, "index.html", items)),
    }
}

// `index.html` in the folder of the pages' paths, perhaps with `/` in front.
fn index_text(alloc: Global, pattern: &str) -> Result<String, AllocError>
    ensures { IfOk result (λ text. string_bytes text ≡ folder (without_slash pattern.now) ++ codes "/index.html") }
{
    let mut text = String::from_str(alloc, folder(without_slash(pattern)))?;
    text.push_str("/index.html")?;
    Ok(text)
}

// A text without one `/` at its end.
fn without_slash(text: &str) -> &str
    ensures { result.now ≡ without_slash text.now }
{
    match text.as_bytes() {
        [.., b'/'] => &text[..text.len() - 1],
        _ => text,
    }
}

fn page_place(pages: u64, path: &str, items: &[SiteItem]) -> Option<usize>
    ensures { result ≡ page_place pages path.now items.now }
{
    items.iter().position(|item| is_page_at(pages, path, item))
}

fn is_page_at(pages: u64, path: &str, item: &SiteItem) -> bool
    ensures { result ≡ is_page_at pages path.now item.now }
{
    item.group == pages && item.name.path.text() == path
}

/// The posts that pages show, newest first.
pub(crate) fn posts(alloc: Global, items: &[SiteItem]) -> Result<Vec<ItemName>, Memory>
    ensures posts { IfOk result (λ names. names.items ≡ posts items.now) }
    ensures few { IfOk result (λ names. length names.items ≤ length items.now) }
{
    let mut names = listed(alloc, items)?;
    names.reverse();
    Ok(names)
}

fn listed(alloc: Global, items: &[SiteItem]) -> Result<Vec<ItemName>, Memory>
    ensures { IfOk result (λ names. names.items ≡ listed items.now) }
{
    let mut names = Vec::new(alloc);
    for item in items {
        add_listed(alloc, &mut names, item)?;
    }
    Ok(names)
}

fn add_listed(alloc: Global, names: &mut Vec<ItemName>, item: &SiteItem) -> Result<(), Memory>
    ensures { OnOk result (names.new.items ≡ names.old.items ++ if_listed item.now) }
{
    if is_listed(item) {
        names.push(item.name.copy(alloc)?)?;
    }
    Ok(())
}

// Whether an item is a post that is not hidden.
fn is_listed(item: &SiteItem) -> bool
    ensures { result ≡ is_listed item.now }
{
    item.group == 0 && !is_hidden(&item.vars)
}

fn is_hidden(vars: &Value) -> bool
    ensures { result ≡ is_hidden (plain vars.now) }
{
    match vars {
        Value::Hash(vars) => is_set(variable(vars, "hidden")),
        _ => false,
    }
}

fn is_set(value: Option<&Value>) -> bool
    ensures { result ≡ flag (given value.entry) }
{
    match value {
        Some(Value::Bool(is_set)) => *is_set,
        _ => false,
    }
}
