// The pages of the archives of a site.
ghost use Rattle.std.specs.Prelude.{◌≡◌, ◌++◌, IfOk, MatchResult, Ok, OnOk, map};
ghost use Rattle.std.specs.List.{list_any};
ghost use Rattle.std.specs.Str.{bytes_eq};
ghost use Rattle.site_base.specs.Plain.{set};
ghost use Rattle.site_base.specs.View.{plain};
ghost use Rattle.site_config.specs.Forms.{given};
ghost use Rattle.site_reader.specs.Found.{IsFirst};
ghost use Rattle.site_reader.specs.Making.{add_pages, archive_body, archive_page, archive_pages, archive_post, archive_posts, archive_url, archive_variables, asks_for, if_post, terms_in, terms_of, with_layout, word_key, word_pages, word_text};

use crate::configuration::config_path;
use crate::making::generated_group;
use crate::site_error::{SiteError, fault_at};
use crate::site_item::SiteItem;
use site_base::{FaultKind, Hash, ItemName, List, Memory, Sequence, Text, Value};
use site_config::Config;
use site_items::{set_page, variable};
use std::alloc::Global;
use tag_archives::{
    Archive, ArchiveError, ArchiveList, ArchivePost, ArchivePosts, ArchiveWord, archives,
};

/// The body of an archive: links to its posts.
const ARCHIVE_BODY: &str =
    "<ul>{% for p in page.posts %}<li><a href=\"{{ p.url | relative_url }}\">{{ p.title | escape }}</a></li>{% endfor %}</ul>\n";

/// A page for each category and each tag of the posts, as far as the configuration asks for them.
///
/// `Fault` comes exactly where the path of a page would be too long, or one word would have more than 100,000 pages:
/// `Config`, at the configuration.
pub(crate) fn archive_pages(
    alloc: Global,
    config: &Config,
    items: &[SiteItem],
) -> Result<Vec<SiteItem>, SiteError>
    ensures { let found = archive_pages config.now items.now in
        MatchResult result (λ made. found ≡ Ok made.items) (IsFirst found) }
{
    match asked_pages(alloc, config, items, ArchiveWord::Category, Vec::new(alloc)) {
        Ok(pages) => asked_pages(alloc, config, items, ArchiveWord::Tag, pages),
        Err(error) => Err(error),
    }
}

// Adds the pages of a word, where the configuration asks for them.
fn asked_pages(
    alloc: Global,
    config: &Config,
    items: &[SiteItem],
    word: ArchiveWord,
    pages: Vec<SiteItem>,
) -> Result<Vec<SiteItem>, SiteError>
    ensures { let found = add_pages config.now items.now word pages.items in
        MatchResult result (λ made. found ≡ Ok made.items) (IsFirst found) }
{
    if asks_for(config, word) {
        return word_pages(alloc, config, items, word, pages);
    }
    Ok(pages)
}

// Whether the configuration asks for the pages of a word.
fn asks_for(config: &Config, word: ArchiveWord) -> bool
    ensures { result ≡ asks_for config.now word }
{
    has_text(config.make_archives.as_slice(), word_key(word))
}

fn has_text(texts: &[Text], sought: &str) -> bool
    ensures { result ≡ list_any (λ t. bytes_eq t sought.now) texts.now }
{
    texts.iter().any(|text| text.as_str() == sought)
}

fn word_key(word: ArchiveWord) -> &'static str
    ensures { result.now ≡ word_key word }
{
    match word {
        ArchiveWord::Tag => "tags",
        ArchiveWord::Category => "categories",
    }
}

fn word_text(word: ArchiveWord) -> &'static str
    ensures { result.now ≡ word_text word }
{
    match word {
        ArchiveWord::Tag => "tag",
        ArchiveWord::Category => "category",
    }
}

fn word_pages(
    alloc: Global,
    config: &Config,
    items: &[SiteItem],
    word: ArchiveWord,
    pages: Vec<SiteItem>,
) -> Result<Vec<SiteItem>, SiteError>
    ensures { let found = word_pages config.now items.now word pages.items in
        MatchResult result (λ made. found ≡ Ok made.items) (IsFirst found) }
{
    let posts = archive_posts(alloc, items, word)?;
    match archives(alloc, &posts, word) {
        Ok(made) => Ok(push_pages(alloc, config, word, made, pages)?),
        Err(ArchiveError::Memory) => Err(SiteError::Memory),
        Err(_) => Err(fault_at(alloc, &config_path(alloc)?, 0, FaultKind::Config)),
    }
}

// The posts, the oldest first, each with its tags or its categories.
fn archive_posts(
    alloc: Global,
    items: &[SiteItem],
    word: ArchiveWord,
) -> Result<ArchivePosts, Memory>
    ensures { IfOk result (λ posts. posts ≡ archive_posts word items.now) }
{
    let mut posts = Vec::new(alloc);
    for item in items {
        push_post(alloc, word, item, &mut posts)?;
    }
    Ok(Sequence::from_vec(posts))
}

fn push_post(
    alloc: Global,
    word: ArchiveWord,
    item: &SiteItem,
    posts: &mut Vec<ArchivePost>,
) -> Result<(), Memory>
    ensures { OnOk result (posts.new.items ≡ posts.old.items ++ if_post word item.now) }
{
    if item.group == 0 {
        posts.push(archive_post(alloc, word, item)?)?;
    }
    Ok(())
}

fn archive_post(alloc: Global, word: ArchiveWord, item: &SiteItem) -> Result<ArchivePost, Memory>
    ensures { IfOk result (λ post. post ≡ archive_post word item.now) }
{
    Ok(ArchivePost {
        name: item.name.copy(alloc)?,
        terms: terms_of(alloc, &item.vars, word_key(word))?,
    })
}

fn terms_of(alloc: Global, vars: &Value, key: &str) -> Result<List, Memory>
    ensures { IfOk result (λ terms. terms ≡ terms_of key.now (plain vars.now)) }
{
    match vars {
        Value::Hash(vars) => terms_in(alloc, variable(vars, key)),
        _ => Ok(List::new(alloc)),
    }
}

// The values of a list, which they share.
fn terms_in(alloc: Global, value: Option<&Value>) -> Result<List, Memory>
    ensures { IfOk result (λ terms. terms ≡ terms_in (given value.entry)) }
{
    match value {
        Some(Value::List(list)) => list.share(alloc),
        _ => Ok(List::new(alloc)),
    }
}

fn push_pages(
    alloc: Global,
    config: &Config,
    word: ArchiveWord,
    made: ArchiveList,
    pages: Vec<SiteItem>,
) -> Result<Vec<SiteItem>, Memory>
    ensures { IfOk result (λ all. all.items ≡ pages.items ++ map (archive_page config.now word) made) }
{
    let body = Text::copy(alloc, ARCHIVE_BODY)?.into_shared()?;
    let mut all = pages;
    for archive in made.into_vec() {
        all.push(archive_page(alloc, config, word, &body, archive)?)?;
    }
    Ok(all)
}

fn archive_page(
    alloc: Global,
    config: &Config,
    word: ArchiveWord,
    body: &Text,
    archive: Archive,
) -> Result<SiteItem, Memory>
    requires { body.now ≡ archive_body }
    ensures { IfOk result (λ page. page ≡ archive_page config.now word archive) }
{
    let url = archive_url(alloc, word, archive.slug.as_str())?;
    let path = archive.path.copy(alloc)?;
    let dest = archive.path.copy(alloc)?;
    let vars = archive_variables(alloc, config, word, archive, &url)?;
    Ok(SiteItem {
        name: ItemName { path, part: 1 },
        group: generated_group(config),
        body: body.share(alloc)?,
        vars: Value::Hash(vars),
        url,
        dest: Some(dest),
        paginator: Value::Nil,
    })
}

fn archive_url(alloc: Global, word: ArchiveWord, slug: &str) -> Result<Text, Memory>
    ensures { IfOk result (λ url. url ≡ archive_url word slug.now) }
{
    let mut url = Text::copy(alloc, "/")?;
    url.push_str(word_text(word))?;
    url.push_str("/")?;
    url.push_str(slug)?;
    url.push_str("/")?;
    url.into_shared()
}

fn archive_variables(
    alloc: Global,
    config: &Config,
    word: ArchiveWord,
    archive: Archive,
    url: &Text,
) -> Result<Hash, Memory>
    ensures { IfOk result (λ vars. vars ≡ archive_variables config.now word archive url.now) }
{
    let Archive {
        title,
        slug,
        path,
        posts,
    } = archive;
    let mut vars = Hash::new(alloc);
    set(alloc, &mut vars, "title", Value::Text(title))?;
    set(
        alloc,
        &mut vars,
        "kind",
        Value::Text(Text::copy(alloc, word_text(word))?),
    )?;
    set(alloc, &mut vars, "slug", Value::Text(slug))?;
    set(alloc, &mut vars, "posts", Value::List(posts.into_shared()?))?;
    set_layout(alloc, &mut vars, &config.archive_layout)?;
    set_page(alloc, &mut vars, &path, url)?;
    vars.into_shared()
}

fn set_layout(alloc: Global, vars: &mut Hash, layout: &Option<Text>) -> Result<(), Memory>
    ensures { OnOk result (vars.new ≡ with_layout layout.now vars.old) }
{
    match layout {
        Some(layout) => set(alloc, vars, "layout", Value::Text(layout.share(alloc)?)),
        None => Ok(()),
    }
}

fn set(alloc: Global, vars: &mut Hash, name: &str, value: Value) -> Result<(), Memory>
    ensures { OnOk result (vars.new ≡ set name.now (plain value) vars.old) }
{
    vars.set(Text::copy(alloc, name)?, value)
}
