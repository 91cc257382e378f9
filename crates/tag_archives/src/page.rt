// The pages of names.
ghost use Rattle.std.specs.Prelude.{◌≡◌, IfOk, MatchResult, None, Ok, OnOk, Some};
ghost use Rattle.std.specs.BTreeMap.{Updates};
ghost use Rattle.std.specs.String.{string_bytes};
ghost use Rattle.site_base.specs.Path.{path_refusal};
ghost use Rattle.site_base.specs.Places.{path_cmp};
ghost use Rattle.tag_archives.specs.Archives.{folder, IsFault, page_path};
ghost use Rattle.tag_archives.specs.Gathering.{AreKnown, IsNoPath, page_of};

use crate::name_key::NameKey;
use crate::{ArchiveError, ArchiveWord};
use permalinks::slugify;
use site_base::{Memory, PathError, SitePath, Text};
use std::alloc::{AllocError, Global};
use std::collections::BTreeMap;

/// A slug, with the path of its page.
#[derive(Drop)]
pub(crate) struct Page {
    pub(crate) slug: Text,
    pub(crate) path: SitePath,
}

/// The page of a name, if its slug is not empty. Of each name it is made once, and kept.
pub(crate) fn page_of(
    alloc: Global,
    word: ArchiveWord,
    known: &mut BTreeMap<NameKey, Option<Page>>,
    name: &NameKey,
) -> Result<Option<Page>, ArchiveError>
    requires { AreKnown word known.old }
    ensures page { MatchResult result
        (λ page. page_of word name.now ≡ Ok page)
        (IsFault (page_of word name.now)) }
    ensures known { OnOk result (AreKnown word known.new) }
{
    if let Some(page) = known.get(name) {
        return Ok(copy(alloc, page)?);
    }
    match new_page(alloc, word, name.as_str()) {
        Ok(page) => Ok(kept(alloc, known, name, page)?),
        Err(error) => Err(error),
    }
}

// Keeps the page of a name that has none yet, and hands it on.
fn kept(
    alloc: Global,
    known: &mut BTreeMap<NameKey, Option<Page>>,
    name: &NameKey,
    page: Option<Page>,
) -> Result<Option<Page>, Memory>
    ensures page { IfOk result (λ same. same ≡ page) }
    ensures known { OnOk result (Updates path_cmp known.old known.new name.now (Some page)) }
{
    let same = copy(alloc, &page)?;
    match known.insert(name.copy(alloc)?, page) {
        Ok(_) => Ok(same),
        Err(_) => Err(Memory),
    }
}

fn copy(alloc: Global, page: &Option<Page>) -> Result<Option<Page>, Memory>
    ensures { IfOk result (λ same. same ≡ page.now) }
{
    match page {
        Some(page) => Ok(Some(page.copy(alloc)?)),
        None => Ok(None),
    }
}

impl Page {
    // A further holder of both texts.
    fn copy(&self, alloc: Global) -> Result<Page, Memory>
        ensures { IfOk result (λ same. same ≡ self.now) }
    {
        Ok(Page {
            slug: self.slug.share(alloc)?,
            path: self.path.copy(alloc)?,
        })
    }
}

fn new_page(alloc: Global, word: ArchiveWord, name: &str) -> Result<Option<Page>, ArchiveError>
    ensures { MatchResult result
        (λ page. page_of word name.now ≡ Ok page)
        (IsFault (page_of word name.now)) }
{
    let slug = slugify(alloc, name)?.into_shared()?;
    if slug.is_empty() {
        return Ok(None);
    }
    let text = page_text(alloc, word, slug.as_str())?;
    match read_path(alloc, text.as_str()) {
        Ok(path) => Ok(Some(Page { slug, path })),
        Err(error) => Err(error),
    }
}

fn page_text(alloc: Global, word: ArchiveWord, slug: &str) -> Result<String, AllocError>
    ensures { IfOk result (λ text. string_bytes text ≡ page_path word slug.now) }
{
    let mut text = String::from_str(alloc, folder(word))?;
    text.push_str(slug)?;
    text.push_str("/index.html")?;
    Ok(text)
}

fn folder(word: ArchiveWord) -> &'static str
    ensures { result.now ≡ folder word }
{
    match word {
        ArchiveWord::Tag => "tag/",
        ArchiveWord::Category => "category/",
    }
}

fn read_path(alloc: Global, text: &str) -> Result<SitePath, ArchiveError>
    ensures { MatchResult result
        (λ path. (path ≡ text.now) × (path_refusal text.now ≡ None))
        (IsNoPath text.now) }
{
    match SitePath::read(alloc, text) {
        Ok(path) => Ok(path),
        Err(PathError::Memory) => Err(ArchiveError::Memory),
        Err(_) => Err(ArchiveError::BadPath),
    }
}
