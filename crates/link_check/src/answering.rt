// Which links are broken.
ghost use Rattle.std.specs.Prelude.{◌≡◌, ◌++◌, Bool, IfOk, List, OnOk, not, ℕ};
ghost use Rattle.link_check.specs.Answered as answered;

use crate::leading::{LinkTarget, target};
use site_base::{Memory, PathError, Sequence, SitePath, Text};
use std::alloc::Global;

/// The paths of an output.
pub trait Paths {
    /// Which paths these are.
    ghost paths: { Self → List ℕ → Bool };

    /// Whether this path is one of them.
    fn has(&self, path: &SitePath) -> bool
        ensures { result ≡ paths self.now path.now };
}

/// A broken link: the file in which it stands, and its value.
#[derive(Drop)]
pub struct Broken {
    pub from: SitePath,
    pub value: Text,
}

/// Broken links, one after another.
pub type BrokenList = Sequence<Broken>;

/// Adds the broken ones of a file's links, in their order, as `is_broken` judges each. The only error is want of memory; the list may then
/// hold the first of them.
pub fn push_broken<P: Paths>(
    alloc: Global,
    list: &mut BrokenList,
    paths: &P,
    from: &SitePath,
    links: &[Text],
    base: &str,
) -> Result<(), Memory>
    ensures { OnOk result (list.new ≡ list.old ++ answered.broken_links (P.paths paths.now) from.now base.now links.now) }
{
    for link in links {
        push_told(alloc, list, paths, from, link.as_str(), base)?;
    }
    Ok(())
}

// Adds a link if it is broken.
fn push_told<P: Paths>(
    alloc: Global,
    list: &mut BrokenList,
    paths: &P,
    from: &SitePath,
    value: &str,
    base: &str,
) -> Result<(), Memory>
    ensures { OnOk result (list.new ≡ list.old ++ answered.told (P.paths paths.now) from.now base.now value.now) }
{
    if !is_broken(alloc, paths, from, value, base)? {
        return Ok(());
    }
    list.push(Broken {
        from: from.copy(alloc)?,
        value: Text::copy(alloc, value)?,
    })
}

/// Whether a link is broken, by its value, the file in which it stands, and the site's base, which is empty, or has `/` in front and
/// none at its end. It is broken where it has no address of a file, and where the paths have neither its path nor that path with `.html`
/// or `/index.html` at the end. A link that leads outside is not broken. The only error is want of memory.
pub fn is_broken<P: Paths>(
    alloc: Global,
    paths: &P,
    from: &SitePath,
    value: &str,
    base: &str,
) -> Result<bool, Memory>
    ensures { IfOk result (λ broken. broken ≡ answered.is_broken (P.paths paths.now) from.now value.now base.now) }
{
    match target(alloc, from, value, base)? {
        LinkTarget::Path(path) => is_missing(alloc, paths, &path),
        LinkTarget::Outside => Ok(false),
        LinkTarget::Bad => Ok(true),
    }
}

pub(crate) fn is_missing<P: Paths>(
    alloc: Global,
    paths: &P,
    path: &SitePath,
) -> Result<bool, Memory>
    ensures { IfOk result (λ missing. missing ≡ not (answered.is_answered (P.paths paths.now) path.now)) }
{
    let answered = is_answered(alloc, paths, path)?;
    Ok(!answered)
}

fn is_answered<P: Paths>(alloc: Global, paths: &P, path: &SitePath) -> Result<bool, Memory>
    ensures { IfOk result (λ answer. answer ≡ answered.is_answered (P.paths paths.now) path.now) }
{
    if paths.has(path) {
        return Ok(true);
    }
    has_page(alloc, paths, path.text())
}

// Whether one of the paths is this one with `.html` or `/index.html` at its end.
fn has_page<P: Paths>(alloc: Global, paths: &P, path: &str) -> Result<bool, Memory>
    ensures { IfOk result (λ has. has ≡ answered.has_page (P.paths paths.now) path.now) }
{
    if has_with(alloc, paths, path, ".html")? {
        return Ok(true);
    }
    has_with(alloc, paths, path, "/index.html")
}

// Whether a text with this end is one of the paths.
fn has_with<P: Paths>(alloc: Global, paths: &P, text: &str, end: &str) -> Result<bool, Memory>
    ensures { IfOk result (λ has. has ≡ answered.is_one (P.paths paths.now) (text.now ++ end.now)) }
{
    let mut whole = String::from_str(alloc, text)?;
    whole.push_str(end)?;
    is_one(alloc, paths, whole.as_str())
}

fn is_one<P: Paths>(alloc: Global, paths: &P, text: &str) -> Result<bool, Memory>
    ensures { IfOk result (λ has. has ≡ answered.is_one (P.paths paths.now) text.now) }
{
    match SitePath::read(alloc, text) {
        Ok(path) => Ok(paths.has(&path)),
        Err(PathError::Memory) => Err(Memory),
        Err(_) => Ok(false),
    }
}
