// The posts of the site.
ghost use Rattle.std.specs.Prelude.{◌≡◌, ◌<◌, IfOk};
ghost use Rattle.site_base.specs.Path.{IsSitePath};
ghost use Rattle.site_generator.specs.Generator.{next_title, numbered_title, post_bytes, post_path};

use site_base::{Memory, PathError, SitePath};
use std::alloc::Global;

// Numbers in titles lie below this.
pub(crate) const TITLES: u64 = 2_147_483_648;

// The number in the title behind one with this number.
pub(crate) fn next_title(title: u64) -> u64
    requires { title < TITLES }
    ensures { result ≡ next_title title }
{
    (1_103_515_245 * title + 12_345) % TITLES
}

pub(crate) fn post_path(alloc: Global, post: u32) -> Result<SitePath, Memory>
    ensures { IfOk result (λ path. path ≡ post_path post) }
{
    let text = format!(in alloc; "_posts/2020-01-01-p{post}.md")?;
    read_path(alloc, text.as_str())
}

// The path that a text is.
pub(crate) fn read_path(alloc: Global, text: &str) -> Result<SitePath, Memory>
    requires { IsSitePath text.now }
    ensures { IfOk result (λ path. path ≡ text.now) }
{
    match SitePath::read(alloc, text) {
        Ok(path) => Ok(path),
        Err(error) => match error {
            PathError::Memory => Err(Memory),
            _ => unreachable!(),
        },
    }
}

// A post with a number in its title.
pub(crate) fn numbered_post(alloc: Global, title: u64) -> Result<Vec<u8>, Memory>
    ensures { IfOk result (λ bytes. bytes.items ≡ post_bytes (numbered_title title)) }
{
    let title = format!(in alloc; "T{title}")?;
    post(alloc, title.as_str())
}

// A post with a title.
pub(crate) fn post(alloc: Global, title: &str) -> Result<Vec<u8>, Memory>
    ensures { IfOk result (λ bytes. bytes.items ≡ post_bytes title.now) }
{
    let text = format!(in alloc;
        "---\nlayout: base\ntitle: {title}\n---\n*n* {{{{ page.title }}}}\n"
    )?;
    Ok(text.into_bytes())
}
