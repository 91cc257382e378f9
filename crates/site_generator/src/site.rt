// The site, file by file.
ghost use Rattle.std.specs.Prelude.{◌≡◌, ◌≤◌, IfOk, OnOk, None};
ghost use Rattle.std.specs.FinMap as map;
ghost use Rattle.site_base.specs.Path.{IsSitePath};
ghost use Rattle.source_tree.specs.Put.{put_refusal};
ghost use Rattle.site_generator.specs.Generator.{made_site};

use crate::post::{TITLES, next_title, numbered_post, post_path, read_path};
use site_base::{Memory, SitePath};
use source_tree::{Held, PutError};
use std::alloc::Global;

/// The site of a number with so many posts: `_layouts/base.html`, `index.html`, which names the posts, and the posts
/// `_posts/2020-01-01-p0.md` and so on, whose titles are `T` and pseudorandom numbers that the number begins. The error
/// is want of memory alone.
pub fn make_site(alloc: Global, number: u64, count: u32) -> Result<Held, Memory>
    requires low { 1 ≤ count }
    requires high { count ≤ 1000 }
    ensures { IfOk result (λ held. held ≡ made_site number count) }
{
    let mut held = without_posts(alloc)?;
    let mut title = number % TITLES;
    for post in 0..count {
        let path = post_path(alloc, post)?;
        put(&mut held, path, numbered_post(alloc, title)?)?;
        title = next_title(title);
    }
    Ok(held)
}

// The layout and the page.
fn without_posts(alloc: Global) -> Result<Held, Memory>
    ensures { IfOk result (λ held. held ≡ made_site 0 0) }
{
    let mut held = Held::new(alloc);
    put_text(
        alloc,
        &mut held,
        "_layouts/base.html",
        "<b>{{ content }}</b>\n",
    )?;
    put_text(
        alloc,
        &mut held,
        "index.html",
        "---\n---\n{% for p in site.posts %}{{ p.title }} {% endfor %}\n",
    )?;
    Ok(held)
}

fn put_text(alloc: Global, held: &mut Held, path: &str, text: &str) -> Result<(), Memory>
    requires path { IsSitePath path.now }
    requires held { put_refusal held.old path.now text.now ≡ None }
    ensures { OnOk result (held.new ≡ map.insert held.old path.now text.now) }
{
    let path = read_path(alloc, path)?;
    put(held, path, Vec::from_slice(alloc, text.as_bytes())?)
}

// Puts a file that is not refused.
fn put(held: &mut Held, path: SitePath, bytes: Vec<u8>) -> Result<(), Memory>
    requires { put_refusal held.old path bytes.items ≡ None }
    ensures { OnOk result (held.new ≡ map.insert held.old path bytes.items) }
{
    match held.put(path, bytes) {
        Ok(()) => Ok(()),
        Err(error) => match error {
            PutError::Memory => Err(Memory),
            _ => unreachable!(),
        },
    }
}
