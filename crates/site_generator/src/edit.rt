// The edit that is measured: one post gets another title.
ghost use Rattle.std.specs.Prelude.{◌≡◌, ◌≤◌, IfOk, None};
ghost use Rattle.source_tree.specs.Put.{put_refusal};
ghost use Rattle.site_generator.specs.Generator.{edited_bytes, edited_path, made_site};

use crate::post::{post, post_path};
use site_base::{Memory, SitePath};
use std::alloc::Global;

/// The path of the post that the edit replaces, in the site that `make_site` makes of a number and a count of posts:
/// that of the post `number % count`. The error is want of memory alone.
pub fn edited_path(alloc: Global, number: u64, count: u32) -> Result<SitePath, Memory>
    requires { 1 ≤ count }
    ensures path { IfOk result (λ path. path ≡ edited_path number count) }
    // The site takes the edit.
    ensures taken { count ≤ 1000 → put_refusal (made_site number count) (edited_path number count) edited_bytes ≡ None }
{
    post_path(alloc, (number % u64::from(count)) as u32)
}

/// The bytes with which the edit replaces it: a post with the title `U`. The error is want of memory alone.
pub fn edited_post(alloc: Global) -> Result<Vec<u8>, Memory>
    ensures { IfOk result (λ bytes. bytes.items ≡ edited_bytes) }
{
    post(alloc, "U")
}
