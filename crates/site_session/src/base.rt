// The base of a site's addresses.
ghost use Rattle.std.specs.Prelude.{◌≡◌, IfOk};
ghost use Rattle.site_session.specs.Bases.{base_of, before_slashes, behind_slash, past_slashes};

use site_base::{Memory, Text};
use std::alloc::Global;

/// The base of a site's addresses, by its `baseurl`: without `/` at both ends, and with one in front where anything is left. The only error
/// is want of memory.
pub(crate) fn base_of(alloc: Global, baseurl: &str) -> Result<Text, Memory>
    ensures { IfOk result (λ base. base ≡ base_of baseurl.now) }
{
    behind_slash(alloc, before_slashes(past_slashes(baseurl)))
}

fn past_slashes(text: &str) -> &str
    ensures { result.now ≡ past_slashes text.now }
{
    let mut rest = text;
    while let Some(behind) = rest.strip_prefix('/') {
        rest = behind;
    }
    rest
}

fn before_slashes(text: &str) -> &str
    ensures { result.now ≡ before_slashes text.now }
{
    let mut rest = text;
    while let Some(before) = rest.strip_suffix('/') {
        rest = before;
    }
    rest
}

fn behind_slash(alloc: Global, text: &str) -> Result<Text, Memory>
    ensures { IfOk result (λ base. base ≡ behind_slash text.now) }
{
    let mut base = Text::new(alloc);
    if !text.is_empty() {
        base.push_str("/")?;
        base.push_str(text)?;
    }
    Ok(base)
}
