// The path of an output.
ghost use Rattle.std.specs.Prelude.{◌≡◌, ◌++◌, IfOk, OnOk, MatchResult, None};
ghost use Rattle.std.specs.String.{string_bytes};
ghost use Rattle.site_base.specs.Path.{path_refusal};
ghost use Rattle.permalinks.specs.Dest.{relative, missing_end, dest, IsNoPath};

use crate::UrlError;
use site_base::{PathError, SitePath};
use std::alloc::{AllocError, Global};

/// The path at which the output of a URL stands: the URL without its first `/`, with `index` and the output extension
/// behind a `/` at its end, and elsewhere with the output extension where it does not end with that.
///
/// `BadPath` comes exactly where this is no path of a site.
pub fn dest(alloc: Global, url: &str, output_ext: &str) -> Result<SitePath, UrlError>
    ensures { MatchResult result
        (λ path. (path ≡ dest url.now output_ext.now) × (path_refusal (dest url.now output_ext.now) ≡ None))
        (IsNoPath (dest url.now output_ext.now)) }
{
    let text = dest_text(alloc, url, output_ext)?;
    match SitePath::read(alloc, text.as_str()) {
        Ok(path) => Ok(path),
        Err(PathError::Memory) => Err(UrlError::Memory),
        Err(_) => Err(UrlError::BadPath),
    }
}

fn dest_text(alloc: Global, url: &str, output_ext: &str) -> Result<String, AllocError>
    ensures { IfOk result (λ text. string_bytes text ≡ dest url.now output_ext.now) }
{
    let mut text = String::from_str(alloc, relative(url))?;
    push_end(&mut text, url, output_ext)?;
    Ok(text)
}

// Adds what a URL lacks as the path of a file.
fn push_end(text: &mut String, url: &str, output_ext: &str) -> Result<(), AllocError>
    ensures { OnOk result (string_bytes text.new ≡ string_bytes text.old ++ missing_end url.now output_ext.now) }
{
    if url.ends_with("/") {
        text.push_str("index")?;
        return text.push_str(output_ext);
    }
    if url.ends_with(output_ext) {
        return Ok(());
    }
    text.push_str(output_ext)
}

fn relative(url: &str) -> &str
    ensures { result.now ≡ relative url.now }
{
    match url.strip_prefix('/') {
        Some(rest) => rest,
        None => url,
    }
}
