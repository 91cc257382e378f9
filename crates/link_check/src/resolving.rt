// Segments of a path, and the file that they name.
ghost use Rattle.std.specs.Prelude.{[], ◌≡◌, ◌∷◌, ◌++◌, IfOk, List, OnOk, flat_map, map, option_map, reverse, ℕ};
ghost use Rattle.std.specs.String.{string_bytes};
ghost use Rattle.site_base.specs.Path.{segments};
ghost use Rattle.link_check.specs.Segments.{slash_before, has_index, is_folder, kept, reversed, shown};
ghost use Rattle.link_check.specs.Targets as targets;

use std::alloc::{AllocError, Global};

/// The segments that are left of a path from the root, once `.` and `..` are followed; `None` where `..` leads above the root.
pub(crate) fn resolved<'a>(alloc: Global, path: &'a str) -> Result<Option<Vec<&'a str>>, AllocError>
    ensures { IfOk result (λ left. option_map (λ v. reversed v.items) left ≡ targets.resolved [] (segments path.now)) }
{
    let mut left = Vec::new(alloc);
    for segment in path.split('/') {
        if !keep(&mut left, segment)? {
            return Ok(None);
        }
    }
    Ok(Some(left))
}

// Follows a segment, and says whether it leads anywhere.
fn keep<'a>(left: &mut Vec<&'a str>, segment: &'a str) -> Result<bool, AllocError>
    ensures step { (rest : List (List ℕ)) → IfOk result (λ leads.
        targets.resolved (reversed left.old.items) (segment.now ∷ rest) ≡ kept leads (targets.resolved (reversed left.new.items) rest)) }
{
    if segment.is_empty() || segment == "." {
        return Ok(true);
    }
    if segment == ".." {
        return Ok(left.pop().is_some());
    }
    left.push(segment)?;
    Ok(true)
}

/// Whether a path names a folder by its last segment, which is empty, `.` or `..`.
pub(crate) fn names_folder(path: &str) -> bool
    ensures { result ≡ targets.names_folder (segments path.now) }
{
    let mut answer = true;
    for segment in path.split('/') {
        answer = is_folder(segment);
    }
    answer
}

fn is_folder(segment: &str) -> bool
    ensures { result ≡ is_folder segment.now }
{
    segment.is_empty() || segment == "." || segment == ".."
}

/// The file that segments name, or the `index.html` of a folder; the root is one.
pub(crate) fn file_of<'a>(
    alloc: Global,
    is_folder: bool,
    mut left: Vec<&'a str>,
) -> Result<String, AllocError>
    ensures { IfOk result (λ path. string_bytes path ≡ targets.file_of is_folder (reversed left.entry.items)) }
{
    if has_index(is_folder, &left) {
        left.push("index.html")?;
        return with_slashes(alloc, &left);
    }
    with_slashes(alloc, &left)
}

fn has_index(is_folder: bool, left: &[&str]) -> bool
    ensures { result ≡ has_index is_folder (shown left.now) }
{
    is_folder || left.is_empty()
}

fn with_slashes(alloc: Global, segments: &[&str]) -> Result<String, AllocError>
    ensures { IfOk result (λ path. string_bytes path ≡ targets.with_slashes (shown segments.now)) }
{
    match segments {
        [first, others @ ..] => {
            let mut path = String::from_str(alloc, first)?;
            push_others(&mut path, others)?;
            Ok(path)
        }
        [] => Ok(String::new(alloc)),
    }
}

// Adds segments with `/` before each.
fn push_others(path: &mut String, segments: &[&str]) -> Result<(), AllocError>
    ensures { OnOk result (string_bytes path.new ≡ string_bytes path.old ++ flat_map slash_before (shown segments.now)) }
{
    for segment in segments {
        path.push('/')?;
        path.push_str(segment)?;
    }
    Ok(())
}
