// Which paths of the output stay, though the site lacks them.
ghost use Rattle.std.specs.Prelude.{◌≡◌};
ghost use Rattle.out_tree.specs.Keep.{is_at_or_below, is_kept, without_slash};

use site_base::{Sequence, SitePath, Text};

/// Entries that keep a path which equals one, or begins with one and `/`. One `/` at the end of an entry is not part of it.
pub type KeepList = Sequence<Text>;

/// Whether an entry keeps the path.
pub(crate) fn is_kept(keep: &KeepList, path: &SitePath) -> bool
    ensures { result ≡ is_kept keep.now path.now }
{
    keep.as_slice().iter().any(|entry| is_at_or_below(
        path.text().as_bytes(),
        without_slash(entry.as_bytes()),
    ))
}

// An entry may end with `/` to say that it is a folder.
fn without_slash(entry: &[u8]) -> &[u8]
    ensures { result.now ≡ without_slash entry.now }
{
    if !entry.is_empty() && entry[entry.len() - 1] == b'/' {
        &entry[..entry.len() - 1]
    } else {
        entry
    }
}

fn is_at_or_below(path: &[u8], folder: &[u8]) -> bool
    ensures { result ≡ is_at_or_below path.now folder.now }
{
    path == folder
        || (path.len() > folder.len() && path.starts_with(folder) && path[folder.len()] == b'/')
}
