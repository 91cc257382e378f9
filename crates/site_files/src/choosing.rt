// Which files a site takes.
ghost use Rattle.std.specs.Prelude.{◌≡◌, []};
ghost use Rattle.std.specs.List.{list_any};
ghost use Rattle.std.specs.Str.{bytes_eq};
ghost use Rattle.site_base.specs.Clash.{is_below};
ghost use Rattle.site_base.specs.Path.{segments};
ghost use Rattle.site_files.specs.Choosing.{brings_in, covers, is_brought_in, is_hidden, is_taken_out, names_segment, takes_out, without_slash};
ghost use Rattle.site_files.specs.Names.{is_slash};

use site_base::TextList;

/// Whether a segment of a path is hidden: it starts with `_`, `.`, `#` or `~`, or ends with `~`.
pub fn is_hidden(segment: &[u8]) -> bool
    ensures { result ≡ is_hidden segment.now }
{
    matches!(segment, [b'_' | b'.' | b'#' | b'~', ..]) || segment.ends_with(b"~")
}

/// Whether an entry of `include` brings the path in: it is the path or a folder of it, or, where it has no `/`, one of the
/// path's segments.
pub fn is_brought_in(include: &TextList, path: &[u8]) -> bool
    ensures { result ≡ is_brought_in include.now path.now }
{
    include
        .as_slice()
        .iter()
        .any(|entry| brings_in(path, entry.as_str().as_bytes()))
}

/// Whether an entry of `exclude` takes the path out: it is the path or a folder of it, one `/` at the entry's end aside.
pub fn is_taken_out(exclude: &TextList, path: &[u8]) -> bool
    ensures { result ≡ is_taken_out exclude.now path.now }
{
    exclude
        .as_slice()
        .iter()
        .any(|entry| takes_out(path, entry.as_str().as_bytes()))
}

fn brings_in(path: &[u8], entry: &[u8]) -> bool
    ensures { result ≡ brings_in path.now entry.now }
{
    covers(path, entry) || names_segment(path, entry)
}

fn names_segment(path: &[u8], entry: &[u8]) -> bool
    ensures { result ≡ names_segment path.now entry.now }
{
    !has_slash(entry) && has_segment(path, entry)
}

fn has_slash(entry: &[u8]) -> bool
    ensures { result ≡ list_any is_slash entry.now }
{
    entry.iter().any(|byte| *byte == b'/')
}

/// Whether one of the path's segments is this one.
pub(crate) fn has_segment(path: &[u8], name: &[u8]) -> bool
    ensures { result ≡ list_any (bytes_eq name.now) (segments path.now) }
{
    path.split(|byte| *byte == b'/')
        .any(|segment| name == segment)
}

fn takes_out(path: &[u8], entry: &[u8]) -> bool
    ensures { result ≡ takes_out path.now entry.now }
{
    covers(path, without_slash(entry))
}

/// An entry without one `/` at its end.
pub fn without_slash(entry: &[u8]) -> &[u8]
    ensures { result.now ≡ without_slash entry.now }
{
    match entry {
        [front @ .., b'/'] => front,
        _ => entry,
    }
}

/// Whether the path is the entry, or lies below it.
pub fn covers(path: &[u8], entry: &[u8]) -> bool
    ensures { result ≡ covers path.now entry.now }
{
    path == entry || is_below(path, entry)
}

/// Whether the path lies below the folder.
pub(crate) fn is_below(path: &[u8], folder: &[u8]) -> bool
    ensures { result ≡ is_below path.now folder.now }
{
    path.starts_with(folder) && begins_with_slash(&path[folder.len()..])
}

fn begins_with_slash(text: &[u8]) -> bool
    ensures { result ≡ is_below text.now [] }
{
    matches!(text, [b'/', ..])
}
