// The names of files.
ghost use Rattle.std.specs.Prelude.{◌≡◌, length};
ghost use Rattle.std.specs.Str.{IsCharBoundary};
ghost use Rattle.site_files.specs.Names.{extension, file_name, folder, stem};

/// The name of a file: what stands behind the last `/` of its path.
pub fn file_name(path: &str) -> &str
    ensures { result.now ≡ file_name path.now }
{
    match path.rsplit_once('/') {
        Some((_, name)) => name,
        None => path,
    }
}

/// The folder of a file: what stands before the last `/` of its path, and nothing at the root.
pub fn folder(path: &str) -> &str
    ensures { result.now ≡ folder path.now }
{
    match path.rsplit_once('/') {
        Some((folder, _)) => folder,
        None => "",
    }
}

/// A name without its extension: what stands before its last `.`, unless the name begins with that.
pub fn stem(name: &str) -> &str
    ensures stem { result.now ≡ stem name.now }
    ensures cut { IsCharBoundary name.now (length result.now) }
{
    match name.rsplit_once('.') {
        Some((before, _)) => { if before.is_empty() { name } else { before } }
        None => name,
    }
}

/// The extension of a name, with its `.`; nothing where it has none.
pub fn extension(name: &str) -> &str
    ensures { result.now ≡ extension name.now }
{
    &name[stem(name).len()..]
}
