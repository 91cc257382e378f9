// What stands in front of a path in an address.
ghost use Rattle.std.specs.Prelude.{◌≡◌, ◌++◌, IfOk, OnOk};
ghost use Rattle.permalinks.specs.Addresses.{behind_slash, front, lacks_slash, without_last_slash};

use site_base::{Memory, Text};

/// What stands in front of the paths of a site: its `url`, and its `baseurl` with one `/` before it and none at its end.
pub fn front(url: Text, base: &str) -> Result<Text, Memory>
    ensures { IfOk result (λ made. made ≡ front url base.now) }
{
    let mut front = url;
    push_path(&mut front, without_last_slash(base))?;
    Ok(front)
}

/// Adds a path to an address, with one `/` before it where it is not empty.
pub fn push_path(address: &mut Text, path: &str) -> Result<(), Memory>
    ensures { OnOk result (address.new ≡ address.old ++ behind_slash path.now) }
{
    if lacks_slash(path.as_bytes()) {
        address.push_str("/")?;
    }
    address.push_str(path)
}

fn lacks_slash(path: &[u8]) -> bool
    ensures { result ≡ lacks_slash path.now }
{
    match path {
        [first, ..] => *first != b'/',
        [] => false,
    }
}

fn without_last_slash(text: &str) -> &str
    ensures { result.now ≡ without_last_slash text.now }
{
    match text.as_bytes() {
        [.., b'/'] => &text[..text.len() - 1],
        _ => text,
    }
}
