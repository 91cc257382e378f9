// Files that are found again.
ghost use Rattle.std.specs.Prelude.{◌≡◌, IfOk, IfSome};

use site_base::{Memory, PathMap, SharedBytes, SitePath};
use std::alloc::Global;

// A holder of these bytes: that of the file which is held at this path, where it has them already.
pub(crate) fn holder_of(
    alloc: Global,
    held: &PathMap<SharedBytes>,
    path: &SitePath,
    bytes: Vec<u8>,
) -> Result<SharedBytes, Memory>
    ensures { IfOk result (λ holder. holder ≡ bytes.items) }
{
    match same_bytes(held, path, &bytes) {
        Some(holder) => holder.share(),
        None => SharedBytes::from_vec(alloc, bytes),
    }
}

// The holder of the bytes of the file which is held at this path, where they are these.
fn same_bytes<'a>(
    held: &'a PathMap<SharedBytes>,
    path: &SitePath,
    bytes: &[u8],
) -> Option<&'a SharedBytes>
    ensures { IfSome result (λ holder. holder.now ≡ bytes.now) }
{
    match held.get(path) {
        Some(holder) => {
            if holder.as_slice() == bytes {
                Some(holder)
            } else {
                None
            }
        }
        None => None,
    }
}
