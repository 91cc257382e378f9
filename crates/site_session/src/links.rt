// The links of the pages in an output.
ghost use Rattle.std.specs.Prelude.{◌≡◌, ◌<◌, IfOk, List, OnErr, OnOk, slice_index_or, ℕ};
ghost use Rattle.std.specs.FinMap as map;
ghost use Rattle.site_session.specs.Looking.{bytes_of, finds_new, offered};
ghost use Rattle.site_session.specs.Pages.{LooksAtSome, broken, is_page, is_there, page_at, pages, unseen};
ghost use Rattle.out_tree.specs.Belief.{believed};
ghost use Rattle.out_tree.specs.declared.state.State.{State};

use link_check::{BrokenList, LinkTable, Paths};
use out_tree::OutKeeper;
use site_base::{Memory, SitePath};
use std::alloc::Global;

/// The links of what is believed of an output.
#[derive(Drop)]
pub struct LinkReport {
    /// Those that are broken, in byte order of their pages, and of each page in their order.
    pub broken: BrokenList,
    /// How many pages were looked at: those that were not, with the bytes that they have now, since the session began.
    pub scanned: u64,
}

/// The paths that may be in an output.
#[derive(Clone, Copy)]
pub(crate) struct Believed<'a> {
    pub(crate) keeper: &'a OutKeeper,
}

impl<'a> Paths for Believed<'a> {
    ghost paths = { λ one path. is_there (believed one.keeper.now) path };

    fn has(&self, path: &SitePath) -> bool {
        self.keeper.has(path)
    }
}

/// The broken links of an output whose known pages the table has. The only error is want of memory.
pub(crate) fn broken(
    alloc: Global,
    table: &LinkTable,
    keeper: &OutKeeper,
    base: &str,
) -> Result<BrokenList, Memory>
    requires { bytes_of table.now ≡ pages (believed keeper.now) }
    ensures { IfOk result (λ list. list ≡ broken (believed keeper.now) base.now) }
{
    table.broken(alloc, &Believed { keeper }, base)
}

/// Has the table the known pages of an output, and answers how many it had not with their bytes. The only error is want of memory, after which
/// it has each page as before or as it is.
pub(crate) fn look(table: &mut LinkTable, alloc: Global, keeper: &OutKeeper) -> Result<u64, Memory>
    ensures count { IfOk result (λ count. count ≡ unseen (bytes_of table.old) (believed keeper.now)) }
    ensures ok { OnOk result (bytes_of table.new ≡ pages (believed keeper.now)) }
    ensures err { OnErr result (LooksAtSome (bytes_of table.old) (believed keeper.now) (bytes_of table.new)) }
{
    table.begin();
    let mut scanned = 0;
    for place in 0..keeper.entries() {
        if look_at(table, alloc, keeper, place)? {
            scanned += 1;
        }
    }
    table.finish();
    Ok(scanned)
}

// Offers the table the page at a place of an output, if it is one, and says whether it had it not.
fn look_at(
    table: &mut LinkTable,
    alloc: Global,
    keeper: &OutKeeper,
    place: u64,
) -> Result<bool, Memory>
    requires { place < map.len (believed keeper.now) }
    ensures told { (d : List ℕ × State) → IfOk result (λ is_new. is_new ≡ finds_new table.old (page_at (slice_index_or (map.entries (believed keeper.now)) place d))) }
    ensures ok { (d : List ℕ × State) → OnOk result (table.new ≡ offered table.old (page_at (slice_index_or (map.entries (believed keeper.now)) place d))) }
    ensures err { OnErr result (table.new ≡ table.old) }
{
    let (path, bytes) = keeper.shared_entry(place);
    match bytes {
        Some(bytes) if is_page(path) => table.offer_shared(alloc, path, bytes),
        _ => Ok(false),
    }
}

fn is_page(path: &SitePath) -> bool
    ensures { result ≡ is_page path.now }
{
    path.as_bytes().ends_with(b".html".as_slice())
}
