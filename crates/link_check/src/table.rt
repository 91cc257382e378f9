// The table of a link checker.
ghost use Rattle.std.specs.Prelude.{◌≡◌, IfOk, OnOk, OnErr, if◌then◌else◌, not};
ghost use Rattle.std.specs.FinMap as map;
ghost use Rattle.link_check.specs.Table.{begun, broken_in, finished, has_bytes, with_offer};

use crate::answering::{BrokenList, Paths};
use crate::finding;
use crate::notes::broken_of;
use crate::page::{Page, find, keep_offered, offer_same, put, unoffer};
use crate::value_table::ValueTable;
use site_base::{Memory, SharedBytes, SitePath};
use std::alloc::Global;
use std::marker::Model;

/// The pages whose links are looked at: a map from their paths to their bytes, with the links of each. In a round, `begin` comes first, then
/// every page is offered, and `finish` forgets the others. So only pages that changed are read.
///
/// The value of a link stands once, whatever the number of links that have it, and a page has four bytes for each link.
#[derive(Drop)]
pub struct LinkTable {
    // in byte order of the paths
    pages: Vec<(SitePath, Page)>,
    values: ValueTable,
    // Whether a page was kept since values were last let go.
    has_news: bool,
}

impl Model for LinkTable {
    ghost use Rattle.link_check.specs.Numbers.{IsSound, table_of};
    ghost use Rattle.link_check.specs.Table.{Table, kept_code};
    ghost use Rattle.std.specs.Coded.{coded_list, coded_ℕ};
    ghost use Rattle.std.specs.FinMap as map;

    ghost Value = { Table };

    ghost coded = { map.code (coded_list coded_ℕ) kept_code };

    ghost view = { λ table. table_of table.pages.items };

    ghost invariant = { λ table. IsSound table.values table.pages.items };
}

impl LinkTable {
    /// The table without pages; it takes no memory.
    pub fn new(alloc: Global) -> LinkTable
        ensures { result ≡ map.empty }
    {
        LinkTable {
            pages: Vec::new(alloc),
            values: ValueTable::new(alloc),
            has_news: false,
        }
    }

    /// Begins a round: no page counts as offered. It takes no memory.
    pub fn begin(&mut self)
        ensures { self.new ≡ begun self.old }
    {
        unoffer(&mut self.pages);
    }

    /// Offers a page, and says whether it is kept anew: it is not exactly where the path is kept with these bytes. It then counts as offered. The only
    /// error is want of memory, after which the table is as before.
    pub fn offer(&mut self, alloc: Global, path: &SitePath, bytes: &[u8]) -> Result<bool, Memory>
        ensures told { IfOk result (λ is_new. is_new ≡ not (has_bytes self.old path.now bytes.now)) }
        ensures ok { OnOk result (self.new ≡ with_offer self.old path.now bytes.now) }
        ensures err { OnErr result (self.new ≡ self.old) }
    {
        if self.offer_known(path, bytes) {
            return Ok(false);
        }
        let bytes = SharedBytes::from_vec(alloc, bytes.to_vec(alloc)?)?;
        self.keep(alloc, path, bytes)?;
        Ok(true)
    }

    /// The same with bytes that have other holders: the table is one more, and copies nothing.
    pub fn offer_shared(
        &mut self,
        alloc: Global,
        path: &SitePath,
        bytes: &SharedBytes,
    ) -> Result<bool, Memory>
        ensures told { IfOk result (λ is_new. is_new ≡ not (has_bytes self.old path.now bytes.now)) }
        ensures ok { OnOk result (self.new ≡ with_offer self.old path.now bytes.now) }
        ensures err { OnErr result (self.new ≡ self.old) }
    {
        if self.offer_known(path, bytes.as_slice()) {
            return Ok(false);
        }
        let bytes = bytes.share()?;
        self.keep(alloc, path, bytes)?;
        Ok(true)
    }

    // Counts a page as offered that is kept with these bytes, and says whether it is.
    fn offer_known(&mut self, path: &SitePath, bytes: &[u8]) -> bool
        ensures told { result ≡ has_bytes self.old path.now bytes.now }
        ensures new { self.new ≡ (if result then with_offer self.old path.now bytes.now else self.old) }
    {
        match find(&self.pages, path) {
            Ok(place) => offer_same(&mut self.pages[place].1, bytes),
            Err(_) => false,
        }
    }

    // Keeps a page that was offered with these bytes.
    fn keep(&mut self, alloc: Global, path: &SitePath, bytes: SharedBytes) -> Result<(), Memory>
        ensures ok { OnOk result (self.new ≡ with_offer self.old path.now bytes) }
        ensures err { OnErr result (self.new ≡ self.old) }
    {
        let links = finding::links(alloc, bytes.as_slice())?;
        let path = path.copy(alloc)?;
        self.has_news = true;
        let links = self.values.numbers_of(alloc, links.as_slice())?;
        let page = Page {
            bytes,
            links,
            is_offered: true,
        };
        put(&mut self.pages, path, page)
    }

    /// Ends a round: pages that were not offered since it began are forgotten. It takes no memory.
    pub fn finish(&mut self)
        ensures { self.new ≡ finished self.old }
    {
        let count = self.pages.len();
        keep_offered(&mut self.pages);
        if self.has_news || self.pages.len() < count {
            self.values.forget_unused(&self.pages);
            self.has_news = false;
        }
    }

    /// The broken links of all pages, in byte order of their paths, and of each page in their order, as `is_broken` judges each. The only error
    /// is want of memory.
    ///
    /// A value is followed once for all pages of a folder, and one that begins with `/` once for all pages.
    pub fn broken<P: Paths>(
        &self,
        alloc: Global,
        paths: &P,
        base: &str,
    ) -> Result<BrokenList, Memory>
        ensures { IfOk result (λ list. list ≡ broken_in (P.paths paths.now) base.now self.now) }
    {
        broken_of(alloc, paths, base, &self.values, &self.pages)
    }
}
