// What the documents of the collections are sorted by, for one reading.
ghost use Rattle.std.specs.Prelude.{◌≡◌, IfOk};
ghost use Rattle.std.specs.Option.{option_copied};
ghost use Rattle.site_reader.specs.Ranks.{document_key, sort_key};
ghost use Rattle.site_reader.specs.Sorters.{AreSorters, sorter_of, sorting_of};

use crate::first_places::FirstPlaces;
use crate::sort_key::SortKey;
use site_base::{Hash, Memory};
use site_config::{Config, Sorting};
use site_items::{Kind, below_folder};
use std::alloc::Global;

/// What the documents of a collection are sorted by, with what finds their places.
#[derive(Drop)]
pub(crate) enum Sorter<'a> {
    ByDate,
    By(&'a str),
    Listed(FirstPlaces<'a>),
}

impl<'a> Sorter<'a> {
    fn of(alloc: Global, sorting: &'a Sorting) -> Result<Sorter<'a>, Memory>
        ensures { IfOk result (λ made. sorting_of made ≡ sorting.now) }
    {
        match sorting {
            Sorting::ByDate => Ok(Sorter::ByDate),
            Sorting::By(name) => Ok(Sorter::By(name.as_str())),
            Sorting::Listed(paths) => Ok(Sorter::Listed(FirstPlaces::of(alloc, paths)?)),
        }
    }

    // The key of a document with this path below its collection's folder.
    fn key(&self, alloc: Global, path: &str, vars: &Hash) -> Result<SortKey, Memory>
        ensures { IfOk result (λ key. key ≡ sort_key (sorting_of self.now) path.now vars.now) }
    {
        match self {
            Sorter::ByDate => Ok(SortKey::Last),
            Sorter::By(name) => SortKey::by_variable(alloc, *name, vars),
            Sorter::Listed(places) => Ok(SortKey::Place(places.find(path))),
        }
    }
}

/// One for each collection. It is made once for a reading, since it may have a long list to go through.
pub(crate) fn sorters<'a>(alloc: Global, config: &'a Config) -> Result<Vec<Sorter<'a>>, Memory>
    ensures { IfOk result (λ made. AreSorters config.entry.now made.items) }
{
    let collections = config.collections.as_slice();
    let mut made = Vec::with_capacity(alloc, collections.len())?;
    for collection in collections {
        made.push(Sorter::of(alloc, &collection.sorting)?)?;
    }
    Ok(made)
}

/// The key of an item of a kind.
pub(crate) fn sort_key(
    alloc: Global,
    config: &Config,
    sorters: &[Sorter],
    kind: Kind,
    path: &str,
    vars: &Hash,
) -> Result<SortKey, Memory>
    requires { AreSorters config.now sorters.now }
    ensures { IfOk result (λ key. key ≡ document_key config.now kind path.now vars.now) }
{
    match sorter_of(sorters, kind) {
        Some(sorter) => sorter.key(alloc, below_folder(config, kind, path), vars),
        None => Ok(SortKey::Last),
    }
}

// That of a document's collection. Pages have none, and posts are sorted by date.
fn sorter_of<'s, 'a>(sorters: &'s [Sorter<'a>], kind: Kind) -> Option<&'s Sorter<'a>>
    ensures { option_copied result ≡ sorter_of sorters.now kind }
{
    match kind {
        Kind::Document(number) => sorters.get(number as usize),
        Kind::Page | Kind::Post | Kind::Draft => None,
    }
}
