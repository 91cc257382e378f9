// The world of a site with its files.
ghost use Rattle.std.specs.Prelude.{◌≡◌, ◌<◌, ◌≤ℤ◌, ◌^◌, ℕ, List, IfOk, length, pos};
ghost use Rattle.std.specs.Arc.{arc_value};
ghost use Rattle.std.specs.List.{position};
ghost use Rattle.memo_table.specs.Names.{same_name};
ghost use Rattle.site_base.specs.View.{plain};
ghost use Rattle.site_base.specs.declared.item_name.ItemName.{ItemName as Name};
ghost use Rattle.site_reader.specs.Lawful.{IsLawful};
ghost use Rattle.site_world.specs.Indices.{place_in};
ghost use Rattle.site_world.specs.Named.{named};
ghost use Rattle.site_world.specs.Shelves.{shelved};
ghost use Rattle.site_world.specs.Sights.{AreFormed, NamesDiffer, copy_at, fixed_bytes, include_named, item_names, layout_named, post_named, variable_named};

use crate::coded::Coded;
use crate::copied::{copied_bytes, copies};
use crate::item_places::ItemPlaces;
use crate::kept_variables::{KeptVariables, shared_variables};
use crate::named::Named;
use crate::posts::posts;
use crate::shelf::Shelf;
use crate::shelves::{includes, layouts};
use site_base::{Memory, copy};
use site_items::StaticFile;
use site_reader::{Site, SiteItem};
use source_tree::Held;
use std::alloc::Global;
use std::sync::Arc;

/// A site together with the files that it was read from, as those see it who render its items. It borrows both. What many items look up
/// is made once, with its code.
#[derive(Drop)]
pub struct SiteWorld<'a> {
    pub(crate) site: &'a Site,
    pub(crate) held: &'a Held,
    pub(crate) places: ItemPlaces<'a>,
    pub(crate) layouts: Shelf,
    pub(crate) includes: Shelf,
    pub(crate) variables: Arc<Shelf>,
    pub(crate) data_tree: Coded,
    pub(crate) copies: Named<'a, StaticFile>,
    pub(crate) posts: Named<'a, SiteItem>,
    pub(crate) fixed: u64,
    ghost few: { length site.now.items < 2 ^ 31 },
    ghost places_are: { (name : Name) → place_in places name ≡ position (λ item. same_name item.name name) site.now.items },
    ghost layouts_are: { (x : List ℕ) → shelved layouts x ≡ layout_named x site.now.layouts },
    ghost includes_are: { (x : List ℕ) → shelved includes x ≡ include_named x site.now.includes },
    ghost variables_are: { (x : List ℕ) → shelved (arc_value variables) x ≡ variable_named x site.now },
    ghost data_is: { data_tree ≡ plain site.now.data_tree },
    ghost copies_are: { (path : List ℕ) → named copies path ≡ copy_at path site.now.statics },
    ghost posts_are: { (x : List ℕ) → named posts x ≡ post_named x site.now.items },
    ghost fixed_is: { fixed ≡ fixed_bytes held.now site.now },
    ghost differ: { NamesDiffer (item_names site.now) },
    ghost forms_are: { AreFormed site.now },
}

impl<'a> SiteWorld<'a> {
    /// The world of a site with the files that it was read from. The one error is want of memory.
    pub fn new(alloc: Global, site: &'a Site, held: &'a Held) -> Result<SiteWorld<'a>, Memory>
        requires lawful { IsLawful held.now site.now }
        // No look-up gives a moment before 1970.
        requires moment { pos 0 ≤ℤ site.now.moment }
        ensures site { IfOk result (λ world. world.site.now ≡ site.now) }
        ensures held { IfOk result (λ world. world.held.now ≡ held.now) }
    {
        SiteWorld::with_variables(alloc, site, held, shared_variables(alloc, site)?)
    }

    /// The same. The variables of the site are those that are kept, where these rest on the same; else they are made, and kept.
    pub fn keeping(
        alloc: Global,
        site: &'a Site,
        held: &'a Held,
        kept: &mut KeptVariables,
    ) -> Result<SiteWorld<'a>, Memory>
        requires lawful { IsLawful held.now site.now }
        requires moment { pos 0 ≤ℤ site.now.moment }
        ensures site { IfOk result (λ world. world.site.now ≡ site.now) }
        ensures held { IfOk result (λ world. world.held.now ≡ held.now) }
    {
        SiteWorld::with_variables(alloc, site, held, kept.of(alloc, site)?)
    }

    fn with_variables(
        alloc: Global,
        site: &'a Site,
        held: &'a Held,
        variables: Arc<Shelf>,
    ) -> Result<SiteWorld<'a>, Memory>
        requires lawful { IsLawful held.now site.now }
        requires moment { pos 0 ≤ℤ site.now.moment }
        requires variables { (x : List ℕ) → shelved (arc_value variables) x ≡ variable_named x site.now }
        ensures site { IfOk result (λ world. world.site.now ≡ site.now) }
        ensures held { IfOk result (λ world. world.held.now ≡ held.now) }
    {
        let layouts = layouts(alloc, site.layouts.as_slice())?;
        let includes = includes(alloc, site.includes.as_slice())?;
        let data_tree = Coded::new(alloc, copy(alloc, &site.data_tree)?)?;
        let copies = copies(alloc, site.statics.as_slice())?;
        let posts = posts(alloc, site.items.as_slice())?;
        let fixed = copied_bytes(held, &copies);
        let places = ItemPlaces::of(alloc, site.items.as_slice())?;
        Ok(SiteWorld {
            site,
            held,
            places,
            layouts,
            includes,
            variables,
            data_tree,
            copies,
            posts,
            fixed,
        })
    }
}
