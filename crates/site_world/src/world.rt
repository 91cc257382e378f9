// The world of a site answers look-ups.
ghost use Rattle.std.specs.Prelude.{◌≡◌};

use crate::SiteWorld;
use read_record::{Agreement, Answer, Finished, Key, World};
use site_base::{ItemName, Memory, SharedBytes};
use std::alloc::Global;

impl<'a> World for SiteWorld<'a> {
    ghost use Rattle.site_world.specs.Sights.{fixed_bytes, item_names, site_sight};
    ghost use Rattle.site_world.specs.SightLaws.{sight-lawful, sight-formed};

    ghost names = { λ w. item_names w.site.now };

    ghost fixed = { λ w. fixed_bytes w.held.now w.site.now };

    ghost sight = { λ w. site_sight w.held.now w.site.now };

    ghost names_differ = { λ w. w.differ };

    ghost lawful = { λ w. sight-lawful w.held.now w.site.now };

    ghost formed = { λ w. sight-formed w.held.now w.site.now w.forms_are };

    fn items(&self) -> u32 {
        self.site.items.len() as u32
    }

    fn name(&self, item: u32) -> &ItemName {
        &self.site.items.at(u64::from(item)).name
    }

    fn fixed_bytes(&self) -> u64 {
        self.fixed
    }

    fn look<F: Finished>(&self, alloc: Global, reader: u32, key: &Key, outs: &F) -> Answer {
        self.find(reader, key, outs).answer(alloc)
    }

    fn shared_code<F: Finished>(
        &self,
        _alloc: Global,
        reader: u32,
        key: &Key,
        outs: &F,
    ) -> Result<Option<SharedBytes>, Memory> {
        self.find(reader, key, outs).shared_code()
    }

    fn agrees<F: Finished>(&self, reader: u32, key: &Key, outs: &F, seen: &[u8]) -> Agreement {
        self.find(reader, key, outs).agrees(seen)
    }
}
