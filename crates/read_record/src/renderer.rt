// What renders the items of a site.
ghost use Rattle.std.specs.Prelude.{◌≡◌};
ghost use Rattle.site_base.specs.declared.item_name.ItemName.{ItemName};
ghost use Rattle.site_base.specs.declared.faults.SiteFault.{SiteFault};
ghost use Rattle.read_record.specs.Queries.{Query, run};
ghost use Rattle.read_record.specs.Outcomes.{Page};
ghost use Rattle.read_record.specs.Answers.{Renders, rendered_names};

use crate::{Look, Outcome, Tally};
use site_base::ItemName;
use std::alloc::Global;

/// What an item means: a query, by its name. It has no code; renderers that share it render alike.
pub trait ItemMeaning {
    ghost item: { ItemName → Query SiteFault Page };
}

/// How a render ends.
#[derive(Drop)]
pub enum Rendered {
    Out(Outcome),
    /// This item has to be done first.
    Needs(u32),
    Memory,
}

/// It renders an item by what it looks up, and by nothing else.
pub trait Renderer {
    type Meaning: ItemMeaning;

    /// What the item comes to over the look's view, or the item that has to be done first. The name joins the tally
    /// exactly where there is an outcome.
    fn render<L: Look>(
        &self,
        alloc: Global,
        name: &ItemName,
        look: &mut L,
        tally: &mut Tally,
    ) -> Rendered
        ensures same { L.view look.new ≡ L.view look.old }
        ensures outcome { Renders (run (L.view look.old) (L.trace look.old) (Self.Meaning.item name.now)) result (L.trace look.new) }
        ensures tallied { tally.new ≡ rendered_names result name.now tally.old };
}
