// The renderer of the program.
ghost use Rattle.std.specs.Prelude.{◌≡◌};
ghost use Rattle.read_record.specs.Answers.{Renders};
ghost use Rattle.read_record.specs.Queries.{run};
ghost use Rattle.page_render.specs.Items.{item, rendered_by};

use crate::item::{Made, item};
use crate::templates_pool::TemplatesPool;
use cm_print::CommonMark;
use liquid_eval::Evaluator;
use liquid_values::Stop;
use read_record::{ItemMeaning, Look, Outcome, Rendered, Renderer, Tally};
use site_base::ItemName;
use std::alloc::Global;

/// What the items of a site come to.
pub struct PageMeaning;

impl ItemMeaning for PageMeaning {
    ghost use Rattle.page_render.specs.Items.{item};

    ghost item = { item };
}

/// Renders the items of a site, as docs/PROFILE.md tells. It keeps the templates of layouts and includes that it parsed, each
/// found again by its text, so what it makes of an item hangs on what is looked up alone.
#[derive(Drop)]
pub struct PageRenderer {
    known: TemplatesPool,
}

impl PageRenderer {
    /// A renderer that has parsed nothing yet; it takes no memory.
    pub fn new(alloc: Global) -> PageRenderer {
        PageRenderer {
            known: TemplatesPool::new(alloc),
        }
    }

    #[tactic(auto, using(crate::proofs::RenderLaws::renders))]
    fn outcome<L: Look>(&self, alloc: Global, name: &ItemName, look: &mut L) -> Rendered
        ensures same { L.view look.new ≡ L.view look.old }
        ensures outcome { Renders (run (L.view look.old) (L.trace look.old) (item name.now)) result (L.trace look.new) }
    {
        let convert = CommonMark;
        let mut evaluator = Evaluator::knowing(alloc, &convert, self.known.take(alloc));
        let made = item(alloc, &mut evaluator, name, look);
        self.known.keep(evaluator.into_templates());
        rendered(made)
    }
}

impl Renderer for PageRenderer {
    type Meaning = PageMeaning;

    fn render<L: Look>(
        &self,
        alloc: Global,
        name: &ItemName,
        look: &mut L,
        tally: &mut Tally,
    ) -> Rendered {
        match self.outcome(alloc, name, look) {
            Rendered::Out(outcome) => match tally.add(alloc, name) {
                Ok(()) => Rendered::Out(outcome),
                Err(_) => Rendered::Memory,
            },
            Rendered::Needs(item) => Rendered::Needs(item),
            Rendered::Memory => Rendered::Memory,
        }
    }
}

fn rendered(made: Result<Made, Stop>) -> Rendered
    ensures { result ≡ rendered_by made }
{
    match made {
        Ok(Made { content, output }) => Rendered::Out(Outcome::Done { content, output }),
        Err(Stop::Fault(fault)) => Rendered::Out(Outcome::Fault(fault)),
        Err(Stop::Needs(item)) => Rendered::Needs(item),
        Err(Stop::Memory) => Rendered::Memory,
    }
}
