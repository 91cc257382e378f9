// The layouts around an item's text.
ghost use Rattle.std.specs.Prelude.{◌≡◌, Some, codes};
ghost use Rattle.site_base.specs.View.{plain};
ghost use Rattle.read_record.specs.Answers.{Finds, in_plain};
ghost use Rattle.read_record.specs.Queries.{Ask, Give, run};
ghost use Rattle.read_record.specs.declared.key.Key.TheVariants.{Var};
ghost use Rattle.page_render.specs.Layouts.{in_found, in_layout, in_layouts, laid_out, most_layouts};

use crate::around::Around;
use crate::layout::Layout;
use liquid_eval::Evaluator;
use liquid_values::{Mode, Stop};
use markdown_grammar::Convert;
use read_record::{Key, Look, ask};
use site_base::{FaultKind, ItemName, SiteFault, Text, Value};
use std::alloc::Global;

/// More layouts than a site can have, since each is a file.
const MOST_LAYOUTS: u32 = 50_001;

/// An item's own text in the layouts that its variable `layout` names, one around the other: each layout's own variable names the
/// next, and the chain ends at a name that no layout has, or that was used before.
#[tactic(auto, using(read_record::proofs::CallLaws::binds))]
pub(crate) fn laid_out<'c, C: Convert, L: Look>(
    alloc: Global,
    evaluator: &mut Evaluator<'c, C>,
    item: &ItemName,
    own: &Text,
    look: &mut L,
) -> Result<Text, Stop>
    ensures same { L.view look.new ≡ L.view look.old }
    ensures gives { Finds (run (L.view look.old) (L.trace look.old) (laid_out item.now own.now)) result (L.trace look.new) }
{
    let layout = layout_variable(alloc, item, look)?;
    let bare = Around::bare(alloc, own.share(alloc)?, &layout)?;
    in_layouts(alloc, evaluator, item, own, bare, look)
}

fn layout_variable<L: Look>(alloc: Global, item: &ItemName, look: &mut L) -> Result<Value, Stop>
    ensures same { L.view look.new ≡ L.view look.old }
    ensures gives { Finds (run (L.view look.old) (L.trace look.old) (Ask (Var item.now (codes "layout")) Give)) (in_plain result) (L.trace look.new) }
{
    let key = Key::Var(item.copy(alloc)?, Text::copy(alloc, "layout")?);
    ask(alloc, &key, look)
}

#[tactic(auto, using(read_record::proofs::CallLaws::binds))]
fn in_layouts<'c, C: Convert, L: Look>(
    alloc: Global,
    evaluator: &mut Evaluator<'c, C>,
    item: &ItemName,
    own: &Text,
    bare: Around,
    look: &mut L,
) -> Result<Text, Stop>
    ensures same { L.view look.new ≡ L.view look.old }
    ensures gives { Finds (run (L.view look.old) (L.trace look.old) (in_layouts item.now own.now most_layouts bare)) result (L.trace look.new) }
{
    let mut around = bare;
    let mut left = MOST_LAYOUTS;
    while left > 0 {
        let name = match &around.next {
            Some(name) => name.share(alloc)?,
            None => return Ok(around.text),
        };
        around = in_layout(alloc, evaluator, item, own, around, &name, look)?;
        left -= 1;
    }
    Err(Stop::Fault(SiteFault {
        path: item.path.copy(alloc)?,
        line: 0,
        kind: FaultKind::Nesting,
    }))
}

// The text in the layout of this name, where there is one.
#[tactic(auto, using(read_record::proofs::CallLaws::binds))]
fn in_layout<'c, C: Convert, L: Look>(
    alloc: Global,
    evaluator: &mut Evaluator<'c, C>,
    item: &ItemName,
    own: &Text,
    around: Around,
    name: &Text,
    look: &mut L,
) -> Result<Around, Stop>
    ensures same { L.view look.new ≡ L.view look.old }
    ensures gives { Finds (run (L.view look.old) (L.trace look.old) (in_layout item.now own.now around name.now)) result (L.trace look.new) }
{
    let found = ask(alloc, &Key::Layout(name.share(alloc)?), look)?;
    match Layout::of(alloc, &found)? {
        Some(layout) => in_found(alloc, evaluator, item, own, around, name, &layout, look),
        None => Ok(around.ended()),
    }
}

#[tactic(auto, using(read_record::proofs::CallLaws::binds))]
fn in_found<'c, C: Convert, L: Look>(
    alloc: Global,
    evaluator: &mut Evaluator<'c, C>,
    item: &ItemName,
    own: &Text,
    around: Around,
    name: &Text,
    layout: &Layout,
    look: &mut L,
) -> Result<Around, Stop>
    ensures same { L.view look.new ≡ L.view look.old }
    ensures gives { Finds (run (L.view look.old) (L.trace look.old) (in_found item.now own.now around name.now (Some layout.now))) result (L.trace look.new) }
{
    let variables = around.variables_with(alloc, layout)?;
    let mode = Mode::Layout {
        own: own.share(alloc)?,
        content: around.text.share(alloc)?,
        layout: Value::Hash(variables.share(alloc)?),
    };
    let made = evaluator.evaluate_shared(alloc, &layout.body, &layout.path, item, &mode, look)?;
    Ok(around.once_around(alloc, name, layout, variables, made)?)
}
