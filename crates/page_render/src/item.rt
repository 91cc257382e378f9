// One item.
ghost use Rattle.std.specs.Prelude.{◌≡◌};
ghost use Rattle.site_base.specs.View.{plain};
ghost use Rattle.liquid_eval.specs.Excerpts.{text_or_empty};
ghost use Rattle.read_record.specs.Answers.{Finds};
ghost use Rattle.read_record.specs.Queries.{run};
ghost use Rattle.page_render.specs.Items.{in_pages, item, own_text, text_of};

use crate::layouts::laid_out;
use liquid_eval::Evaluator;
use liquid_values::{Mode, Stop};
use markdown_grammar::Convert;
use read_record::{Key, Look, ask};
use site_base::{ItemName, Text, Value};
use std::alloc::Global;

/// What was made of an item.
#[derive(Drop)]
pub(crate) struct Made {
    /// Its own text, converted.
    pub content: Text,
    /// That in its layouts.
    pub output: Text,
}

/// What an item comes to: its text, evaluated, converted where it is Markdown, and in its layouts.
#[tactic(auto, using(read_record::proofs::CallLaws::binds))]
pub(crate) fn item<'c, C: Convert, L: Look>(
    alloc: Global,
    evaluator: &mut Evaluator<'c, C>,
    name: &ItemName,
    look: &mut L,
) -> Result<Made, Stop>
    ensures same { L.view look.new ≡ L.view look.old }
    ensures gives { Finds (run (L.view look.old) (L.trace look.old) (item name.now)) (in_pages result) (L.trace look.new) }
{
    // Both texts have several holders: whoever reads them, the render that is kept, and of the output what is written of it.
    let content = own_text(alloc, evaluator, name, look)?.into_shared()?;
    let output = laid_out(alloc, evaluator, name, &content, look)?;
    Ok(Made {
        content,
        output: output.into_file()?,
    })
}

#[tactic(auto, using(read_record::proofs::CallLaws::binds))]
fn own_text<'c, C: Convert, L: Look>(
    alloc: Global,
    evaluator: &mut Evaluator<'c, C>,
    name: &ItemName,
    look: &mut L,
) -> Result<Text, Stop>
    ensures same { L.view look.new ≡ L.view look.old }
    ensures gives { Finds (run (L.view look.old) (L.trace look.old) (own_text name.now)) result (L.trace look.new) }
{
    let source = ask(alloc, &Key::Source(name.copy(alloc)?), look)?;
    let source = text_or_empty(alloc, source);
    text_of(alloc, evaluator, name, &source, look)
}

// An item's source, evaluated and converted.
#[tactic(auto, using(read_record::proofs::CallLaws::binds))]
fn text_of<'c, C: Convert, L: Look>(
    alloc: Global,
    evaluator: &mut Evaluator<'c, C>,
    name: &ItemName,
    source: &Text,
    look: &mut L,
) -> Result<Text, Stop>
    ensures same { L.view look.new ≡ L.view look.old }
    ensures gives { Finds (run (L.view look.old) (L.trace look.old) (text_of name.now source.now)) result (L.trace look.new) }
{
    let mode = Mode::Body;
    let text = evaluator.evaluate_text(alloc, source, &name.path, name, &mode, look)?;
    evaluator.convert(alloc, name, text, look)
}

fn text_or_empty(alloc: Global, value: Value) -> Text
    ensures { result ≡ text_or_empty (plain value) }
{
    match value {
        Value::Text(text) => text,
        _ => Text::new(alloc),
    }
}
