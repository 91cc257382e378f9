// What makes excerpts.
ghost use Rattle.std.specs.Prelude.{◌≡◌, IfOk};
ghost use Rattle.site_base.specs.View.{plain};
ghost use Rattle.liquid_grammar.specs.Trees.{tree};
ghost use Rattle.liquid_parse.specs.Parsed.{Parses};
ghost use Rattle.read_record.specs.Answers.{Finds, in_plain};
ghost use Rattle.read_record.specs.Queries.{Ask, Give, run};
ghost use Rattle.read_record.specs.declared.key.Key.TheVariants.{Source, SiteVar, Var};
ghost use Rattle.liquid_values.specs.Standing.{place_of};
ghost use Rattle.liquid_eval.specs.Answers.{Yields};
ghost use Rattle.liquid_eval.specs.Excerpts as definitions;
ghost use Rattle.liquid_eval.specs.Excerpts.{start_of};
ghost use Rattle.liquid_eval.specs.Nodes.{entering, excerpts_made, none_made};

use crate::evaluating::enter;
use crate::starting::whole_place;
use filter_base::MOST_TEXT;
use liquid_parse::{ParseError, SharedTemplate, Templates};
use liquid_tags::{Nodes, State, Tools, before, is_nil};
use liquid_values::{
    Excerpts, Found, Locals, Mode, Place, Stop, holds_item, items_in, own_excerpt,
};
use markdown_grammar::{Convert, HtmlError};
use read_record::{Key, Look, ask};
use site_base::{FaultKind, ItemName, SiteFault, Text, Value};
use site_text::is_listed;
use std::alloc::Global;

/// Makes no excerpts: each item has its own alone.
#[derive(Drop)]
pub(crate) struct OwnExcerpts;

impl Excerpts for OwnExcerpts {
    ghost excerpts = { none_made };

    fn excerpt<'a, L: Look>(
        &mut self,
        alloc: Global,
        _place: &Place<'a>,
        item: &ItemName,
        look: &mut L,
    ) -> Result<Found<'a>, Stop> {
        own_excerpt(alloc, item, look)
    }
}

/// Makes the excerpt of a document that has none of its own from the front of its text, in which no excerpt is made.
#[derive(Drop)]
pub(crate) struct MadeExcerpts<'c, C> {
    pub tools: Tools<'c, OwnExcerpts, C>,
}

impl<'c, C: Convert> Excerpts for MadeExcerpts<'c, C> {
    ghost excerpts = { excerpts_made };

    fn excerpt<'a, L: Look>(
        &mut self,
        alloc: Global,
        place: &Place<'a>,
        item: &ItemName,
        look: &mut L,
    ) -> Result<Found<'a>, Stop> {
        let value = excerpt(alloc, &mut self.tools, place, item, look)?;
        Ok(Found::Value(value))
    }
}

// The item's own excerpt, or the one that is made.
#[tactic(auto, using(read_record::proofs::CallLaws::binds))]
fn excerpt<'a, 'c, C: Convert, L: Look>(
    alloc: Global,
    tools: &mut Tools<'c, OwnExcerpts, C>,
    place: &Place<'a>,
    item: &ItemName,
    look: &mut L,
) -> Result<Value, Stop>
    ensures same { L.view look.new ≡ L.view look.old }
    ensures gives { Finds (run (L.view look.old) (L.trace look.old) (definitions.excerpt (entering none_made place.now.levels) (place_of place.now) item.now)) (in_plain result) (L.trace look.new) }
{
    let own = variable(alloc, item, "excerpt", look)?;
    if is_nil(&own) {
        return made_excerpt(alloc, tools, place, item, look);
    }
    Ok(own)
}

// Only documents have an excerpt that is made.
#[tactic(auto, using(read_record::proofs::CallLaws::binds))]
fn made_excerpt<'a, 'c, C: Convert, L: Look>(
    alloc: Global,
    tools: &mut Tools<'c, OwnExcerpts, C>,
    place: &Place<'a>,
    item: &ItemName,
    look: &mut L,
) -> Result<Value, Stop>
    ensures same { L.view look.new ≡ L.view look.old }
    ensures gives { Finds (run (L.view look.old) (L.trace look.old) (definitions.made_excerpt (entering none_made place.now.levels) (place_of place.now) item.now)) (in_plain result) (L.trace look.new) }
{
    let documents = site_variable(alloc, "documents", look)?;
    if holds_item(item, items_in(&documents)) {
        return front_excerpt(alloc, tools, place, item, look);
    }
    Ok(Value::Nil)
}

#[tactic(auto, using(read_record::proofs::CallLaws::binds))]
fn front_excerpt<'a, 'c, C: Convert, L: Look>(
    alloc: Global,
    tools: &mut Tools<'c, OwnExcerpts, C>,
    place: &Place<'a>,
    item: &ItemName,
    look: &mut L,
) -> Result<Value, Stop>
    ensures same { L.view look.new ≡ L.view look.old }
    ensures gives { Finds (run (L.view look.old) (L.trace look.old) (definitions.front_excerpt (entering none_made place.now.levels) (place_of place.now) item.now)) (in_plain result) (L.trace look.new) }
{
    let own = variable(alloc, item, "excerpt_separator", look)?;
    cut_excerpt(alloc, tools, place, item, own, look)
}

#[tactic(auto, using(read_record::proofs::CallLaws::binds))]
fn cut_excerpt<'a, 'c, C: Convert, L: Look>(
    alloc: Global,
    tools: &mut Tools<'c, OwnExcerpts, C>,
    place: &Place<'a>,
    item: &ItemName,
    own: Value,
    look: &mut L,
) -> Result<Value, Stop>
    ensures same { L.view look.new ≡ L.view look.old }
    ensures gives { Finds (run (L.view look.old) (L.trace look.old) (definitions.cut_excerpt (entering none_made place.now.levels) (place_of place.now) item.now (plain own))) (in_plain result) (L.trace look.new) }
{
    let mark = separator(alloc, own, look)?;
    excerpt_before(alloc, tools, place, item, &mark, look)
}

// The excerpt before a mark.
#[tactic(auto, using(read_record::proofs::CallLaws::binds))]
fn excerpt_before<'a, 'c, C: Convert, L: Look>(
    alloc: Global,
    tools: &mut Tools<'c, OwnExcerpts, C>,
    place: &Place<'a>,
    item: &ItemName,
    mark: &Text,
    look: &mut L,
) -> Result<Value, Stop>
    ensures same { L.view look.new ≡ L.view look.old }
    ensures gives { Finds (run (L.view look.old) (L.trace look.old) (definitions.excerpt_before (entering none_made place.now.levels) (place_of place.now) item.now mark.now)) (in_plain result) (L.trace look.new) }
{
    let text = front_text(alloc, tools, place, item, mark, look)?;
    converted(alloc, tools.convert, place, item, text, look)
}

// The item's own separator, where it is a text that is not empty, or the site's.
#[tactic(auto, using(read_record::proofs::CallLaws::binds, crate::proofs::ExcerptLaws::own_separator, crate::proofs::ExcerptLaws::no_separator))]
fn separator<L: Look>(alloc: Global, own: Value, look: &mut L) -> Result<Text, Stop>
    ensures same { L.view look.new ≡ L.view look.old }
    ensures gives { Finds (run (L.view look.old) (L.trace look.old) (definitions.separator (plain own))) result (L.trace look.new) }
{
    let own = text_or_empty(alloc, own);
    if own.is_empty() {
        return site_separator(alloc, look);
    }
    Ok(own)
}

#[tactic(auto, using(read_record::proofs::CallLaws::binds))]
fn site_separator<L: Look>(alloc: Global, look: &mut L) -> Result<Text, Stop>
    ensures same { L.view look.new ≡ L.view look.old }
    ensures gives { Finds (run (L.view look.old) (L.trace look.old) definitions.site_separator) result (L.trace look.new) }
{
    let mark = site_variable(alloc, "excerpt_separator", look)?;
    Ok(text_or_empty(alloc, mark))
}

// The front of an item's text, evaluated.
#[tactic(auto, using(read_record::proofs::CallLaws::binds))]
fn front_text<'a, 'c, C: Convert, L: Look>(
    alloc: Global,
    tools: &mut Tools<'c, OwnExcerpts, C>,
    place: &Place<'a>,
    item: &ItemName,
    mark: &Text,
    look: &mut L,
) -> Result<Text, Stop>
    ensures same { L.view look.new ≡ L.view look.old }
    ensures gives { Finds (run (L.view look.old) (L.trace look.old) (definitions.front_text (entering none_made place.now.levels) (place_of place.now) item.now mark.now)) result (L.trace look.new) }
{
    let source = ask(alloc, &Key::Source(item.copy(alloc)?), look)?;
    let source = text_or_empty(alloc, source);
    match front_template(alloc, &mut tools.templates, mark.as_str(), source) {
        Ok(template) => entered_text(alloc, tools, place, item, &template, look),
        Err(ParseError::Fault(line, kind)) => Err(Stop::Fault(SiteFault {
            path: item.path.copy(alloc)?,
            line,
            kind,
        })),
        Err(ParseError::Memory) => Err(Stop::Memory),
    }
}

// The template that the front is, but the whole where there is no front, or the mark stands within a tag or a block.
fn front_template(
    alloc: Global,
    templates: &mut Templates,
    mark: &str,
    whole: Text,
) -> Result<SharedTemplate, ParseError>
    ensures { Parses result (tree (definitions.front mark.now whole)) }
{
    match before(whole.as_str(), mark) {
        Some(front) => {
            let front = Text::copy(alloc, front)?;
            let template = templates.template(alloc, &front);
            if has_syntax_fault(&template) {
                return templates.template(alloc, &whole);
            }
            template
        }
        None => templates.template(alloc, &whole),
    }
}

fn has_syntax_fault(template: &Result<SharedTemplate, ParseError>) -> bool
    ensures { result ≡ definitions.has_syntax_error template.now }
{
    match template {
        Ok(_) => false,
        Err(ParseError::Fault(_, kind)) => is_syntax(*kind),
        Err(ParseError::Memory) => false,
    }
}

fn is_syntax(kind: FaultKind) -> bool
    ensures { result ≡ definitions.is_syntax kind }
{
    match kind {
        FaultKind::LiquidSyntax => true,
        _ => false,
    }
}

#[tactic(auto, using(crate::proofs::ReachLaws::reaches))]
fn entered_text<'a, 'c, C: Convert, L: Look>(
    alloc: Global,
    tools: &mut Tools<'c, OwnExcerpts, C>,
    place: &Place<'a>,
    item: &ItemName,
    template: &SharedTemplate,
    look: &mut L,
) -> Result<Text, Stop>
    ensures same { L.view look.new ≡ L.view look.old }
    ensures gives { Finds (run (L.view look.old) (L.trace look.old) (definitions.entered_text (entering none_made place.now.levels) (place_of place.now) (start_of item.now) template.now)) result (L.trace look.new) }
{
    let locals = Locals::Nothing;
    let mode = Mode::Excerpt;
    let start = whole_place(&item.path, item, &mode, &locals, place.levels);
    let mut state = State::new(alloc);
    let nodes = Nodes::of_shared(template);
    enter(alloc, tools, &*place, &start, &nodes, &mut state, look)?;
    Ok(state.out.finish()?)
}

/// HTML, where the item is Markdown.
#[tactic(auto, using(read_record::proofs::CallLaws::binds, crate::proofs::ExcerptLaws::yields_runs))]
pub(crate) fn converted<'a, C: Convert, L: Look>(
    alloc: Global,
    convert: &C,
    place: &Place<'a>,
    item: &ItemName,
    text: Text,
    look: &mut L,
) -> Result<Value, Stop>
    ensures same { L.view look.new ≡ L.view look.old }
    ensures gives { Finds (run (L.view look.old) (L.trace look.old) (definitions.converted (place_of place.now) item.now text)) (in_plain result) (L.trace look.new) }
{
    let ext = variable(alloc, item, "ext", look)?;
    let names = site_variable(alloc, "markdown_ext", look)?;
    let ext = text_or_empty(alloc, ext);
    let names = text_or_empty(alloc, names);
    if is_listed(names.as_bytes(), ext.as_bytes()) {
        return html_of(alloc, convert, place, &text);
    }
    Ok(Value::Text(text))
}

#[tactic(auto, using(crate::proofs::ExcerptLaws::long_html))]
fn html_of<'a, C: Convert>(
    alloc: Global,
    convert: &C,
    place: &Place<'a>,
    text: &Text,
) -> Result<Value, Stop>
    ensures { Yields (place_of place.now) (definitions.html_found text.now) (in_plain result) }
{
    match convert.html(alloc, text.as_str(), MOST_TEXT as u64) {
        Ok(html) => Ok(Value::Text(html)),
        Err(HtmlError::TooLong) => Err(place.fault(alloc, FaultKind::OutputTooLong)),
        Err(HtmlError::Memory) => Err(Stop::Memory),
    }
}

/// A text as it is, or the empty text in place of any other value.
pub(crate) fn text_or_empty(alloc: Global, value: Value) -> Text
    ensures { result ≡ definitions.text_or_empty (plain value) }
{
    match value {
        Value::Text(text) => text,
        _ => Text::new(alloc),
    }
}

fn variable<L: Look>(
    alloc: Global,
    item: &ItemName,
    name: &str,
    look: &mut L,
) -> Result<Value, Stop>
    ensures same { L.view look.new ≡ L.view look.old }
    ensures gives { Finds (run (L.view look.old) (L.trace look.old) (Ask (Var item.now name.now) Give)) (in_plain result) (L.trace look.new) }
{
    let key = Key::Var(item.copy(alloc)?, Text::copy(alloc, name)?);
    ask(alloc, &key, look)
}

fn site_variable<L: Look>(alloc: Global, name: &str, look: &mut L) -> Result<Value, Stop>
    ensures same { L.view look.new ≡ L.view look.old }
    ensures gives { Finds (run (L.view look.old) (L.trace look.old) (Ask (SiteVar name.now) Give)) (in_plain result) (L.trace look.new) }
{
    let key = Key::SiteVar(Text::copy(alloc, name)?);
    ask(alloc, &key, look)
}
