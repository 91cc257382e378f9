// Whole texts.
ghost use Rattle.std.specs.Prelude.{◌≡◌};
ghost use Rattle.read_record.specs.Answers.{Finds};
ghost use Rattle.read_record.specs.Queries.{run};
ghost use Rattle.liquid_values.specs.Places.{at_start};
ghost use Rattle.liquid_values.specs.Standing.{manner_of, place_of};
ghost use Rattle.liquid_eval.specs.Evaluations.{answer_of};
ghost use Rattle.liquid_eval.specs.Nodes.{evaluation, evaluation_at};
ghost use Rattle.liquid_eval.specs.Texts.{conversion, text_evaluation};

use crate::evaluating::run_nodes;
use crate::excerpts::{MadeExcerpts, OwnExcerpts, converted, text_or_empty};
use crate::starting::whole_place;
use liquid_parse::{ParseError, Template, Templates, parse};
use liquid_tags::{Nodes, State, Tools};
use liquid_values::{Excerpts, Locals, Mode, Place, Stop};
use markdown_grammar::Convert;
use read_record::Look;
use site_base::{ItemName, SiteFault, SitePath, Text};
use std::alloc::Global;

// How many blocks, includes and excerpts may stand in one another.
const MOST_LEVELS: u32 = 100;

/// What the evaluation of a template comes to.
#[derive(Drop)]
pub enum Evaluated {
    Text(Text),
    /// The first fault that was met.
    Fault(SiteFault),
    /// The item that has to be rendered first.
    Needs(u32),
    Memory,
}

impl From<Result<Text, Stop>> for Evaluated {
    fn from(text: Result<Text, Stop>) -> Evaluated
        ensures { answer_of result ≡ text }
    {
        match text {
            Ok(text) => Evaluated::Text(text),
            Err(Stop::Fault(fault)) => Evaluated::Fault(fault),
            Err(Stop::Needs(item)) => Evaluated::Needs(item),
            Err(Stop::Memory) => Evaluated::Memory,
        }
    }
}

/// Evaluates templates. The texts of includes and of excerpts are parsed once, and found again by their bytes.
#[derive(Drop)]
pub struct Evaluator<'c, C> {
    tools: Tools<'c, MadeExcerpts<'c, C>, C>,
}

impl<'c, C: Convert> Evaluator<'c, C> {
    /// One that has parsed nothing yet, with what makes HTML of Markdown.
    pub fn new(alloc: Global, convert: &'c C) -> Evaluator<'c, C> {
        Evaluator::knowing(alloc, convert, Templates::new(alloc))
    }

    /// One that finds what was parsed before among these templates.
    pub fn knowing(alloc: Global, convert: &'c C, templates: Templates) -> Evaluator<'c, C> {
        Evaluator {
            tools: Tools {
                excerpts: MadeExcerpts {
                    tools: Tools {
                        excerpts: OwnExcerpts,
                        convert,
                        templates: Templates::new(alloc),
                    },
                },
                convert,
                templates,
            },
        }
    }

    /// The templates that it knows now.
    pub fn into_templates(self) -> Templates {
        self.tools.templates
    }

    /// Evaluates a template that stands in a file, for an item: `evaluate` tells what comes of it.
    pub fn evaluate<'a, L: Look>(
        &mut self,
        alloc: Global,
        template: &Template,
        file: &'a SitePath,
        page: &'a ItemName,
        mode: &'a Mode,
        look: &mut L,
    ) -> Evaluated
        ensures same { L.view look.new ≡ L.view look.old }
        ensures gives { Finds (run (L.view look.old) (L.trace look.old) (evaluation (at_start file.now page.now (manner_of mode.now)) template.now)) (answer_of result) (L.trace look.new) }
    {
        let nodes = Nodes::of(template);
        let text = self.evaluate_nodes(alloc, &nodes, file, page, mode, look);
        Evaluated::from(text)
    }

    /// Evaluates the text of a file, for an item: the first fault of its syntax comes before all others, and otherwise
    /// `evaluate` tells what comes of it. Its template is not kept.
    pub fn evaluate_text<'a, L: Look>(
        &mut self,
        alloc: Global,
        text: &Text,
        file: &'a SitePath,
        page: &'a ItemName,
        mode: &'a Mode,
        look: &mut L,
    ) -> Result<Text, Stop>
        ensures same { L.view look.new ≡ L.view look.old }
        ensures gives { Finds (run (L.view look.old) (L.trace look.old) (text_evaluation (at_start file.now page.now (manner_of mode.now)) text.now)) result (L.trace look.new) }
    {
        match parse(alloc, text.as_str()) {
            Ok(template) => {
                let nodes = Nodes::of(&template);
                self.evaluate_nodes(alloc, &nodes, file, page, mode, look)
            }
            Err(ParseError::Fault(line, kind)) => Err(Stop::Fault(SiteFault {
                path: file.copy(alloc)?,
                line,
                kind,
            })),
            Err(ParseError::Memory) => Err(Stop::Memory),
        }
    }

    /// The same, of a text that many evaluate: its template is kept, and found again by the text.
    pub fn evaluate_shared<'a, L: Look>(
        &mut self,
        alloc: Global,
        text: &Text,
        file: &'a SitePath,
        page: &'a ItemName,
        mode: &'a Mode,
        look: &mut L,
    ) -> Result<Text, Stop>
        ensures same { L.view look.new ≡ L.view look.old }
        ensures gives { Finds (run (L.view look.old) (L.trace look.old) (text_evaluation (at_start file.now page.now (manner_of mode.now)) text.now)) result (L.trace look.new) }
    {
        match self.tools.templates.template(alloc, text) {
            Ok(template) => {
                let nodes = Nodes::of_shared(&template);
                self.evaluate_nodes(alloc, &nodes, file, page, mode, look)
            }
            Err(ParseError::Fault(line, kind)) => Err(Stop::Fault(SiteFault {
                path: file.copy(alloc)?,
                line,
                kind,
            })),
            Err(ParseError::Memory) => Err(Stop::Memory),
        }
    }

    /// The HTML of an item's text, where the item's extension is one of Markdown; otherwise the text as it is. HTML that is
    /// longer than a text may be is the fault `OutputTooLong` of the item, without a line.
    #[tactic(auto, using(read_record::proofs::CallLaws::binds))]
    pub fn convert<L: Look>(
        &self,
        alloc: Global,
        item: &ItemName,
        text: Text,
        look: &mut L,
    ) -> Result<Text, Stop>
        ensures same { L.view look.new ≡ L.view look.old }
        ensures gives { Finds (run (L.view look.old) (L.trace look.old) (conversion item.now text)) result (L.trace look.new) }
    {
        let locals = Locals::Nothing;
        let mode = Mode::Body;
        let place = whole_place(&item.path, item, &mode, &locals, MOST_LEVELS);
        let made = converted(alloc, self.tools.convert, &place, item, text, look)?;
        Ok(text_or_empty(alloc, made))
    }

    fn evaluate_nodes<'a, 'n, L: Look>(
        &mut self,
        alloc: Global,
        nodes: &Nodes<'n>,
        file: &'a SitePath,
        page: &'a ItemName,
        mode: &'a Mode,
        look: &mut L,
    ) -> Result<Text, Stop>
        ensures same { L.view look.new ≡ L.view look.old }
        ensures gives { Finds (run (L.view look.old) (L.trace look.old) (evaluation (at_start file.now page.now (manner_of mode.now)) nodes.now)) result (L.trace look.new) }
    {
        let locals = Locals::Nothing;
        let place = whole_place(file, page, mode, &locals, MOST_LEVELS);
        match mode {
            Mode::Excerpt => whole_text(alloc, &mut self.tools.excerpts.tools, &place, nodes, look),
            Mode::Body | Mode::Layout { .. } => {
                whole_text(alloc, &mut self.tools, &place, nodes, look)
            }
        }
    }
}

/// Evaluates a template that stands in a file, for an item, as the reference of Liquid 4 (Shopify) and Jekyll 4's manual have it, with the
/// differences that docs/PROFILE.md lists.
///
/// `mode` says what the text is: an item's body, the front of one, or a layout around it. All else is asked of `look`, each key where it
/// is reached; `convert` makes the HTML of `markdownify` and of excerpts. It answers the text, of at most 16 MiB, or the first fault that
/// was met, with its file and line (docs/FAULTS.md has each kind and when it comes), or the item that has to be rendered first.
///
/// Where several templates are evaluated, an [`Evaluator`] parses each include once.
pub fn evaluate<'a, C: Convert, L: Look>(
    alloc: Global,
    template: &Template,
    file: &'a SitePath,
    page: &'a ItemName,
    mode: &'a Mode,
    look: &mut L,
    convert: &C,
) -> Evaluated
    ensures same { L.view look.new ≡ L.view look.old }
    ensures gives { Finds (run (L.view look.old) (L.trace look.old) (evaluation (at_start file.now page.now (manner_of mode.now)) template.now)) (answer_of result) (L.trace look.new) }
{
    let mut evaluator = Evaluator::new(alloc, convert);
    evaluator.evaluate(alloc, template, file, page, mode, look)
}

#[tactic(auto, using(crate::proofs::ReachLaws::reaches))]
fn whole_text<'a, 'c, 'n, X: Excerpts, C: Convert, L: Look>(
    alloc: Global,
    tools: &mut Tools<'c, X, C>,
    place: &Place<'a>,
    nodes: &Nodes<'n>,
    look: &mut L,
) -> Result<Text, Stop>
    ensures same { L.view look.new ≡ L.view look.old }
    ensures gives { Finds (run (L.view look.old) (L.trace look.old) (evaluation_at X.excerpts place.now.levels (place_of place.now) nodes.now)) result (L.trace look.new) }
{
    let mut state = State::new(alloc);
    run_nodes(alloc, tools, place, nodes, &mut state, look)?;
    Ok(state.out.finish()?)
}
