// Pages that stand alone, and what their templates come to.
ghost use Rattle.std.specs.Prelude.{◌≡◌};
ghost use Rattle.read_record.specs.Answers.{IsReply};
ghost use Rattle.read_record.specs.Queries.{Known};
ghost use Rattle.filter_base.specs.Answers.{given};
ghost use Rattle.filter_base.specs.Properties.{or_nil};
ghost use Rattle.site_bench.specs.Pages.{include_text, page_view, text_or_nil};

use cm_print::CommonMark;
use front_yaml::{Front, YamlError, read_mapping, split_front};
use liquid_eval::{Evaluated, evaluate};
use liquid_parse::{ParseError, parse};
use liquid_values::Mode;
use read_record::{Answer, Key, Look};
use site_base::{Hash, ItemName, Memory, SitePath, Text, Value, copy};
use std::alloc::Global;
use std::io;
use std::rt::Clock;
use std::time::{Duration, Instant};

/// Why a page has no text.
#[derive(Clone, Copy, Debug, PartialEq, Eq)]
pub enum PageError {
    /// The front matter is missing or at fault, or the template is.
    Fault,
    Memory,
    /// The clock could not be read.
    Clock,
}

impl From<Memory> for PageError {
    fn from(_: Memory) -> PageError {
        PageError::Memory
    }
}

impl From<YamlError> for PageError {
    fn from(error: YamlError) -> PageError {
        match error {
            YamlError::Fault(_) => PageError::Fault,
            YamlError::Memory => PageError::Memory,
        }
    }
}

impl From<ParseError> for PageError {
    fn from(error: ParseError) -> PageError {
        match error {
            ParseError::Fault(_, _) => PageError::Fault,
            ParseError::Memory => PageError::Memory,
        }
    }
}

impl From<io::Error> for PageError {
    fn from(_: io::Error) -> PageError {
        PageError::Clock
    }
}

/// The text that a page comes to.
pub fn page_text(alloc: Global, page: &str) -> Result<Text, PageError> {
    let Page {
        mut variables,
        template,
    } = Page::read(alloc, page)?;
    template_text(alloc, template, &mut variables)
}

/// How long it takes to parse and evaluate the template of a page. Its front matter is read before.
pub fn timed<R: Clock>(rt: &R, alloc: Global, page: &str) -> Result<Duration, PageError> {
    let Page {
        mut variables,
        template,
    } = Page::read(alloc, page)?;
    let started = Instant::now(rt)?;
    let _text = template_text(alloc, template, &mut variables)?;
    Ok(started.elapsed(rt)?)
}

/// A page: front matter with its variables, and behind it a template.
#[derive(Drop)]
struct Page<'p> {
    variables: Variables,
    template: &'p str,
}

impl<'p> Page<'p> {
    fn read(alloc: Global, page: &'p str) -> Result<Page<'p>, PageError> {
        let Front::Page { yaml_end, body, .. } = split_front(page.as_bytes()) else {
            return Err(PageError::Fault);
        };
        let by_name = read_mapping(alloc, &page[..yaml_end])?.into_shared()?;
        Ok(Page {
            variables: Variables { by_name },
            template: &page[body..],
        })
    }
}

// The text that a template comes to, as the body of the page that has these variables.
fn template_text(
    alloc: Global,
    template: &str,
    variables: &mut Variables,
) -> Result<Text, PageError> {
    let template = parse(alloc, template)?;
    let Ok(path) = SitePath::read(alloc, "page.html") else {
        return Err(PageError::Memory);
    };
    let page = ItemName { path, part: 0 };
    let mode = Mode::Body;
    let convert = CommonMark;
    match evaluate(
        alloc, &template, &page.path, &page, &mode, variables, &convert,
    ) {
        Evaluated::Text(text) => Ok(text),
        // No look-up of such a page asks for another item.
        Evaluated::Fault(_) | Evaluated::Needs(_) => Err(PageError::Fault),
        Evaluated::Memory => Err(PageError::Memory),
    }
}

/// The variables of a page, which answer its look-ups: under `includes` stand the texts of includes by their names. There is no other item.
#[derive(Drop)]
struct Variables {
    by_name: Hash,
}

impl Look for Variables {
    ghost use Rattle.std.specs.Prelude.{None};
    ghost use Rattle.site_bench.specs.Pages.{page_view, page-formed};

    ghost view = { λ v. page_view v.by_name };

    ghost trace = { λ _. None };

    ghost formed = { λ v. page-formed v.by_name };

    fn look(&mut self, alloc: Global, key: &Key) -> Answer {
        match key {
            Key::Var(_, name) => value_answer(alloc, self.by_name.get(name.as_str())),
            Key::Include(name) => include_answer(alloc, &self.by_name, name.as_str()),
            Key::Moment => Answer::Seen(Value::Int(0)),
            _ => Answer::Seen(Value::Nil),
        }
    }
}

fn value_answer(alloc: Global, value: Option<&Value>) -> Answer
    ensures { IsReply (Known (or_nil (given value.entry))) result }
{
    match value {
        Some(value) => match copy(alloc, value) {
            Ok(value) => Answer::Seen(value),
            Err(Memory) => Answer::Memory,
        },
        None => Answer::Seen(Value::Nil),
    }
}

fn include_answer(alloc: Global, variables: &Hash, name: &str) -> Answer
    ensures { IsReply (Known (include_text name.now variables.now)) result }
{
    match variables.get("includes") {
        Some(Value::Hash(includes)) => text_answer(alloc, includes.get(name)),
        _ => Answer::Seen(Value::Nil),
    }
}

fn text_answer(alloc: Global, value: Option<&Value>) -> Answer
    ensures { IsReply (Known (text_or_nil (given value.entry))) result }
{
    match value {
        Some(Value::Text(text)) => match text.share(alloc) {
            Ok(text) => Answer::Seen(Value::Text(text)),
            Err(Memory) => Answer::Memory,
        },
        _ => Answer::Seen(Value::Nil),
    }
}
