// What a row says: a template, and what it comes to over a site in memory, or the keys that it asks for.
use crate::shelf::{Shelf, item};
use cm_print::CommonMark;
use front_yaml::read_yaml;
use liquid_eval::{Evaluated, evaluate};
use liquid_parse::{ParseError, Template, parse};
use liquid_values::Mode;
use site_base::{FaultKind, Memory, Text};
use std::alloc::Global;

/// What a text is, as `Mode` has it.
#[derive(Clone, Copy)]
pub(crate) enum Manner {
    Body,
    Excerpt,
    Layout,
}

/// Where a template stands.
#[derive(Clone, Copy)]
pub(crate) struct Setting {
    pub page: &'static str,
    pub file: &'static str,
    pub manner: Manner,
}

const PAGE: &Setting = &Setting {
    page: "p.html",
    file: "p.html",
    manner: Manner::Body,
};

/// A layout of the page.
pub(crate) const LAYOUT: &Setting = &Setting {
    page: "p.html",
    file: "_layouts/base.html",
    manner: Manner::Layout,
};

/// An excerpt of the first post.
pub(crate) const EXCERPT: &Setting = &Setting {
    page: "_posts/2024-01-01-first.md",
    file: "_posts/2024-01-01-first.md",
    manner: Manner::Excerpt,
};

/// Whether a template of the page comes to a text, or to a fault.
pub(crate) fn is(alloc: Global, template: &str, wanted: &str) -> bool {
    is_at(alloc, PAGE, template, wanted)
}

/// Whether a template comes to a text, or to a fault.
pub(crate) fn is_at(alloc: Global, setting: &Setting, template: &str, wanted: &str) -> bool {
    match came_to(alloc, setting, template) {
        Ok(text) => text.as_str() == wanted,
        Err(_) => false,
    }
}

/// Whether a template of the page asks for these keys.
pub(crate) fn asks(alloc: Global, template: &str, wanted: &str) -> bool {
    asks_at(alloc, PAGE, template, wanted)
}

/// Whether a template asks for these keys.
pub(crate) fn asks_at(alloc: Global, setting: &Setting, template: &str, wanted: &str) -> bool {
    match asked_by(alloc, setting, template) {
        Ok(keys) => keys.as_str() == wanted,
        Err(_) => false,
    }
}

fn came_to(alloc: Global, setting: &Setting, template: &str) -> Result<String, Memory> {
    let mut shelf = Shelf::new(alloc)?;
    evaluated(alloc, setting, template, &mut shelf)
}

fn asked_by(alloc: Global, setting: &Setting, template: &str) -> Result<String, Memory> {
    let mut shelf = Shelf::new(alloc)?;
    evaluated(alloc, setting, template, &mut shelf)?;
    shelf.asked(alloc)
}

// What a template comes to, as rows have it.
fn evaluated(
    alloc: Global,
    setting: &Setting,
    template: &str,
    shelf: &mut Shelf,
) -> Result<String, Memory> {
    match parse(alloc, template) {
        Ok(template) => evaluated_there(alloc, setting, &template, shelf),
        Err(ParseError::Fault(line, kind)) => fault_text(alloc, setting.file, line, kind),
        Err(ParseError::Memory) => Err(Memory),
    }
}

fn evaluated_there(
    alloc: Global,
    setting: &Setting,
    template: &Template,
    shelf: &mut Shelf,
) -> Result<String, Memory> {
    let page = item(alloc, setting.page)?;
    let file = item(alloc, setting.file)?.path;
    let mode = mode_of(alloc, setting.manner)?;
    let end = evaluate(alloc, template, &file, &page, &mode, shelf, &CommonMark);
    end_text(alloc, &end)
}

// The text, or the fault.
fn end_text(alloc: Global, end: &Evaluated) -> Result<String, Memory> {
    match end {
        Evaluated::Text(text) => Ok(text.as_str().to_string(alloc)?),
        Evaluated::Fault(fault) => fault_text(alloc, fault.path.text(), fault.line, fault.kind),
        Evaluated::Needs(_) => Ok("needs an item".to_string(alloc)?),
        Evaluated::Memory => Err(Memory),
    }
}

fn mode_of(alloc: Global, manner: Manner) -> Result<Mode, Memory> {
    match manner {
        Manner::Body => Ok(Mode::Body),
        Manner::Excerpt => Ok(Mode::Excerpt),
        Manner::Layout => match read_yaml(alloc, "x: 1\ny: {z: two}") {
            Ok(layout) => Ok(Mode::Layout {
                own: Text::copy(alloc, "<own>")?,
                content: Text::copy(alloc, "so <far>")?,
                layout,
            }),
            Err(_) => Err(Memory),
        },
    }
}

fn fault_text(alloc: Global, path: &str, line: u64, kind: FaultKind) -> Result<String, Memory> {
    let kind = kind_text(kind);
    Ok(format!(in alloc; "!{path}:{line}:{kind}")?)
}

fn kind_text(kind: FaultKind) -> &'static str {
    match kind {
        FaultKind::LiquidSyntax => "LiquidSyntax",
        FaultKind::UnknownTag => "UnknownTag",
        FaultKind::IncludeMissing => "IncludeMissing",
        FaultKind::LinkMissing => "LinkMissing",
        FaultKind::FilterArgument => "FilterArgument",
        FaultKind::DividedByZero => "DividedByZero",
        FaultKind::Overflow => "Overflow",
        FaultKind::Fraction => "Fraction",
        FaultKind::Nesting => "Nesting",
        FaultKind::RangeTooLong => "RangeTooLong",
        FaultKind::OutputTooLong => "OutputTooLong",
        FaultKind::DateFormat => "DateFormat",
        FaultKind::Unlike => "Unlike",
        _ => "another fault",
    }
}
