// Front matter, and the body behind it.
ghost use Rattle.std.specs.Prelude.{◌≡◌, IfOk, MatchResult};
ghost use Rattle.front_yaml.specs.Yaml.{pairs_of, yaml_pairs};
ghost use Rattle.site_base.specs.View.{plain};
ghost use Rattle.site_items.specs.Matter.{body, error_in_file, in_file, matter, outcome_of, own_variables, text_matter};
ghost use Rattle.site_items.specs.Outcomes.{IsFault};

use crate::file_content::FileContent;
use crate::front_parser::FrontParser;
use crate::item_error::{ItemError, LineFault, utf8_fault};
use front_yaml::{Front, YamlError};
use site_base::{FaultKind, Hash, Memory, Text, Value, YamlKind};
use std::alloc::Global;
use std::str;

/// What a file has by its bytes alone.
#[derive(Drop)]
pub struct Matter {
    /// The variables that its front matter sets, in their order; none where it has no front matter, or one that is not
    /// closed.
    pub vars: Hash,
    /// What stands behind its front matter; all of it where it has none, or one that is not closed.
    pub body: Text,
}

impl Matter {
    /// The variables and the body of a file, whose bytes the body shares. Front matter that is closed is read by the parser.
    ///
    /// `Fault` comes exactly where the file is no UTF-8 (`NotUtf8`), or else its front matter is no mapping of the YAML
    /// subset: `Yaml` with the first fault's kind and its line in the file, which is 1 where there is a value of another
    /// kind.
    pub fn read<P: FrontParser>(
        alloc: Global,
        content: &FileContent,
        parser: &mut P,
    ) -> Result<Matter, ItemError>
        ensures { MatchResult result (λ made. matter content.now ≡ Ok made) (IsFault (matter content.now)) }
    {
        match content.known() {
            Some(known) => shared(alloc, known),
            None => read_matter(alloc, content, parser),
        }
    }

    /// The same as it is kept: further holders of the variables and of the body take little more.
    pub(crate) fn known<P: FrontParser>(
        alloc: Global,
        content: &FileContent,
        parser: &mut P,
    ) -> Result<Result<Matter, LineFault>, Memory>
        ensures { IfOk result (λ known. matter content.now ≡ outcome_of known) }
    {
        match Matter::read(alloc, content, parser) {
            Ok(matter) => Ok(Ok(matter.into_shared()?)),
            Err(ItemError::Fault(fault)) => Ok(Err(fault)),
            Err(ItemError::Memory) => Err(Memory),
        }
    }

    fn into_shared(self) -> Result<Matter, Memory>
        ensures { IfOk result (λ shared. shared ≡ self) }
    {
        Ok(Matter {
            vars: self.vars.into_shared()?,
            body: self.body.into_shared()?,
        })
    }

    /// Equal variables and an equal body. What can be shared is not copied.
    pub(crate) fn share(&self, alloc: Global) -> Result<Matter, Memory>
        ensures { IfOk result (λ shared. shared ≡ self.now) }
    {
        Ok(Matter {
            vars: self.vars.share(alloc)?,
            body: self.body.share(alloc)?,
        })
    }
}

// What was read before.
fn shared(alloc: Global, known: &Result<Matter, LineFault>) -> Result<Matter, ItemError>
    ensures { MatchResult result (λ made. outcome_of known.now ≡ Ok made) (IsFault (outcome_of known.now)) }
{
    match known {
        Ok(matter) => Ok(matter.share(alloc)?),
        Err(fault) => Err(ItemError::Fault(*fault)),
    }
}

fn read_matter<P: FrontParser>(
    alloc: Global,
    content: &FileContent,
    parser: &mut P,
) -> Result<Matter, ItemError>
    ensures { MatchResult result (λ made. matter content.now ≡ Ok made) (IsFault (matter content.now)) }
{
    match str::from_utf8(content.bytes().as_slice()) {
        Ok(text) => text_matter(alloc, content, text, parser),
        Err(_) => Err(utf8_fault()),
    }
}

// The same of a file whose bytes are this text.
fn text_matter<P: FrontParser>(
    alloc: Global,
    content: &FileContent,
    text: &str,
    parser: &mut P,
) -> Result<Matter, ItemError>
    requires { content.now ≡ text.now }
    ensures { MatchResult result (λ made. text_matter text.now ≡ Ok made) (IsFault (text_matter text.now)) }
{
    Ok(Matter {
        vars: own_variables(alloc, content, text, parser)?,
        body: body(alloc, content, text)?,
    })
}

fn own_variables<P: FrontParser>(
    alloc: Global,
    content: &FileContent,
    text: &str,
    parser: &mut P,
) -> Result<Hash, ItemError>
    requires { content.now ≡ text.now }
    ensures { MatchResult result (λ vars. own_variables text.now ≡ Ok vars) (IsFault (own_variables text.now)) }
{
    match content.front() {
        // Its first line is read too, so that lines are counted in the file.
        Front::Page { yaml_end, .. } => front_variables(alloc, &text[..yaml_end], parser),
        Front::Open | Front::Plain => Ok(Hash::new(alloc)),
    }
}

// The variables of front matter with its first line.
fn front_variables<P: FrontParser>(
    alloc: Global,
    text: &str,
    parser: &mut P,
) -> Result<Hash, ItemError>
    ensures { let found = in_file (yaml_pairs text.now) in
        MatchResult result (λ vars. found ≡ Ok vars) (IsFault found) }
{
    match parser.read(alloc, text) {
        Ok(value) => mapping(alloc, value),
        Err(error) => Err(in_file(error)),
    }
}

// The pairs of a value that has to be a hash, or nothing.
fn mapping(alloc: Global, value: Value) -> Result<Hash, ItemError>
    ensures { let found = in_file (pairs_of (plain value)) in
        MatchResult result (λ vars. found ≡ Ok vars) (IsFault found) }
{
    match value {
        Value::Nil => Ok(Hash::new(alloc)),
        Value::Hash(pairs) => Ok(pairs),
        _ => Err(ItemError::Fault(LineFault {
            line: 1,
            kind: FaultKind::Yaml(YamlKind::NotMapping),
        })),
    }
}

// The error of front matter as one of its file.
fn in_file(error: YamlError) -> ItemError
    ensures { result ≡ error_in_file error }
{
    match error {
        YamlError::Fault(fault) => ItemError::Fault(LineFault {
            line: fault.line,
            kind: FaultKind::Yaml(fault.kind),
        }),
        YamlError::Memory => ItemError::Memory,
    }
}

fn body(alloc: Global, content: &FileContent, text: &str) -> Result<Text, Memory>
    requires { content.now ≡ text.now }
    ensures { IfOk result (λ made. made ≡ body text.now) }
{
    let bytes = content.bytes();
    match content.front() {
        Front::Page { body, .. } => Text::end_of(alloc, bytes, body, &text[body..]),
        Front::Open | Front::Plain => Text::end_of(alloc, bytes, 0, text),
    }
}
