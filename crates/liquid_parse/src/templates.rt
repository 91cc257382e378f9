// Templates with several holders, each found again by its text.
ghost use Rattle.std.specs.Prelude.{◌≡◌, ◌↔◌, IfOk, IfSome, IsTrue, Ok};
ghost use Rattle.site_base.specs.Fingerprints.{fingerprint};
ghost use Rattle.liquid_grammar.specs.Trees.{tree};
ghost use Rattle.liquid_parse.specs.Flat.{IsFlat, flat};
ghost use Rattle.liquid_parse.specs.Parsed.{Parses};

use crate::error::ParseError;
use crate::node::Node;
use crate::parsing::parse;
use crate::template::Template;
use site_base::{Memory, Text};
use std::alloc::Global;
use std::collections::BTreeMap;
use std::hash::{DefaultHasher, Hasher};
use std::marker::Model;
use std::sync::Arc;

/// A template that may have several holders. Clauses see its tree.
#[derive(Drop)]
pub struct SharedTemplate {
    template: Arc<Template>,
}

impl Model for SharedTemplate {
    ghost use Rattle.liquid_grammar.specs.Trees.{Tree};
    ghost use Rattle.liquid_parse.specs.contracts.node.Node.{the_row};
    ghost use Rattle.liquid_parse.specs.TreeCode.{tree_code};
    ghost use Rattle.std.specs.Arc.{arc_value};

    ghost Value = { Tree };

    ghost coded = { tree_code the_row.coded };

    ghost view = { λ shared. arc_value shared.template };
}

impl SharedTemplate {
    /// The template, with one holder.
    fn of(alloc: Global, template: Template) -> Result<SharedTemplate, Memory>
        ensures { IfOk result (λ shared. shared ≡ template) }
    {
        match Arc::new(alloc, template) {
            Ok(template) => Ok(SharedTemplate { template }),
            Err(_) => Err(Memory),
        }
    }

    /// A further holder of the same template.
    pub fn share(&self) -> Result<SharedTemplate, Memory>
        ensures { IfOk result (λ shared. shared ≡ self.now) }
    {
        match self.template.clone() {
            Ok(template) => Ok(SharedTemplate { template }),
            Err(_) => Err(Memory),
        }
    }

    /// The nodes of the template, one after another.
    pub fn nodes(&self) -> &[Node]
        ensures nodes { result.now ≡ flat self.now }
        ensures flat { IsFlat result.now }
    {
        self.template.as_ref().nodes()
    }
}

// A text that is a template, which clauses see as the text.
#[derive(Drop)]
struct Parsed {
    text: Text,
    template: SharedTemplate,
}

impl Model for Parsed {
    ghost use Rattle.std.specs.Prelude.{◌≡◌, List, ℕ, Ok};
    ghost use Rattle.liquid_grammar.specs.Trees.{tree};

    ghost Value = { List ℕ };

    ghost view = { λ parsed. parsed.text };

    ghost invariant = { λ parsed. tree parsed.text ≡ Ok parsed.template };
}

impl Parsed {
    fn is_of(&self, text: &Text) -> bool
        ensures { IsTrue result ↔ (self.now ≡ text.now) }
    {
        self.text.as_bytes() == text.as_bytes()
    }

    fn template(&self) -> Result<SharedTemplate, Memory>
        ensures { IfOk result (λ template. tree self.now ≡ Ok template) }
    {
        self.template.share()
    }
}

/// Templates by their texts: what was parsed once is found again. Clauses see nothing of it, as what it answers depends on the
/// text alone.
#[derive(Drop)]
pub struct Templates {
    // By the fingerprints of their texts. Of two texts with one fingerprint, of which nobody knows any, the later is kept.
    parsed: BTreeMap<u64, Parsed>,
}

impl Model for Templates {
    ghost Value = { Unit {0} };

    ghost view = { λ _. tt };
}

impl Templates {
    /// No templates; it takes no memory.
    pub fn new(alloc: Global) -> Templates {
        Templates {
            parsed: BTreeMap::new(alloc),
        }
    }

    /// The template that a text is, or its first fault. It is parsed only where it was not found.
    pub fn template(&mut self, alloc: Global, text: &Text) -> Result<SharedTemplate, ParseError>
        ensures { Parses result (tree text.now) }
    {
        let print = fingerprint(text);
        if let Some(template) = self.found(print, text)? {
            return Ok(template);
        }
        let template = SharedTemplate::of(alloc, parse(alloc, text.as_str())?)?;
        let parsed = Parsed {
            text: text.share(alloc)?,
            template: template.share()?,
        };
        self.parsed.insert(print, parsed)?;
        Ok(template)
    }

    // The template that is kept of the text with this fingerprint.
    fn found(&self, print: u64, text: &Text) -> Result<Option<SharedTemplate>, Memory>
        ensures { IfOk result (λ found. IfSome found (λ template. tree text.now ≡ Ok template)) }
    {
        match self.parsed.get(&print) {
            Some(parsed) if parsed.is_of(text) => Ok(Some(parsed.template()?)),
            _ => Ok(None),
        }
    }
}

// A number that two texts hardly share: nobody knows how to choose two that do.
fn fingerprint(text: &Text) -> u64
    ensures { result ≡ fingerprint text.now }
{
    let mut hasher = DefaultHasher::new();
    hasher.write(text.as_bytes());
    hasher.finish()
}
