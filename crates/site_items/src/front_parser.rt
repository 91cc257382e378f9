// Who reads the YAML of front matter.
ghost use Rattle.front_yaml.specs.Given.{Gives};
ghost use Rattle.front_yaml.specs.Yaml.{yaml};

use front_yaml::{YamlError, read_yaml};
use site_base::Value;
use std::alloc::Global;

/// Who reads the YAML of front matter: for whoever wants to see what is read.
pub trait FrontParser {
    /// The value of a text, or its first fault, as `read_yaml` answers.
    fn read(&mut self, alloc: Global, text: &str) -> Result<Value, YamlError>
        ensures { Gives result (yaml text.now) };
}

/// The reader of YAML itself.
#[derive(Drop)]
pub struct PlainParser;

impl FrontParser for PlainParser {
    fn read(&mut self, alloc: Global, text: &str) -> Result<Value, YamlError> {
        read_yaml(alloc, text)
    }
}
