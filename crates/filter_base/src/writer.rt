// Text that is being made.
use crate::limits::MOST_TEXT;
use crate::stop::Stop;
use site_base::{FaultKind, Memory, Text, Value, value_text};
use std::alloc::Global;
use std::marker::Model;

/// Text that is being made, which clauses see as its bytes. It grows no longer than a text may be.
#[derive(Drop)]
pub struct Writer {
    text: String,
}

impl Model for Writer {
    ghost use Rattle.std.specs.Prelude.{List, ℕ};
    ghost use Rattle.std.specs.String.{string_bytes};

    ghost Value = { List ℕ };

    ghost view = { λ writer. string_bytes writer.text };
}

impl Writer {
    ghost use Rattle.std.specs.Prelude.{◌≡◌, ◌++◌, [], IfOk, length};
    ghost use Rattle.site_base.specs.Values.{value_text};
    ghost use Rattle.site_base.specs.View.{plain};
    ghost use Rattle.filter_base.specs.Writing.{Writes};

    /// Nothing written; it takes no memory.
    pub fn new(alloc: Global) -> Writer
        ensures { result ≡ [] }
    {
        Writer {
            text: String::new(alloc),
        }
    }

    /// How many bytes were written.
    pub fn len(&self) -> usize
        ensures { result ≡ length self.now }
    {
        self.text.len()
    }

    /// Adds a text at the end. OutputTooLong comes exactly where there would be more than a text may have.
    pub fn push(&mut self, text: &str) -> Result<(), Stop>
        ensures { Writes self.old self.new text.now result }
    {
        if self.text.len() as u128 + text.len() as u128 > MOST_TEXT as u128 {
            return Err(Stop::Fault(FaultKind::OutputTooLong));
        }
        match self.text.push_str(text) {
            Ok(()) => Ok(()),
            Err(_) => Err(Stop::Memory),
        }
    }

    /// Adds two texts at the end, with the same fault.
    pub fn push_both(&mut self, first: &str, second: &str) -> Result<(), Stop>
        ensures { Writes self.old self.new (first.now ++ second.now) result }
    {
        self.push(first)?;
        self.push(second)
    }

    /// Adds the text of a value at the end, with the same fault.
    pub fn push_value(&mut self, alloc: Global, value: &Value) -> Result<(), Stop>
        ensures { Writes self.old self.new (value_text (plain value.now)) result }
    {
        match value_text(alloc, value) {
            Ok(text) => self.push(text.as_str()),
            Err(_) => Err(Stop::Memory),
        }
    }

    /// What was written.
    pub fn finish(self) -> Result<Text, Memory>
        ensures { IfOk result (λ text. text ≡ self) }
    {
        Text::from_string(self.text)
    }
}
