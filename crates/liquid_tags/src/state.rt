// What an evaluation carries along.
ghost use Rattle.std.specs.Prelude.{◌≡◌, OnOk};
ghost use Rattle.site_base.specs.View.{plain};
ghost use Rattle.site_base.specs.Values.{value_text};
ghost use Rattle.liquid_values.specs.Answers.{Settles};
ghost use Rattle.liquid_values.specs.Standing.{place_of};
ghost use Rattle.liquid_tags.specs.States.{nothing_yet, assign, written, text_written};

use filter_base::{MOST_TEXT, Writer};
use liquid_values::{Place, Stop};
use site_base::{FaultKind, Hash, Memory, SiteFault, Text, Value, value_text};
use std::alloc::Global;

/// The text so far, the variables that were assigned, the counters, and where cycles stand.
#[derive(Drop)]
pub struct State {
    pub out: Writer,
    pub assigned: Hash,
    pub counters: Hash,
    pub turns: Hash,
}

impl State {
    /// That with which each whole text starts.
    pub fn new(alloc: Global) -> State
        ensures { result ≡ nothing_yet }
    {
        State {
            out: Writer::new(alloc),
            assigned: Hash::new(alloc),
            counters: Hash::new(alloc),
            turns: Hash::new(alloc),
        }
    }

    /// Writes the text of a tag. OutputTooLong, at the tag, comes exactly where there would be more than a text may have.
    #[tactic(auto, using(crate::proofs::StateLaws::refuses, crate::proofs::StateLaws::pushes))]
    pub fn write<'a>(&mut self, alloc: Global, place: &Place<'a>, text: &str) -> Result<(), Stop>
        ensures { Settles (written (place_of place.now) text.now self.old) result self.new }
    {
        if self.is_too_long(text) {
            return Err(place.fault(alloc, FaultKind::OutputTooLong));
        }
        self.push(text)
    }

    /// Writes the text of a value, with the same fault.
    pub fn write_value<'a>(
        &mut self,
        alloc: Global,
        place: &Place<'a>,
        value: &Value,
    ) -> Result<(), Stop>
        ensures { Settles (written (place_of place.now) (value_text (plain value.now)) self.old) result self.new }
    {
        match value {
            Value::Text(text) => self.write(alloc, place, text.as_str()),
            _ => {
                let text = value_text(alloc, value)?;
                self.write(alloc, place, text.as_str())
            }
        }
    }

    /// Writes a piece of a template's text, unless it stands in a block that writes nothing. The same fault has no line here.
    #[tactic(auto, using(crate::proofs::StateLaws::refuses, crate::proofs::StateLaws::pushes))]
    pub fn write_piece<'a>(
        &mut self,
        alloc: Global,
        place: &Place<'a>,
        text: &str,
    ) -> Result<(), Stop>
        ensures { Settles (text_written (place_of place.now) text.now self.old) result self.new }
    {
        if place.quiet {
            return Ok(());
        }
        if self.is_too_long(text) {
            return Err(Stop::Fault(SiteFault {
                path: place.file.copy(alloc)?,
                line: 0,
                kind: FaultKind::OutputTooLong,
            }));
        }
        self.push(text)
    }

    /// Gives a variable a value.
    pub fn assign(&mut self, alloc: Global, name: &Text, value: Value) -> Result<(), Memory>
        ensures { OnOk result (self.new ≡ assign name.now (plain value) self.old) }
    {
        self.assigned.set(name.share(alloc)?, value.into_shared()?)
    }
}

impl State {
    ghost use Rattle.std.specs.Prelude.{◌≡◌, ◌+◌, ◌++◌, OnOk, nat_lt, length};
    ghost use Rattle.filter_base.specs.Limits.{most_text};
    ghost use Rattle.liquid_tags.specs.States.{with_out};
    ghost use Rattle.liquid_tags.specs.Answers.{Pushes};

    // With this there would be more than a text may have.
    fn is_too_long(&self, text: &str) -> bool
        ensures { result ≡ nat_lt most_text (length self.now.out + length text.now) }
    {
        self.out.len() as u128 + text.len() as u128 > MOST_TEXT as u128
    }

    fn push(&mut self, text: &str) -> Result<(), Stop>
        ensures { Pushes (with_out (self.old.out ++ text.now) self.old) result self.new }
    {
        match self.out.push(text) {
            Ok(()) => Ok(()),
            Err(_) => Err(Stop::Memory),
        }
    }
}
