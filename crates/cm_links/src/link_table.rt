// The link reference definitions of a document.
ghost use Rattle.std.specs.Prelude.{◌≡◌, ◌++◌, [], ◌∷◌, IfOk, OnOk, OnErr, option_map, map, string_bytes};
ghost use Rattle.markdown_grammar.specs.Definitions.{look_up};
ghost use Rattle.markdown_grammar.specs.Labels.{label_key};
ghost use Rattle.cm_links.specs.Table.{NotesFirst, SamePlaces, definition_of, target};

use crate::definitions::LinkDef;
use crate::label::folded_label;
use site_base::Memory;
use std::alloc::Global;
use std::collections::HashMap;
use std::marker::Model;

/// The link reference definitions of a document, which clauses see as the list of them, in order. A
/// label is found in a time that does not grow with their number.
#[derive(Drop)]
pub struct Links {
    definitions: Vec<LinkDef>,
    /// By a folded label, the place of the first definition that has it.
    places: HashMap<String, usize>,
}

impl Model for Links {
    ghost use Rattle.std.specs.Prelude.{List, map};
    ghost use Rattle.markdown_grammar.specs.Definitions.{Definition};
    ghost use Rattle.cm_links.specs.Table.{IsIndex, definition_of};

    ghost Value = { List Definition };

    ghost view = { λ a. map definition_of a.definitions.items };

    ghost invariant = { λ a. IsIndex a.places (map definition_of a.definitions.items) };
}

impl Links {
    /// No definitions; it takes no memory.
    pub fn new(alloc: Global) -> Links
        ensures { result ≡ [] }
    {
        Links {
            definitions: Vec::new(alloc),
            places: HashMap::new(alloc),
        }
    }

    /// Adds a definition behind the others; where memory runs out they stay as they are.
    pub fn add(&mut self, alloc: Global, definition: LinkDef) -> Result<(), Memory>
        ensures ok { OnOk result (self.new ≡ self.old ++ definition_of definition ∷ []) }
        ensures err { OnErr result (self.new ≡ self.old) }
    {
        let key = folded_label(alloc, definition.label.as_str())?;
        let place = self.definitions.len();
        match self.definitions.push(definition) {
            Ok(()) => (),
            Err(_) => return Err(Memory),
        }
        match note_first(&mut self.places, key, place) {
            Ok(()) => Ok(()),
            Err(_) => {
                let _ = self.definitions.pop();
                Err(Memory)
            }
        }
    }

    /// The first definition whose label matches, or none where none does.
    pub fn find(&self, alloc: Global, label: &str) -> Result<Option<&LinkDef>, Memory>
        ensures { IfOk result (λ found. option_map (λ definition. target definition.now) found ≡ look_up (label_key label.now) self.now) }
    {
        let key = folded_label(alloc, label)?;
        match self.places.get(key.as_str()) {
            Some(place) => Ok(Some(&self.definitions[*place])),
            None => Ok(None),
        }
    }
}

// Notes a place under a key that has none yet.
fn note_first(places: &mut HashMap<String, usize>, key: String, place: usize) -> Result<(), Memory>
    ensures ok { OnOk result (NotesFirst places.old places.new (string_bytes key) place) }
    ensures err { OnErr result (SamePlaces places.old places.new) }
{
    if places.contains_key(key.as_str()) {
        return Ok(());
    }
    match places.insert(key, place) {
        Ok(_) => Ok(()),
        Err(_) => Err(Memory),
    }
}
