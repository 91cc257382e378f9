// The nodes of a text that still wait for another, by their places.
ghost use Rattle.std.specs.Prelude.{◌≡◌, ◌++◌, ◌-◌, ◌&&◌, [], ◌∷◌, OnOk, if◌then◌else◌, length, not, take};
ghost use Rattle.cm_inlines.specs.Places.{Adds, change_each};
ghost use Rattle.cm_inlines.specs.declared.changes.Change.TheVariants.{Calm};

use crate::changes::{Change, change_each};
use crate::node::{Node, Opening};
use cm_spans::Span;
use site_base::Memory;
use std::alloc::Global;

/// The places of what may still open or close something, each list in order.
#[derive(Drop)]
pub(crate) struct Delimiters {
    /// Runs of marks.
    pub runs: Vec<usize>,
    /// Opening brackets.
    pub brackets: Vec<usize>,
    /// Those of them that may begin a link.
    pub links: Vec<usize>,
}

impl Delimiters {
    pub fn new(alloc: Global) -> Delimiters
        ensures runs { result.runs.items ≡ [] }
        ensures brackets { result.brackets.items ≡ [] }
        ensures links { result.links.items ≡ [] }
    {
        Delimiters {
            runs: Vec::new(alloc),
            brackets: Vec::new(alloc),
            links: Vec::new(alloc),
        }
    }

    /// Takes in a span whose first node comes to a place.
    pub fn add(&mut self, span: &Span, place: usize) -> Result<(), Memory>
        ensures { OnOk result (Adds self.old self.new span.now place) }
    {
        match span {
            Span::Run(_) => push_place(&mut self.runs, place),
            Span::Bracket => self.add_bracket(false, place),
            Span::ImageBracket => self.add_bracket(true, place),
            _ => Ok(()),
        }
    }

    fn add_bracket(&mut self, is_image: bool, place: usize) -> Result<(), Memory>
        ensures runs { OnOk result (self.new.runs.items ≡ self.old.runs.items) }
        ensures brackets { OnOk result (self.new.brackets.items ≡ self.old.brackets.items ++ place ∷ []) }
        ensures links { OnOk result (self.new.links.items ≡ self.old.links.items ++ (if is_image then [] else place ∷ [])) }
    {
        push_place(&mut self.brackets, place)?;
        if is_image {
            return Ok(());
        }
        push_place(&mut self.links, place)
    }

    /// The last bracket is done with.
    pub fn remove_bracket(&mut self, opening: Opening)
        ensures runs { self.new.runs.items ≡ self.old.runs.items }
        ensures brackets { self.new.brackets.items ≡ take (length self.old.brackets.items - 1) self.old.brackets.items }
        ensures links { self.new.links.items ≡ (if opening.is_active && not opening.is_image then take (length self.old.links.items - 1) self.old.links.items else self.old.links.items) }
    {
        self.brackets.pop();
        if opening.is_active && !opening.is_image {
            self.links.pop();
        }
    }

    /// The brackets of links begin nothing any more.
    pub fn calm(&mut self, nodes: &mut Vec<Node>)
        ensures value { nodes.new.items ≡ change_each Calm self.old.links.items nodes.old.items }
        ensures runs { self.new.runs.items ≡ self.old.runs.items }
        ensures brackets { self.new.brackets.items ≡ self.old.brackets.items }
        ensures links { self.new.links.items ≡ [] }
    {
        change_each(nodes, self.links.as_slice(), Change::Calm);
        self.links.clear();
    }
}

/// Adds a place to a list.
pub(crate) fn push_place(places: &mut Vec<usize>, place: usize) -> Result<(), Memory>
    ensures { OnOk result (places.new.items ≡ places.old.items ++ place ∷ []) }
{
    match places.push(place) {
        Ok(()) => Ok(()),
        Err(_) => Err(Memory),
    }
}
