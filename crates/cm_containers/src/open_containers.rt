// The containers that are open.
ghost use Rattle.std.specs.Prelude.{◌≡◌, ◌++◌, ◌∷◌, ◌≤◌, [], OnOk, length, take};
ghost use Rattle.markdown_grammar.specs.Columns.{own_line};
ghost use Rattle.cm_containers.specs.Entries.{entered_at, matched_by};
ghost use Rattle.cm_containers.specs.Quoted.{is_quote, up_to_quote};
ghost use Rattle.cm_containers.specs.Spots.{IsSpot};

use crate::kinds::Container;
use crate::matching::{Entered, enter_all};
use site_base::Memory;
use std::alloc::Global;
use std::marker::Model;

/// The containers that are open, the innermost last, which clauses see as their list. How many stand up
/// to the innermost quote is known without a look at them: behind it, a line goes on with items alone.
#[derive(Drop)]
pub struct OpenContainers {
    containers: Vec<Container>,
    quoted: usize,
}

impl Model for OpenContainers {
    ghost use Rattle.std.specs.Prelude.{List, ◌≡◌};
    ghost use Rattle.cm_containers.specs.declared.kinds.Container.{Container};
    ghost use Rattle.cm_containers.specs.Quoted.{up_to_quote};

    ghost Value = { List Container };

    ghost view = { λ open_ones. open_ones.containers.items };

    ghost invariant = { λ open_ones. open_ones.quoted ≡ up_to_quote open_ones.containers.items };
}

impl OpenContainers {
    /// No containers; it takes no memory.
    pub fn new(alloc: Global) -> OpenContainers
        ensures { result ≡ [] }
    {
        OpenContainers {
            containers: Vec::new(alloc),
            quoted: 0,
        }
    }

    pub fn len(&self) -> usize
        ensures { result ≡ length self.now }
    {
        self.containers.len()
    }

    pub fn as_slice(&self) -> &[Container]
        ensures { result.now ≡ self.now }
    {
        self.containers.as_slice()
    }

    /// How many of them a line without its line end goes on with, each by its own rule, and where its rest
    /// begins. `is_filled` says whether the innermost has a block; all others have one. That a line may be
    /// lazy is not looked at here. CommonMark 0.31.2, sections 2.2, 5.1 and 5.2.
    pub fn enter(&self, is_filled: bool, line: &str) -> Entered
        ensures value { entered_at line.now result ≡ matched_by is_filled self.now (own_line 0 line.now) }
        ensures spot { IsSpot line.now result.spot }
        ensures kept { result.kept ≤ length self.now }
    {
        enter_all(&self.containers, self.quoted, is_filled, line)
    }

    /// One more container, as the innermost.
    pub fn push(&mut self, container: Container) -> Result<(), Memory>
        ensures { OnOk result (self.new ≡ self.old ++ container ∷ []) }
    {
        self.containers.push(container)?;
        if is_quote(container) {
            self.quoted = self.containers.len();
        }
        Ok(())
    }

    /// Only the outermost containers stay. The last quote is looked for only where one goes.
    pub fn truncate(&mut self, kept: usize)
        ensures { self.new ≡ take kept self.old }
    {
        self.containers.truncate(kept);
        if kept < self.quoted {
            self.quoted = up_to_quote(&self.containers);
        }
    }
}

fn is_quote(container: Container) -> bool
    ensures { result ≡ is_quote container }
{
    matches!(container, Container::Quote)
}

// How many containers stand up to the innermost quote, which is looked for from the innermost on.
fn up_to_quote(containers: &[Container]) -> usize
    ensures { result ≡ up_to_quote containers.now }
{
    let mut end = containers.len();
    while end > 0 {
        if is_quote(containers[end - 1]) {
            return end;
        }
        end -= 1;
    }
    0
}
