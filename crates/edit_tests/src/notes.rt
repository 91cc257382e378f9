// Which items a build has to render, found by the test itself.
ghost use Rattle.std.specs.Prelude.{◌≡◌, ◌<◌, length};
ghost use Rattle.site_dates.specs.Moment.{IsMoment};
ghost use Rattle.site_reader.specs.Lawful.{IsLawful};

use crate::building::SETTINGS;
use crate::witness::{Done, Read, Witness, agree};
use page_render::PageRenderer;
use read_record::{Outcome, Rendered, Renderer, Tally, World};
use site_base::ItemName;
use site_reader::{Site, SiteError, read_site};
use site_world::SiteWorld;
use source_tree::Held;
use std::alloc::Global;

/// What is known of an item: what it looked up, and what it came to.
#[derive(Drop)]
struct Note {
    name: ItemName,
    reads: Vec<Read>,
    outcome: Outcome,
}

/// What is known of the items that were rendered last.
#[derive(Drop)]
pub(crate) struct Notes {
    notes: Vec<Note>,
}

/// What a build has to do.
#[derive(Clone, Copy)]
pub(crate) struct Due {
    /// How many items are to be rendered, the first with a fault among them.
    pub(crate) rendered: u64,
    /// How many items there are.
    pub(crate) items: u64,
    pub(crate) has_fault: bool,
}

/// How it stands with an item.
enum Turn {
    Kept,
    Rendered,
    Faulty,
}

impl Notes {
    pub(crate) fn new(alloc: Global) -> Notes {
        Notes {
            notes: Vec::new(alloc),
        }
    }

    /// What the next build of these files has to do; it is taken as done.
    pub(crate) fn due(
        &mut self,
        alloc: Global,
        renderer: &PageRenderer,
        held: &Held,
        moment: i64,
    ) -> Option<Due>
        requires { IsMoment moment }
    {
        match read_site(alloc, held, moment, &SETTINGS) {
            Ok(site) => self.due_of_site(alloc, renderer, held, &site),
            Err(SiteError::Fault(_)) => Some(Due {
                rendered: 0,
                items: 0,
                has_fault: true,
            }),
            Err(SiteError::Memory) => None,
        }
    }

    fn due_of_site(
        &mut self,
        alloc: Global,
        renderer: &PageRenderer,
        held: &Held,
        site: &Site,
    ) -> Option<Due>
        requires { IsLawful held.now site.now }
    {
        if site.moment < 0 {
            return None;
        }
        match SiteWorld::new(alloc, site, held) {
            Ok(world) => self.due_of_items(alloc, renderer, &world),
            Err(_) => None,
        }
    }

    fn due_of_items<W: World>(
        &mut self,
        alloc: Global,
        renderer: &PageRenderer,
        world: &W,
    ) -> Option<Due> {
        let mut done = Done::new(alloc);
        let mut due = Due {
            rendered: 0,
            items: u64::from(world.items()),
            has_fault: false,
        };
        for item in 0..world.items() {
            match self.turn(alloc, renderer, world, item, &mut done)? {
                Turn::Kept => {}
                Turn::Rendered => due.rendered = due.rendered.saturating_add(1),
                Turn::Faulty => {
                    due.rendered = due.rendered.saturating_add(1);
                    due.has_fault = true;
                    return Some(due);
                }
            }
        }
        self.notes.retain(|note| is_there(world, &note.name));
        Some(due)
    }

    fn turn<W: World>(
        &mut self,
        alloc: Global,
        renderer: &PageRenderer,
        world: &W,
        item: u32,
        done: &mut Done,
    ) -> Option<Turn>
        requires { item < length (W.names world.now) }
    {
        let place = self.place_of(world.name(item));
        match self.notes.as_slice().get(place) {
            Some(note) if agree(alloc, note.reads.as_slice(), world, item, done) => {
                done.add(alloc, &note.outcome).ok()?;
                Some(Turn::Kept)
            }
            _ => {
                let note = rendered(alloc, renderer, world, item, done)?;
                self.keep(alloc, place, note, done)
            }
        }
    }

    // Keeps a note in place of the one that stands there, unless it ends with a fault.
    fn keep(&mut self, alloc: Global, place: usize, note: Note, done: &mut Done) -> Option<Turn> {
        if has_fault(&note.outcome) {
            return Some(Turn::Faulty);
        }
        done.add(alloc, &note.outcome).ok()?;
        if place < self.notes.len() {
            let _ = self.notes.swap_remove(place);
        }
        self.notes.push(note).ok()?;
        Some(Turn::Rendered)
    }

    // Where the note of an item stands, or the number of notes.
    fn place_of(&self, name: &ItemName) -> usize {
        let mut place = 0;
        for note in &self.notes {
            if note.name == *name {
                return place;
            }
            place = place.wrapping_add(1);
        }
        place
    }
}

fn has_fault(outcome: &Outcome) -> bool {
    match outcome {
        Outcome::Done {
            content: _,
            output: _,
        } => false,
        Outcome::Fault(_) => true,
    }
}

fn is_there<W: World>(world: &W, name: &ItemName) -> bool {
    for item in 0..world.items() {
        if world.name(item) == name {
            return true;
        }
    }
    false
}

// Renders an item, and writes down what it looks up.
fn rendered<W: World>(
    alloc: Global,
    renderer: &PageRenderer,
    world: &W,
    item: u32,
    done: &Done,
) -> Option<Note>
    requires { item < length (W.names world.now) }
{
    let name = world.name(item).copy(alloc).ok()?;
    let mut tally = Tally::new(alloc);
    let mut look = Witness::new(alloc, world, item, done);
    match renderer.render(alloc, &name, &mut look, &mut tally) {
        Rendered::Out(outcome) => Some(Note {
            name,
            reads: look.into_reads(),
            outcome,
        }),
        Rendered::Needs(_) | Rendered::Memory => None,
    }
}
