// Runs that may still open emphasis.
ghost use Rattle.std.specs.Prelude.{◌≡◌, ◌++◌, ◌+◌, ◌<◌, ◌^◌, [], ◌∷◌, Bool, MatchOption, OnOk, length, slice_get, take, ℕ};
ghost use Rattle.cm_inlines.specs.Pairing.{Nearest, NoneFrom, OpenerAt, Raised, floor_for, floor_of, kind, left_at};

use crate::delimiters::push_place;
use crate::node::{Node, Run};
use crate::runs::{opens_for, run_at};
use cm_spans::Mark;
use site_base::Memory;
use std::alloc::Global;

/// The runs before a place that nothing pairs, the nearest last.
#[derive(Drop)]
pub(crate) struct Openers {
    pub places: Vec<usize>,
    misses: Misses,
}

/// An opener, and which of the openers it is.
#[derive(Clone, Copy)]
pub(crate) struct Opener {
    pub index: usize,
    pub place: usize,
    pub run: Run,
}

impl Openers {
    pub fn new(alloc: Global) -> Openers
        ensures places { result.places.items ≡ [] }
        ensures floors { (mark first : ℕ) (opens : Bool) → floor_of result.misses mark first opens ≡ 0 }
    {
        Openers {
            places: Vec::new(alloc),
            misses: Misses {
                stars: [0; 6],
                underscores: [0; 6],
            },
        }
    }

    /// The nearest opener for a closer.
    pub fn find(&self, nodes: &[Node], closer: Run) -> Option<Opener>
        ensures { MatchOption result (NoneFrom nodes.now self.now.places.items closer (floor_for self.now.misses closer)) (λ opener. Nearest nodes.now self.now.places.items closer opener) }
    {
        let floor = self.misses.floor(closer);
        let mut k = self.places.len();
        while k > 0 && floor <= self.places[k - 1] {
            let place = self.places[k - 1];
            match opener_at(nodes, place, closer) {
                Some(run) => {
                    return Some(Opener {
                        index: k - 1,
                        place,
                        run,
                    });
                }
                None => k -= 1,
            }
        }
        None
    }

    /// Nothing before a place opens for closers like this one.
    pub fn miss(&mut self, closer: Run, place: usize)
        ensures places { self.new.places.items ≡ self.old.places.items }
        ensures floors { Raised self.old.misses self.new.misses closer place }
    {
        self.misses.raise(closer, place);
    }

    /// Those behind an opener are done with, and it too if all its marks are taken.
    pub fn cut(&mut self, opener: Opener, taken: usize)
        requires { opener.index < length self.old.places.items }
        ensures places { self.new.places.items ≡ take (left_at opener taken) self.old.places.items }
        ensures misses { self.new.misses ≡ self.old.misses }
    {
        let left = left_at(opener, taken);
        self.places.truncate(left);
    }

    /// A run that may still open.
    pub fn push(&mut self, place: usize) -> Result<(), Memory>
        ensures places { OnOk result (self.new.places.items ≡ self.old.places.items ++ place ∷ []) }
        ensures misses { self.new.misses ≡ self.old.misses }
    {
        push_place(&mut self.places, place)
    }
}

fn left_at(opener: Opener, taken: usize) -> usize
    requires { opener.index + 1 < 2 ^ 64 }
    ensures { result ≡ left_at opener taken }
{
    if taken < opener.run.len {
        opener.index + 1
    } else {
        opener.index
    }
}

// The run at a place, if it opens for a closer.
fn opener_at(nodes: &[Node], place: usize, closer: Run) -> Option<Run>
    ensures { OpenerAt closer (slice_get nodes.now place) result }
{
    match run_at(nodes, place) {
        Some(run) => {
            if opens_for(closer, run) {
                Some(run)
            } else {
                None
            }
        }
        None => None,
    }
}

/// Up to which place nothing opens for a kind of closer: its mark, whether it may open too, and its length at first
/// up to threes.
#[derive(Clone, Copy)]
struct Misses {
    stars: [usize; 6],
    underscores: [usize; 6],
}

impl Misses {
    fn floor(&self, closer: Run) -> usize
        ensures { result ≡ floor_for self.now closer }
    {
        match closer.mark {
            Mark::Star => self.stars[kind(closer)],
            Mark::Underscore => self.underscores[kind(closer)],
        }
    }

    fn raise(&mut self, closer: Run, place: usize)
        ensures { Raised self.old self.new closer place }
    {
        match closer.mark {
            Mark::Star => self.stars[kind(closer)] = place,
            Mark::Underscore => self.underscores[kind(closer)] = place,
        }
    }
}

fn kind(closer: Run) -> usize
    ensures value { result ≡ kind closer.first closer.opens }
    ensures within { result < 6 }
{
    let length = closer.first % 3;
    if closer.opens { 3 + length } else { length }
}
