// What a render looks up, written down by the test itself.
ghost use Rattle.std.specs.Prelude.{◌≡◌, ◌<◌, None, length};
ghost use Rattle.site_base.specs.View.{plain};
ghost use Rattle.read_record.specs.Queries.{Known};

use read_record::{Answer, Finished, Key, Look, Outcome, World};
use site_base::{Memory, Sequence, Value, code, same_code};
use std::alloc::Global;

/// The outcomes of the first items.
#[derive(Drop)]
pub(crate) struct Done {
    outs: Sequence<Outcome>,
}

impl Finished for Done {
    ghost use Rattle.std.specs.Prelude.{slice_get};

    ghost outcomes = { λ done. slice_get done.outs };

    fn done(&self, item: u32) -> Option<&Outcome> {
        self.outs.as_slice().get(item as usize)
    }
}

impl Done {
    pub(crate) fn new(alloc: Global) -> Done {
        Done {
            outs: Sequence::new(alloc),
        }
    }

    /// Adds the outcome of the next item.
    pub(crate) fn add(&mut self, alloc: Global, outcome: &Outcome) -> Result<(), Memory> {
        self.outs.push(outcome.copy(alloc)?)
    }
}

/// A key that was looked up, and the code of what it gave.
#[derive(Drop)]
pub(crate) struct Read {
    key: Key,
    seen: Vec<u8>,
}

/// The look of an item over a world. It writes down each look-up.
#[derive(Drop)]
pub(crate) struct Witness<'a, W: World, F: Finished> {
    world: &'a W,
    reader: u32,
    outs: &'a F,
    reads: Vec<Read>,
    ghost in_range: { reader < length (W.names world.now) },
}

impl<'a, W: World, F: Finished> Witness<'a, W, F> {
    pub(crate) fn new(alloc: Global, world: &'a W, reader: u32, outs: &'a F) -> Witness<'a, W, F>
        requires { reader < length (W.names world.now) }
    {
        Witness {
            world,
            reader,
            outs,
            reads: Vec::new(alloc),
        }
    }

    pub(crate) fn into_reads(self) -> Vec<Read> {
        self.reads
    }

    fn note(&mut self, alloc: Global, key: &Key, value: &Value) -> Result<(), Memory>
        ensures world { self.new.world.now ≡ self.old.world.now }
        ensures reader { self.new.reader ≡ self.old.reader }
        ensures outs { self.new.outs.now ≡ self.old.outs.now }
    {
        let key = key.copy(alloc)?;
        let seen = code(alloc, value)?;
        self.reads.push(Read { key, seen })?;
        Ok(())
    }
}

impl<'a, W: World, F: Finished> Look for Witness<'a, W, F> {
    ghost view = { λ s. W.sight s.world.now s.reader (F.outcomes s.outs.now) };

    ghost trace = { λ s. None };

    ghost formed = { λ s. W.formed s.world.now s.reader (F.outcomes s.outs.now) };

    fn look(&mut self, alloc: Global, key: &Key) -> Answer {
        match self.world.look(alloc, self.reader, key, self.outs) {
            Answer::Seen(value) => match self.note(alloc, key, &value) {
                Ok(()) => Answer::Seen(value),
                Err(_) => Answer::Memory,
            },
            Answer::Needs(item) => Answer::Needs(item),
            Answer::Memory => Answer::Memory,
        }
    }
}

/// Whether each look-up gives what it gave.
pub(crate) fn agree<W: World, F: Finished>(
    alloc: Global,
    reads: &[Read],
    world: &W,
    reader: u32,
    outs: &F,
) -> bool
    requires { reader < length (W.names world.now) }
{
    for read in reads {
        if !agrees(alloc, read, world, reader, outs) {
            return false;
        }
    }
    true
}

fn agrees<W: World, F: Finished>(
    alloc: Global,
    read: &Read,
    world: &W,
    reader: u32,
    outs: &F,
) -> bool
    requires { reader < length (W.names world.now) }
{
    match world.look(alloc, reader, &read.key, outs) {
        Answer::Seen(value) => same_code(&value, read.seen.as_slice()),
        Answer::Needs(_) | Answer::Memory => false,
    }
}
