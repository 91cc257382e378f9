// A look that keeps what it answered.
ghost use Rattle.std.specs.Prelude.{◌≡◌, ◌<◌, [], Some, IfOk, OnOk, length};
ghost use Rattle.site_base.specs.Code.{code};
ghost use Rattle.site_base.specs.View.{plain};
ghost use Rattle.read_record.specs.Queries.{Known, noted};

use crate::fresh_read::FreshRead;
use crate::record_builder::RecordBuilder;
use crate::seen_code::SeenCode;
use crate::{Answer, Finished, Key, Look, ReadShares, Record, World};
use site_base::{Memory, Value};
use std::alloc::Global;

/// The look of a reader over a world, which keeps what it answered.
#[derive(Drop)]
pub(crate) struct Recorder<'a, W: World, F: Finished> {
    world: &'a W,
    reader: u32,
    outs: &'a F,
    reads: RecordBuilder,
    shares: ReadShares,
    ghost in_range: { reader < length (W.names world.now) },
}

impl<'a, W: World, F: Finished> Recorder<'a, W, F> {
    pub(crate) fn new(
        alloc: Global,
        world: &'a W,
        reader: u32,
        outs: &'a F,
        shares: ReadShares,
    ) -> Recorder<'a, W, F>
        requires { reader < length (W.names world.now) }
        ensures world { result.world.now ≡ world.now }
        ensures reader { result.reader ≡ reader }
        ensures outs { result.outs.now ≡ outs.now }
        ensures reads { result.reads ≡ [] }
    {
        Recorder {
            world,
            reader,
            outs,
            reads: RecordBuilder::new(alloc),
            shares,
        }
    }

    /// The record of what was read, and the shares that were handed in, with what was noted since; it takes no memory.
    pub(crate) fn into_parts(self) -> (Record, ReadShares)
        ensures { result.0 ≡ self.entry.reads }
    {
        (self.reads.into_record(), self.shares)
    }

    // Notes what was seen, unless its key was read before.
    fn note(&mut self, alloc: Global, key: &Key, value: &Value) -> Result<(), Memory>
        requires seen { W.sight self.old.world.now self.old.reader (F.outcomes self.old.outs.now) key.now ≡ Known (plain value.now) }
        ensures world { self.new.world.now ≡ self.old.world.now }
        ensures reader { self.new.reader ≡ self.old.reader }
        ensures outs { self.new.outs.now ≡ self.old.outs.now }
        ensures ok { OnOk result (self.new.reads ≡ noted key.now (code (plain value.now)) self.old.reads) }
    {
        if self.reads.has(key) {
            return Ok(());
        }
        let read = self.read_of(alloc, key, value)?;
        self.reads.add(read)
    }

    // The read of what was seen: with a holder of its code, where the world keeps it.
    fn read_of(&mut self, alloc: Global, key: &Key, value: &Value) -> Result<FreshRead, Memory>
        requires seen { W.sight self.old.world.now self.old.reader (F.outcomes self.old.outs.now) key.now ≡ Known (plain value.now) }
        ensures world { self.new.world.now ≡ self.old.world.now }
        ensures reader { self.new.reader ≡ self.old.reader }
        ensures outs { self.new.outs.now ≡ self.old.outs.now }
        ensures reads { self.new.reads ≡ self.old.reads }
        ensures read { IfOk result (λ read. read ≡ (key.now, code (plain value.now))) }
    {
        match self.world.shared_code(alloc, self.reader, key, self.outs)? {
            Some(bytes) => self.shares.share_key(alloc, key, SeenCode::kept(bytes)),
            None => {
                let seen = SeenCode::of(alloc, value)?;
                self.shares.share(alloc, key, seen)
            }
        }
    }
}

impl<'a, W: World, F: Finished> Look for Recorder<'a, W, F> {
    ghost view = { λ s. W.sight s.world.now s.reader (F.outcomes s.outs.now) };

    ghost trace = { λ s. Some s.reads };

    ghost formed = { λ s. W.formed s.world.now s.reader (F.outcomes s.outs.now) };

    fn look(&mut self, alloc: Global, key: &Key) -> Answer {
        match self.world.look(alloc, self.reader, key, self.outs) {
            Answer::Seen(value) => match self.note(alloc, key, &value) {
                Ok(()) => Answer::Seen(value),
                Err(_) => Answer::Memory,
            },
            Answer::Needs(item) => Answer::Needs(item),
            Answer::Memory => Answer::Memory,
        }
    }
}
