// A look that keeps nothing of what it answers.
ghost use Rattle.std.specs.Prelude.{◌≡◌, ◌<◌, None, length};

use read_record::{Answer, Finished, Key, Look, World};
use std::alloc::Global;

/// The look of a reader over a world.
#[derive(Drop)]
pub(crate) struct PlainLook<'a, W: World, F: Finished> {
    world: &'a W,
    reader: u32,
    outs: &'a F,
    ghost in_range: { reader < length (W.names world.now) },
}

impl<'a, W: World, F: Finished> PlainLook<'a, W, F> {
    pub(crate) fn new(world: &'a W, reader: u32, outs: &'a F) -> PlainLook<'a, W, F>
        requires { reader < length (W.names world.now) }
        ensures world { result.world.now ≡ world.now }
        ensures reader { result.reader ≡ reader }
        ensures outs { result.outs.now ≡ outs.now }
    {
        PlainLook {
            world,
            reader,
            outs,
        }
    }
}

impl<'a, W: World, F: Finished> Look for PlainLook<'a, W, F> {
    ghost view = { λ s. W.sight s.world.now s.reader (F.outcomes s.outs.now) };

    ghost trace = { λ _. None };

    ghost formed = { λ s. W.formed s.world.now s.reader (F.outcomes s.outs.now) };

    fn look(&mut self, alloc: Global, key: &Key) -> Answer {
        self.world.look(alloc, self.reader, key, self.outs)
    }
}
