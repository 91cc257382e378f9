// Look-ups.
ghost use Rattle.std.specs.Prelude.{◌≡◌};
ghost use Rattle.read_record.specs.Queries.{View, Trace};
ghost use Rattle.read_record.specs.Forms.{IsFormed};
ghost use Rattle.read_record.specs.Answers.{IsNoted};

use crate::Key;
use site_base::Value;
use std::alloc::Global;

/// What a look-up answers.
#[derive(Drop)]
pub enum Answer {
    Seen(Value),
    /// This item has to be done first.
    Needs(u32),
    Memory,
}

/// It answers keys by one view, which its calls do not change. It may keep what it answered.
pub trait Look {
    ghost view: { Self → View };

    // The reads so far, where it keeps them.
    ghost trace: { Self → Trace };

    fn look(&mut self, alloc: Global, key: &Key) -> Answer
        ensures same { view self.new ≡ view self.old }
        ensures noted { IsNoted (view self.old key.now) key.now (trace self.old) result (trace self.new) };

    // What a key gives has the key's form.
    ghost formed: { (look : Self) → IsFormed (view look) };
}
