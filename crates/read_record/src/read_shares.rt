// What the records of one worker share.
ghost use Rattle.std.specs.Prelude.{◌≡◌, IfOk, IfSome};

use crate::fresh_read::FreshRead;
use crate::seen_code::SeenCode;
use crate::shared_key::TableKey;
use crate::{Key, SharedKey};
use indexmap::IndexMap;
use site_base::Memory;
use std::alloc::Global;
use std::marker::Model;

/// Of each key that records of one worker noted a holder, and of the code that was last seen with it another one: so that all of
/// these records hold one key and one code. Clauses see nothing of it, as what it answers does not depend on what it has.
pub struct ReadShares {
    reads: IndexMap<TableKey<'static>, FreshRead>,
}

// A call of its own, so that no proof goes through the map where shares are dropped.
impl Drop for ReadShares {
    fn drop(self) {
        let ReadShares { reads: _ } = self;
    }
}

impl Model for ReadShares {
    ghost use Rattle.read_record.specs.KeyLayout.{HoldsItsKeys};

    ghost Value = { Unit {0} };

    ghost view = { λ _. tt };

    ghost invariant = { λ shares. HoldsItsKeys shares.reads.entries };
}

impl ReadShares {
    /// The shares of no reads; it takes no memory.
    pub fn new(alloc: Global) -> ReadShares {
        ReadShares {
            reads: IndexMap::new(alloc),
        }
    }

    /// A read of this key at which this code was seen: where both were noted before, of the same bytes, a further holder of what was
    /// noted, else what others will share. The one error is want of memory.
    pub(crate) fn share(
        &mut self,
        alloc: Global,
        key: &Key,
        seen: SeenCode,
    ) -> Result<FreshRead, Memory>
        ensures { IfOk result (λ read. read ≡ (key.now, seen)) }
    {
        match self.find(key)? {
            Some(noted) => self.renew(noted, seen),
            None => self.start(alloc, key, seen),
        }
    }

    /// The same with a code that the world keeps, of which each record has a holder anyway: so its bytes, which may be many, are not
    /// compared.
    pub(crate) fn share_key(
        &mut self,
        alloc: Global,
        key: &Key,
        kept: SeenCode,
    ) -> Result<FreshRead, Memory>
        ensures { IfOk result (λ read. read ≡ (key.now, kept)) }
    {
        match self.find(key)? {
            Some(noted) => self.keep(noted.with_code(kept)),
            None => self.start(alloc, key, kept),
        }
    }

    // Notes the first read of a key.
    fn start(&mut self, alloc: Global, key: &Key, seen: SeenCode) -> Result<FreshRead, Memory>
        ensures { IfOk result (λ read. read ≡ (key.now, seen)) }
    {
        let key = SharedKey::new(alloc, key.copy(alloc)?)?;
        self.keep(FreshRead::new(key, seen))
    }

    // What was last noted of a key.
    fn find(&self, key: &Key) -> Result<Option<FreshRead>, Memory>
        ensures { IfOk result (λ found. IfSome found (λ read. read.0 ≡ key.now)) }
    {
        match self.reads.get(&TableKey::Asked(key)) {
            Some(noted) => Ok(Some(noted.share()?)),
            None => Ok(None),
        }
    }

    // What was noted, where its code has these bytes; else its key with this code, which takes its place.
    fn renew(&mut self, noted: FreshRead, seen: SeenCode) -> Result<FreshRead, Memory>
        ensures { IfOk result (λ read. read ≡ (noted.0, seen)) }
    {
        if noted.code() == seen.as_slice() {
            return Ok(noted);
        }
        self.keep(noted.with_code(seen))
    }

    // Notes a read.
    fn keep(&mut self, read: FreshRead) -> Result<FreshRead, Memory>
        ensures { IfOk result (λ kept. kept ≡ read) }
    {
        let key = TableKey::Kept(read.key().share()?);
        self.reads.insert(key, read.share()?)?;
        Ok(read)
    }
}
