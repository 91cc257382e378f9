// Whether a record by numbers still agrees with a world, with notes of what was found before.
ghost use Rattle.std.specs.Prelude.{◌≡◌, ◌<◌, ℕ, length};
ghost use Rattle.text_pool.specs.Texts.{bytes_of, count_of};
ghost use Rattle.read_record.specs.declared.key.Key.{Key};
ghost use Rattle.site_base.specs.declared.faults.SiteFault.{SiteFault};
ghost use Rattle.read_record.specs.Queries.{Query, Met, Missed, Missing, interpret};
ghost use Rattle.read_record.specs.Records.{agreement_of, first_other, Certifies, Misses};
ghost use Rattle.read_record.specs.Outcomes.{Page};
ghost use Rattle.read_record.specs.Stores.{key_of, resolved, uses_of, Has};
ghost use Rattle.read_record.specs.Noted.{AreRight};

use crate::notes::{Notes, Verdict};
use crate::read_store::{NumberedRead, ReadStore};
use crate::{Agreement, Checked, Finished, NumberedRecord, World};

/// What `check` tells, of a record by numbers of a store. What is found of a read that all who ask find alike is noted, and not looked
/// up again. It takes no memory.
pub fn check_noted<W: World, F: Finished>(
    reads: &NumberedRecord,
    store: &ReadStore,
    notes: &mut Notes,
    world: &W,
    reader: u32,
    outs: &F,
) -> Checked
    requires in_range { reader < length (W.names world.now) }
    requires held { Has store.now reads.now }
    requires right { AreRight store.now (W.sight world.now) notes.old }
    ensures first { result ≡ first_other (resolved store.now reads.now) (W.sight world.now reader (F.outcomes outs.now)) }
    ensures carries { result ≡ Checked.Agrees → (query : Query SiteFault Page) (met : Met SiteFault Page)
        → Certifies (resolved store.now reads.now) query met → interpret (W.sight world.now reader (F.outcomes outs.now)) query ≡ met }
    ensures carries_miss { result ≡ Checked.Agrees → (query : Query SiteFault Page) (key : Key) (item : ℕ)
        → Misses (resolved store.now reads.now) query key → W.sight world.now reader (F.outcomes outs.now) key ≡ Missing item
        → interpret (W.sight world.now reader (F.outcomes outs.now)) query ≡ Missed key item }
    ensures right { AreRight store.now (W.sight world.now) notes.new }
{
    for place in 0..reads.len() {
        match found(reads.at(place), store, notes, world, reader, outs) {
            Agreement::Same => {}
            Agreement::Other => return Checked::Differs(place),
            Agreement::Needs(item) => return Checked::Needs(item),
        }
    }
    Checked::Agrees
}

/// Whether the world gives a read its value.
fn found<W: World, F: Finished>(
    read: &NumberedRead,
    store: &ReadStore,
    notes: &mut Notes,
    world: &W,
    reader: u32,
    outs: &F,
) -> Agreement
    requires in_range { reader < length (W.names world.now) }
    requires key { 0 < uses_of store.now.keys read.now.0 }
    requires code { 0 < count_of store.now.codes read.now.1 }
    requires right { AreRight store.now (W.sight world.now) notes.old }
    ensures found { result ≡ agreement_of (W.sight world.now reader (F.outcomes outs.now) (key_of store.now.keys read.now.0)) (bytes_of store.now.codes read.now.1) }
    ensures right { AreRight store.now (W.sight world.now) notes.new }
{
    match notes.of(read) {
        Verdict::Agrees => Agreement::Same,
        Verdict::Differs => Agreement::Other,
        Verdict::Unknown => asked(read, store, notes, world, reader, outs),
    }
}

/// The same by asking the world, which is noted.
fn asked<W: World, F: Finished>(
    read: &NumberedRead,
    store: &ReadStore,
    notes: &mut Notes,
    world: &W,
    reader: u32,
    outs: &F,
) -> Agreement
    requires in_range { reader < length (W.names world.now) }
    requires key { 0 < uses_of store.now.keys read.now.0 }
    requires code { 0 < count_of store.now.codes read.now.1 }
    requires right { AreRight store.now (W.sight world.now) notes.old }
    ensures found { result ≡ agreement_of (W.sight world.now reader (F.outcomes outs.now) (key_of store.now.keys read.now.0)) (bytes_of store.now.codes read.now.1) }
    ensures right { AreRight store.now (W.sight world.now) notes.new }
{
    let key = store.key(read);
    let found = world.agrees(reader, key, outs, store.code(read));
    notes.keep(key, read, found);
    found
}
