// Whether a record by numbers of a store still agrees with a world.
ghost use Rattle.std.specs.Prelude.{◌≡◌, ◌<◌, ℕ, length};
ghost use Rattle.read_record.specs.declared.key.Key.{Key};
ghost use Rattle.site_base.specs.declared.faults.SiteFault.{SiteFault};
ghost use Rattle.read_record.specs.Queries.{Query, Met, Missed, Missing, interpret};
ghost use Rattle.read_record.specs.Records.{first_other, Certifies, Misses};
ghost use Rattle.read_record.specs.Outcomes.{Page};
ghost use Rattle.read_record.specs.Stores.{resolved, Has};

use crate::{Agreement, Checked, Finished, NumberedRecord, ReadStore, World};

/// What `check` tells, of a record by numbers of a store; it takes no memory.
pub fn check_numbers<W: World, F: Finished>(
    reads: &NumberedRecord,
    store: &ReadStore,
    world: &W,
    reader: u32,
    outs: &F,
) -> Checked
    requires in_range { reader < length (W.names world.now) }
    requires held { Has store.now reads.now }
    ensures first { result ≡ first_other (resolved store.now reads.now) (W.sight world.now reader (F.outcomes outs.now)) }
    ensures carries { result ≡ Checked.Agrees → (query : Query SiteFault Page) (met : Met SiteFault Page)
        → Certifies (resolved store.now reads.now) query met → interpret (W.sight world.now reader (F.outcomes outs.now)) query ≡ met }
    ensures carries_miss { result ≡ Checked.Agrees → (query : Query SiteFault Page) (key : Key) (item : ℕ)
        → Misses (resolved store.now reads.now) query key → W.sight world.now reader (F.outcomes outs.now) key ≡ Missing item
        → interpret (W.sight world.now reader (F.outcomes outs.now)) query ≡ Missed key item }
{
    for place in 0..reads.len() {
        let read = reads.at(place);
        match world.agrees(reader, store.key(read), outs, store.code(read)) {
            Agreement::Same => {}
            Agreement::Other => return Checked::Differs(place),
            Agreement::Needs(item) => return Checked::Needs(item),
        }
    }
    Checked::Agrees
}
