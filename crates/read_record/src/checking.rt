// Whether a record still agrees with a world.
ghost use Rattle.std.specs.Prelude.{◌≡◌, ◌<◌, ℕ, length};
ghost use Rattle.read_record.specs.declared.key.Key.{Key};
ghost use Rattle.site_base.specs.declared.faults.SiteFault.{SiteFault};
ghost use Rattle.read_record.specs.Queries.{Query, Met, Missed, Missing, interpret};
ghost use Rattle.read_record.specs.Records.{first_other, Certifies, Misses};
ghost use Rattle.read_record.specs.Outcomes.{Page};

use crate::{Agreement, Checked, Finished, Record, World};

/// Whether the world still gives a reader what was seen, up to the first key that it does not; it takes no memory.
pub fn check<W: World, F: Finished>(reads: &Record, world: &W, reader: u32, outs: &F) -> Checked
    requires { reader < length (W.names world.now) }
    ensures first { result ≡ first_other reads.now (W.sight world.now reader (F.outcomes outs.now)) }

    // Where the record agrees, what it certifies of a query is what the query gives over the world's view.
    ensures carries { result ≡ Checked.Agrees → (query : Query SiteFault Page) (met : Met SiteFault Page)
        → Certifies reads.now query met → interpret (W.sight world.now reader (F.outcomes outs.now)) query ≡ met }
    // And where it lacks a key that the world lacks too, that key is what the query lacks.
    ensures carries_miss { result ≡ Checked.Agrees → (query : Query SiteFault Page) (key : Key) (item : ℕ)
        → Misses reads.now query key → W.sight world.now reader (F.outcomes outs.now) key ≡ Missing item
        → interpret (W.sight world.now reader (F.outcomes outs.now)) query ≡ Missed key item }
{
    for place in 0..reads.len() {
        let (key, seen) = reads.at(place);
        match world.agrees(reader, key, outs, seen) {
            Agreement::Same => {}
            Agreement::Other => return Checked::Differs(place),
            Agreement::Needs(item) => return Checked::Needs(item),
        }
    }
    Checked::Agrees
}
