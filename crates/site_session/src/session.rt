// A session.
ghost use Rattle.std.specs.Prelude.{◌≡◌, ◌⊎◌, ◌≤◌, ℕ, Some, OnOk, OnErr, IfOk, MatchResult, true};
ghost use Rattle.std.specs.FinMap as map;
ghost use Rattle.site_base.specs.Places.{Files};
ghost use Rattle.site_base.specs.Ends.{HasCauseOf, Rose};
ghost use Rattle.source_tree.specs.Put.{put_refusal};
ghost use Rattle.site_base.specs.declared.faults.SiteFault.{SiteFault};
ghost use Rattle.render_workers.specs.Tallies.{Grows};
ghost use Rattle.site_script.specs.Line.{IsInTime, is_moment};
ghost use Rattle.memo_table.specs.Stored.{read_count, HoldsKept};
ghost use Rattle.text_pool.specs.Texts.{held_ids};
ghost use Rattle.out_tree.specs.Belief.{believed};
ghost use Rattle.site_session.specs.Full.{full};
ghost use Rattle.site_session.specs.Pages.{LooksAtSome, unseen};
ghost use Rattle.site_session.specs.Standing.{Holds};
ghost use Rattle.site_session.specs.Session.{Given, Reply, Fine, Absent, Answers, first_fault, linked, links_now, names_now, names_past_now, rendered_now, start, output_failures, source_failures};
ghost use Rattle.site_session.specs.declared.build.Report.{Report};
ghost use Rattle.site_session.specs.declared.output.Written.{Written};
ghost use Rattle.site_session.specs.Rebuilds.{BuildsOnce, Rebuilds};
ghost use Rattle.site_session.specs.Replies.{scan_reply, IsQuiet, LineLeaves, LineSpares, OutputLeft, OutputSpared, SourceLeft};
ghost use Rattle.site_session.specs.Scenes.{output_seen, scene, source_seen};
ghost use Rattle.site_session.specs.Rounds.{in_any_order, in_order};
ghost use Rattle.site_script.specs.declared.line.Line.TheVariants as line;

use crate::build::{Rebuilt, Report, finish};
use crate::links::{LinkReport, broken, look};
use crate::output::{first_fault, output_anew, output_by_crew, output_one_by_one};
use crate::reading::Reading;
use crate::reply::Reply;
use crate::rest::{known_still, reused_after};
use crate::rounds::Crew;
use link_check::LinkTable;
use memo_table::Memo;
use out_tree::{OutKeeper, OutTree};
use page_render::PageMeaning;
use read_record::{ReadStore, Renderer, Tally};
use site_base::{FileBytes, Memory, Settings, SiteFault, SitePath, Text};
use site_reader::{KeptReader, SiteError};
use site_script::{Line, ScriptKind};
use site_world::KeptVariables;
use source_tree::{Held, PutError, ScanError, SourceTree};
use std::alloc::Global;
use std::marker::Model;
use std::sync::Wait;
use std::thread::Threads;

/// The files that are held, the moment, the renders that are kept, what is believed of the output, and which of its pages were looked at.
pub struct Session {
    held: Held,
    settings: Settings,
    moment: i64,
    reading: Reading,
    memo: Memo<PageMeaning>,
    keeper: OutKeeper,
    // What stands before each path in an address of the output.
    base: Text,
    // The pages that were looked at.
    table: LinkTable,
    // Whether these are those that are believed now.
    has_looked: bool,
    // Where it is known that a build has nothing to do: how many items it keeps.
    resting: Option<u32>,
}

impl Model for Session {
    ghost use Rattle.std.specs.Coded.{coded×, coded_list, coded_ℕ};
    ghost use Rattle.std.specs.FinMap as map;
    ghost use Rattle.site_base.specs.contracts.item_name.ItemName as the_name;
    ghost use Rattle.read_record.specs.contracts.key.Key as the_key;
    ghost use Rattle.read_record.specs.contracts.outcome.Outcome as the_outcome;
    ghost use Rattle.read_record.specs.Entries.{kept_code};
    ghost use Rattle.site_session.specs.Looking.{bytes_of};
    ghost use Rattle.site_session.specs.Standing.{Standing, standing_code};

    ghost Value = { Standing };

    ghost coded = { standing_code (map.code the_name.the_row.coded (kept_code the_name.the_row.coded (coded_list (coded× the_key.the_row.coded (coded_list coded_ℕ))) the_outcome.the_row.coded)) };

    ghost view = { λ s. record { files = s.held; moment = s.moment; settings = s.settings; kept = s.memo; belief = s.keeper; base = s.base; scanned = bytes_of s.table } };

    ghost use Rattle.std.specs.Prelude.{◌≡◌, IfSome, true};
    ghost use Rattle.site_script.specs.Line.{is_moment};
    ghost use Rattle.out_tree.specs.Belief.{believed};
    ghost use Rattle.site_session.specs.Pages.{pages};
    ghost use Rattle.site_session.specs.Settled.{Rests};

    ghost invariant = { λ s. (is_moment s.moment ≡ true)
        × IfSome s.resting (λ reused. Rests (record { files = s.held; moment = s.moment; settings = s.settings; kept = s.memo; belief = s.keeper; base = s.base; scanned = bytes_of s.table }) reused)
        × (s.has_looked ≡ true → bytes_of s.table ≡ pages (believed s.keeper)) };
}

// A call of its own, so that no proof above goes by what all its parts come to.
impl Drop for Session {
    fn drop(self) {
        let Session {
            held: _,
            settings: _,
            moment: _,
            reading: _,
            memo: _,
            keeper: _,
            base: _,
            table: _,
            has_looked: _,
            resting: _,
        } = self;
    }
}

impl Session {
    /// A session that holds no files, over an output that has not been listed. It takes no memory.
    pub fn open(alloc: Global, settings: Settings, moment: i64) -> Session
        requires { is_moment moment ≡ true }
        ensures { result ≡ start settings moment }
    {
        Session::holding(alloc, Held::new(alloc), settings, moment)
    }

    /// The same for a session that builds once: it reads faster, and a build that follows reads all files again. It takes no memory.
    pub fn for_one_build(alloc: Global, settings: Settings, moment: i64) -> Session
        requires { is_moment moment ≡ true }
        ensures { result ≡ start settings moment }
    {
        Session::reading_by(alloc, Reading::Once, Held::new(alloc), settings, moment)
    }

    /// A session that holds these files, over an output that has not been listed. It takes no memory.
    pub fn holding(alloc: Global, held: Held, settings: Settings, moment: i64) -> Session
        requires { is_moment moment ≡ true }
        ensures { result ≡ record (start settings moment) { files = held } }
    {
        let reading = Reading::Keeping(KeptReader::new(alloc), KeptVariables::new());
        Session::reading_by(alloc, reading, held, settings, moment)
    }

    fn reading_by(
        alloc: Global,
        reading: Reading,
        held: Held,
        settings: Settings,
        moment: i64,
    ) -> Session
        requires { is_moment moment ≡ true }
        ensures { result ≡ record (start settings moment) { files = held } }
    {
        Session {
            held,
            settings,
            moment,
            reading,
            memo: Memo::new(alloc),
            keeper: OutKeeper::open(),
            base: Text::new(alloc),
            table: LinkTable::new(alloc),
            has_looked: false,
            resting: None,
        }
    }

    /// Adds or replaces a file.
    pub fn put(&mut self, path: SitePath, bytes: Vec<u8>) -> Result<(), PutError>
        ensures cases { MatchResult result
            (λ _. (self.new ≡ record self.old { files = map.insert self.old.files path bytes.items }) × (put_refusal self.old.files path bytes.items ≡ None))
            (λ error. (self.new ≡ self.old) × ((error ≡ PutError.Memory) ⊎ (put_refusal self.old.files path bytes.items ≡ Some error))) }
    {
        let is_same = self.holds(&path, &bytes);
        match self.held.put(path, bytes) {
            Ok(()) => {
                self.resting = known_still(self.resting, is_same);
                Ok(())
            }
            Err(error) => Err(error),
        }
    }

    // Whether a file of this path is held that has these bytes.
    fn holds(&self, path: &SitePath, bytes: &[u8]) -> bool
        ensures { result ≡ true → map.get self.now.files path.now ≡ Some bytes.now }
    {
        match self.held.get(path) {
            Some(held) => held == bytes,
            None => false,
        }
    }

    /// Deletes a file, and says whether it was held. It takes no memory.
    pub fn delete(&mut self, path: &SitePath) -> bool
        ensures files { self.new ≡ record self.old { files = map.remove self.old.files path.now } }
        ensures was { result ≡ map.contains_key self.old.files path.now }
    {
        let was_held = self.held.delete(path);
        self.resting = known_still(self.resting, !was_held);
        was_held
    }

    /// Sets the moment, in seconds from 1970 in UTC. It takes no memory.
    pub fn set_moment(&mut self, moment: i64)
        requires { is_moment moment ≡ true }
        ensures { self.new ≡ record self.old { moment = moment } }
    {
        self.resting = known_still(self.resting, moment == self.moment);
        self.moment = moment;
    }

    /// Reads the whole source, holds its files in place of all that was held, and answers their number.
    pub fn scan<S: SourceTree>(&mut self, alloc: Global, source: &mut S) -> Result<u32, ScanError>
        ensures answers { (given : Given) (number : ℕ) (reply : Reply) → S.files source.old ≡ Some given.source →
            scan_reply result ≡ Some reply → Answers given self.old number line.Scan reply self.new }
        ensures kept { (self.new.moment ≡ self.old.moment) × (self.new.settings ≡ self.old.settings) × (self.new.kept ≡ self.old.kept) × (self.new.belief ≡ self.old.belief) }
        ensures looked { (self.new.base ≡ self.old.base) × (self.new.scanned ≡ self.old.scanned) }
        ensures err { OnErr result (self.new ≡ self.old) }
        ensures same { S.files source.new ≡ S.files source.old }
        ensures cause { HasCauseOf ScanError.Failed (S.failures source.old) (S.failures source.new) result }
    {
        match self.held.rescan(alloc, source) {
            Ok(found) => {
                self.resting = known_still(self.resting, found.is_same);
                Ok(found.number)
            }
            Err(error) => Err(error),
        }
    }

    /// The first fault of what the held files stand for: of reading, or else of rendering; `None` where they have none.
    pub fn first_fault<R: Renderer<Meaning = PageMeaning>>(
        &self,
        alloc: Global,
        renderer: &R,
    ) -> Result<Option<SiteFault>, Memory>
        ensures { IfOk result (λ fault. fault ≡ first_fault self.now) }
    {
        first_fault(alloc, &self.held, self.moment, &self.settings, renderer)
    }

    /// Makes the output equal to what the held files stand for: exactly what rendering them one after another from nothing gives.
    /// Items are rendered whose kept render no longer tells that; their names join the tally, in render order.
    pub fn rebuild_serial<O: OutTree, R: Renderer<Meaning = PageMeaning>>(
        &mut self,
        alloc: Global,
        out: &mut O,
        renderer: &R,
        tally: &mut Tally,
    ) -> Result<Rebuilt, Memory>
        ensures { Rebuilds in_order O.contents O.calls O.failures self.old self.new result out.old out.new tally.old tally.new }
    {
        if let Some(reused) = self.resting {
            return Ok(Rebuilt::Built(Report::idle(alloc, reused)));
        }
        let output = output_one_by_one(
            alloc,
            &mut self.reading,
            &self.held,
            self.moment,
            &self.settings,
            renderer,
            &mut self.memo,
            tally,
        );
        self.has_looked = false;
        let rebuilt = finish(&mut self.keeper, &mut self.base, alloc, output, out);
        self.resting = reused_after(&rebuilt);
        rebuilt
    }

    /// The same by so many threads, 1 to 64: whatever the order in which they come to the items, the answer, the output and what is
    /// kept are those of `rebuild_serial`. Names join the tally in any order. Behind a fault, items may have been rendered too;
    /// their names join the tally, each once at most.
    ///
    /// It waits for the threads that it started, and for nothing else.
    pub fn rebuild<H: Threads + Wait + Sync, O: OutTree, R: Renderer<Meaning = PageMeaning> + Sync>(
        &mut self,
        alloc: Global,
        rt: &H,
        jobs: u32,
        out: &mut O,
        renderer: &R,
        tally: &mut Tally,
    ) -> Result<Rebuilt, Memory>
        requires { (1 ≤ jobs) × (jobs ≤ 64) }
        ensures { Rebuilds in_any_order O.contents O.calls O.failures self.old self.new result out.old out.new tally.old tally.new }
    {
        self.rebuild_by(alloc, out, &Crew { rt, jobs, renderer }, tally)
    }

    // The same by a crew.
    fn rebuild_by<H: Threads + Wait + Sync, O: OutTree, R: Renderer<Meaning = PageMeaning> + Sync>(
        &mut self,
        alloc: Global,
        out: &mut O,
        crew: &Crew<'_, H, R>,
        tally: &mut Tally,
    ) -> Result<Rebuilt, Memory>
        requires { (1 ≤ crew.now.jobs) × (crew.now.jobs ≤ 64) }
        ensures { Rebuilds in_any_order O.contents O.calls O.failures self.old self.new result out.old out.new tally.old tally.new }
    {
        if let Some(reused) = self.resting {
            return Ok(Rebuilt::Built(Report::idle(alloc, reused)));
        }
        let output = output_by_crew(
            alloc,
            &mut self.reading,
            &self.held,
            self.moment,
            &self.settings,
            crew,
            &mut self.memo,
            tally,
        );
        self.has_looked = false;
        let rebuilt = finish(&mut self.keeper, &mut self.base, alloc, output, out);
        self.resting = reused_after(&rebuilt);
        rebuilt
    }

    /// Makes the output equal to what the held files stand for, as `rebuild_serial` does for a session that keeps no renders, with
    /// its answers and errors. The session ends with it, so nothing is kept: each item is rendered, and its name joins the tally.
    pub fn build_once<O: OutTree, R: Renderer<Meaning = PageMeaning>>(
        self,
        alloc: Global,
        out: &mut O,
        renderer: &R,
        tally: &mut Tally,
    ) -> Result<Rebuilt, Memory>
        ensures { BuildsOnce O.contents O.calls O.failures self result out.old out.new tally.old tally.new }
    {
        let Session {
            held,
            settings,
            moment,
            reading: _,
            memo: _,
            mut keeper,
            mut base,
            table: _,
            has_looked: _,
            resting: _,
        } = self;
        let output = output_anew(alloc, &held, moment, &settings, renderer, tally);
        finish(&mut keeper, &mut base, alloc, output, out)
    }

    /// The broken links of what is believed of the output, and how many of its pages had to be looked at for that: those that changed since the last
    /// call. Nothing else changes, and no device is called. The only error is want of memory, after which the next call is as exact, and counts
    /// no page again that it had come to.
    pub fn links(&mut self, alloc: Global) -> Result<LinkReport, Memory>
        ensures told { IfOk result (λ report. report ≡ links_now self.old) }
        ensures ok { OnOk result (self.new ≡ linked self.old) }
        ensures same { self.new ≡ record self.old { scanned = self.new.scanned } }
        ensures err { OnErr result (LooksAtSome self.old.scanned (believed self.old.belief) self.new.scanned) }
    {
        let scanned = self.look(alloc)?;
        let broken = broken(alloc, &self.table, &self.keeper, self.base.as_str())?;
        Ok(LinkReport { broken, scanned })
    }

    // Looks at the pages that changed, and answers their number.
    fn look(&mut self, alloc: Global) -> Result<u64, Memory>
        ensures told { IfOk result (λ count. count ≡ unseen self.old.scanned (believed self.old.belief)) }
        ensures ok { OnOk result (self.new ≡ linked self.old) }
        ensures same { self.new ≡ record self.old { scanned = self.new.scanned } }
        ensures err { OnErr result (LooksAtSome self.old.scanned (believed self.old.belief) self.new.scanned) }
    {
        if self.has_looked {
            return Ok(0);
        }
        let count = look(&mut self.table, alloc, &self.keeper)?;
        self.has_looked = true;
        Ok(count)
    }

    ghost use Rattle.std.specs.Borrow.{sem};
    ghost use Rattle.std.specs.Io.BufRead.{Rests};
    ghost use Rattle.site_session.specs.contracts.session.Session.{the_row};

    /// What the kept renders have read, and nothing else, whatever came before: a build, a fault, or want of memory. What only
    /// replaced renders had read may wait until this call, which lets it go. It takes no memory.
    pub fn kept_reads(&mut self) -> &ReadStore
        ensures* same { sem 𝓛 (Rests the_row self.entry (λ new. new ≡ self.old)) }
        ensures just { HoldsKept result.now self.old.kept }

        // So where nothing is kept, it holds no code.
        ensures count { held_ids result.now.codes ≡ read_count self.old.kept }
    {
        self.memo.pool()
    }

    /// Does a line of a script, and says what is replied. A build is done by the crew, which has 1 to 64 threads.
    pub fn answer<
        H: Threads + Wait + Sync,
        S: SourceTree,
        O: OutTree,
        R: Renderer<Meaning = PageMeaning> + Sync,
    >(
        &mut self,
        alloc: Global,
        number: u64,
        line: Line,
        source: &mut S,
        out: &mut O,
        crew: &Crew<'_, H, R>,
        tally: &mut Tally,
    ) -> Result<Reply, Memory>
        requires line { IsInTime line }
        requires jobs { (1 ≤ crew.now.jobs) × (crew.now.jobs ≤ 64) }
        ensures answers { (given : Given) → S.files source.old ≡ Some given.source → Holds (O.contents out.old) self.old.belief given.output →
            IfOk result (λ reply. Answers given self.old number line reply self.new) }
        ensures belief { (first : Files) → Holds (O.contents out.old) self.old.belief first → Holds (O.contents out.new) self.new.belief first }
        // What else a line changes is what its reply says. A build renders what is stale.
        ensures leaves { let at = scene S.files S.failures O.contents O.calls O.failures in
            IfOk result (λ reply. LineLeaves self.old line reply self.new.belief (at source.old out.old tally.old) (at source.new out.new tally.new)) }
        // Where memory is wanting, nothing is done but the first list of the output, and that is not told in the place of a failure.
        ensures spares { let at = scene S.files S.failures O.contents O.calls O.failures in
            OnErr result (LineSpares self.old line (at source.old out.old tally.old) (at source.new out.new tally.new)) }
        ensures kept { OnErr result ((self.new.files ≡ self.old.files) × (self.new.moment ≡ self.old.moment) × (self.new.settings ≡ self.old.settings)) }
        ensures based { OnErr result (self.new.base ≡ self.old.base) }
        // Pages that were looked at are not counted again.
        ensures looked { OnErr result (LooksAtSome self.old.scanned (believed self.old.belief) self.new.scanned) }
    {
        match line {
            Line::Scan => self.answer_scan(alloc, number, source),
            Line::Put(path, bytes) => self.put_line(number, path, bytes),
            Line::Delete(path) => Ok(self.delete_line(number, &path)),
            Line::Time(moment) => {
                self.set_moment(moment);
                Ok(Reply::Fine)
            }
            Line::Build => self.build_line(alloc, number, out, crew, tally),
            Line::Links => self.links_line(alloc),
            Line::Bad(at, kind) => Ok(Reply::BadLine(at, kind)),
            Line::End | Line::Eof | Line::Failed | Line::Memory => Ok(Reply::Silent),
        }
    }

    /// Does a line `scan`, and says what is replied.
    pub fn answer_scan<S: SourceTree>(
        &mut self,
        alloc: Global,
        number: u64,
        source: &mut S,
    ) -> Result<Reply, Memory>
        ensures answers { (given : Given) → S.files source.old ≡ Some given.source →
            IfOk result (λ reply. Answers given self.old number line.Scan reply self.new) }
        ensures belief { self.new.belief ≡ self.old.belief }
        ensures leaves { let seen = source_seen S.files S.failures in
            IfOk result (λ reply. IsQuiet reply × SourceLeft line.Scan reply (seen source.old) (seen source.new)) }
        ensures err { OnErr result (self.new ≡ self.old) }
        // Want of memory is not told in the place of a failure.
        ensures spares { OnErr result ((S.files source.new ≡ S.files source.old) × (S.failures source.new ≡ S.failures source.old)) }
    {
        match self.scan(alloc, source) {
            Ok(count) => Ok(Reply::Scanned(count)),
            Err(ScanError::Failed) => Ok(Reply::ScanFailed),
            Err(ScanError::Limit(fault)) => Ok(Reply::Faulty(fault)),
            Err(ScanError::Memory) => Err(Memory),
        }
    }

    fn put_line(&mut self, number: u64, path: SitePath, bytes: FileBytes) -> Result<Reply, Memory>
        ensures answers { (given : Given) → IfOk result (λ reply. Answers given self.old number (line.Put path bytes) reply self.new) }
        ensures belief { self.new.belief ≡ self.old.belief }
        ensures err { OnErr result (self.new ≡ self.old) }
        ensures quiet { IfOk result (λ reply. IsQuiet reply × (source_failures reply ≡ 0)) }
    {
        match self.put(path, bytes.into_vec()) {
            Ok(()) => Ok(Reply::Fine),
            Err(PutError::Memory) => Err(Memory),
            Err(PutError::Clash) => Ok(Reply::BadLine(number, ScriptKind::Clash)),
            Err(_) => Ok(Reply::BadLine(number, ScriptKind::Limit)),
        }
    }

    fn delete_line(&mut self, number: u64, path: &SitePath) -> Reply
        ensures answers { (given : Given) → Answers given self.old number (line.Delete path.now) result self.new }
        ensures belief { self.new.belief ≡ self.old.belief }
        ensures quiet { IsQuiet result × (source_failures result ≡ 0) }
    {
        if self.delete(path) {
            Reply::Fine
        } else {
            Reply::Absent
        }
    }

    fn links_line(&mut self, alloc: Global) -> Result<Reply, Memory>
        ensures answers { (given : Given) (number : ℕ) → IfOk result (λ reply. Answers given self.old number line.Links reply self.new) }
        ensures belief { self.new.belief ≡ self.old.belief }
        ensures kept { (self.new.files ≡ self.old.files) × (self.new.moment ≡ self.old.moment) × (self.new.settings ≡ self.old.settings) }
        ensures based { self.new.base ≡ self.old.base }
        ensures err { OnErr result (LooksAtSome self.old.scanned (believed self.old.belief) self.new.scanned) }
        ensures quiet { IfOk result (λ reply. IsQuiet reply × (source_failures reply ≡ 0)) }
    {
        Ok(Reply::Links(self.links(alloc)?))
    }

    fn build_line<H: Threads + Wait + Sync, O: OutTree, R: Renderer<Meaning = PageMeaning> + Sync>(
        &mut self,
        alloc: Global,
        number: u64,
        out: &mut O,
        crew: &Crew<'_, H, R>,
        tally: &mut Tally,
    ) -> Result<Reply, Memory>
        requires { (1 ≤ crew.now.jobs) × (crew.now.jobs ≤ 64) }
        ensures answers { (given : Given) → Holds (O.contents out.old) self.old.belief given.output →
            IfOk result (λ reply. Answers given self.old number line.Build reply self.new) }
        ensures belief { (first : Files) → Holds (O.contents out.old) self.old.belief first → Holds (O.contents out.new) self.new.belief first }
        ensures leaves { let seen = output_seen O.contents O.calls O.failures in
            IfOk result (λ reply. (source_failures reply ≡ 0) × OutputLeft self.old reply self.new.belief (seen out.old) (seen out.new)) }
        ensures spares { let seen = output_seen O.contents O.calls O.failures in
            OnErr result (OutputSpared self.old.belief (seen out.old) (seen out.new) × Grows tally.old tally.new) }
        ensures kept { OnErr result ((self.new.files ≡ self.old.files) × (self.new.moment ≡ self.old.moment) × (self.new.settings ≡ self.old.settings)) }
        ensures based { OnErr result (self.new.base ≡ self.old.base) }
        ensures looked { OnErr result (self.new.scanned ≡ self.old.scanned) }
        ensures tallied { OnOk result (in_any_order (names_now self.old) (names_past_now self.old) tally.old tally.new) }
    {
        match self.rebuild_by(alloc, out, crew, tally) {
            Ok(rebuilt) => Ok(Reply::of_build(rebuilt)),
            Err(Memory) => Err(Memory),
        }
    }
}
