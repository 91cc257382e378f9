// A run over ends in memory, and what is seen of it.
ghost use Rattle.std.specs.Prelude.{IsTrue};
ghost use Rattle.site_base.specs.Clash.{ClashFree};
ghost use Rattle.site_base.specs.Places.{AllDiffer, paths_of};

use crate::renderers::WatchedRenderer;
use out_tree::MemoryOut;
use read_record::Tally;
use site_base::{MemoryInput, MemorySink, SitePath, Words};
use site_program::run_jobs;
use source_tree::{MemorySource, paths_stand_apart};
use std::alloc::Global;
use std::sync::Wait;
use std::thread::Threads;

// 2024-01-01T00:00:00Z, in seconds from the beginning of 1970.
const NEW_YEAR: i64 = 1_704_067_200;

// Paths with bytes.
pub(crate) type FileList = Vec<(SitePath, Vec<u8>)>;

// The ends of a run, of which none fails, and its renderer.
#[derive(Drop)]
pub(crate) struct Ends {
    source: MemorySource,
    pub(crate) out: MemoryOut,
    input: MemoryInput,
    sink: MemorySink,
    pub(crate) renderer: WatchedRenderer,
}

impl Ends {
    // These sources, an empty output, and this input; a first render is held for at most so many turns. `None` also where two paths clash.
    pub(crate) fn new(
        alloc: Global,
        sources: FileList,
        script: &str,
        most_turns: u64,
    ) -> Option<Ends> {
        let outputs = Vec::new(alloc);
        if !stand_apart(alloc, &sources) || !stand_apart(alloc, &outputs) {
            return None;
        }
        let script = script.as_bytes().to_vec(alloc).ok()?;
        Some(Ends {
            source: MemorySource::new(sources, Vec::new(alloc)),
            out: MemoryOut::new(alloc, outputs, Vec::new(alloc)),
            input: MemoryInput::new(script, Vec::new(alloc)),
            sink: MemorySink::new(alloc, Vec::new(alloc)),
            renderer: WatchedRenderer::new(alloc, most_turns),
        })
    }

    // Does what the words say, and answers the number of the status.
    fn run<H: Threads + Wait + Sync>(&mut self, rt: &H, alloc: Global, words: &Words) -> u8 {
        let mut tally = Tally::new(alloc);
        let status = run_jobs(
            rt,
            alloc,
            words,
            NEW_YEAR,
            &mut self.source,
            &mut self.out,
            &mut self.input,
            &mut self.sink,
            &self.renderer,
            &mut tally,
        );
        status.number()
    }

    // Whether a command with so many jobs ends with this status and these replies.
    pub(crate) fn end_with<H: Threads + Wait + Sync>(
        &mut self,
        rt: &H,
        alloc: Global,
        command: &str,
        jobs: &str,
        status: u8,
        replies: &str,
    ) -> bool {
        match words(alloc, command, jobs) {
            Some(words) => self.run(rt, alloc, &words) == status
                && self.sink.bytes() == replies.as_bytes(),
            None => false,
        }
    }

    // Whether the output has a file with this text.
    pub(crate) fn has_output(&self, path: &SitePath, text: &str) -> bool {
        self.out.get(path) == Some(text.as_bytes())
    }
}

fn stand_apart(alloc: Global, files: &[(SitePath, Vec<u8>)]) -> bool
    ensures { IsTrue result → AllDiffer (paths_of files.now) × ClashFree (paths_of files.now) }
{
    match paths_stand_apart(alloc, files) {
        Ok(apart) => apart,
        Err(_) => false,
    }
}

fn words(alloc: Global, command: &str, jobs: &str) -> Option<Words> {
    let mut words = Words::new(alloc);
    words.push(alloc, command).ok()?;
    words.push(alloc, "--jobs").ok()?;
    words.push(alloc, jobs).ok()?;
    Some(words)
}
