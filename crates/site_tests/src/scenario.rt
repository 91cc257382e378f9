// A run over ends in memory, and what came of it.
ghost use Rattle.std.specs.Prelude.{◌≡◌, List, [], ◌∷◌, codes, Ok, Some, true, IfErr, IfOk, IsErrOf};
ghost use Rattle.site_session.specs.Session.{start};
ghost use Rattle.site_base.specs.declared.item_name.ItemName.{ItemName};
ghost use Rattle.site_base.specs.declared.settings.Settings.{Settings};
ghost use Rattle.site_words.specs.declared.orders.Options.{Options};
ghost use Rattle.site_words.specs.declared.orders.Order.TheVariants as order;
ghost use Rattle.site_program.specs.Once.{Ended, Took, after_scan, jobs_order, once_order};
ghost use Rattle.site_program.specs.Checks.{CheckTook, Checked};
ghost use Rattle.site_program.specs.Sessions.{SessionRun};
ghost use Rattle.source_tree.specs.Put.{plain};
ghost use Rattle.site_base.specs.Places.{paths_of};
ghost use Rattle.site_tests.specs.Scenarios.{IsFault, file_list, memory_stage, output_of, sink_of, source_of, files_of, given_of, has_just, has_refused, told_of, FailsNowhere, word_list};

use crate::scenario_error::ScenarioError;
use out_tree::MemoryOut;
use page_render::PageRenderer;
use read_record::Tally;
use site_base::{MemoryInput, MemorySink, SitePath, Words};
use site_program::{Status, run_jobs, run_once};
use source_tree::{MemorySource, paths_stand_apart};
use std::alloc::Global;
use std::sync::Wait;
use std::thread::Threads;

/// What a run is given: the words of its command line, and ends in memory with their failing calls,
/// counted from 1. Files are paths with texts.
#[derive(Clone, Copy)]
pub struct Scenario<'a> {
    pub words: &'a [&'a str],
    /// The bytes of the input, which only `run_jobs` reads.
    pub script: &'a str,
    pub sources: &'a [(&'a str, &'a str)],
    /// The files that the output has at first.
    pub outputs: &'a [(&'a str, &'a str)],
    pub source_fails: &'a [u64],
    pub output_fails: &'a [u64],
    pub input_fails: &'a [u64],
    pub sink_fails: &'a [u64],
}

impl<'a> Scenario<'a> {
    /// The word `once`, these sources, an empty output, and ends that do not fail.
    pub fn once(sources: &'a [(&'a str, &'a str)]) -> Scenario<'a>
        ensures words { word_list result.words.now ≡ codes "once" ∷ [] }
        ensures script { result.script.now ≡ [] }
        ensures sources { result.sources.now ≡ sources.now }
        ensures outputs { result.outputs.now ≡ [] }
        ensures sound { FailsNowhere result }
    {
        Scenario {
            words: &["once"],
            script: "",
            sources,
            outputs: &[],
            source_fails: &[],
            output_fails: &[],
            input_fails: &[],
            sink_fails: &[],
        }
    }

    /// The word `session`, this script, an empty source and output, and ends that do not fail.
    pub fn session(script: &'a str) -> Scenario<'a>
        ensures words { word_list result.words.now ≡ codes "session" ∷ [] }
        ensures script { result.script.now ≡ script.now }
        ensures sources { result.sources.now ≡ [] }
        ensures outputs { result.outputs.now ≡ [] }
        ensures sound { FailsNowhere result }
    {
        Scenario {
            words: &["session"],
            script,
            ..Scenario::once(&[])
        }
    }

    /// A run of `once` or `check` at a moment, in seconds from the beginning of 1970.
    pub fn run(&self, alloc: Global, moment: i64) -> Result<RunEnd, ScenarioError>
        // Of `once`: how it ends, what the output then has, and what the sink took.
        ensures once { (settings : Settings) → once_order (word_list self.now.words.now) moment ≡ Ok (order.Once settings) → IfOk result (λ outcome.
            Ended (after_scan (given_of self.now) (start settings moment)) (Some (files_of self.now.outputs.now)) (Some outcome.ends.out.files) outcome.status) }
        ensures once_took { (settings : Settings) → once_order (word_list self.now.words.now) moment ≡ Ok (order.Once settings) → IfOk result (λ outcome.
            Took (given_of self.now) (after_scan (given_of self.now) (start settings moment)) [] (Some outcome.ends.sink.taken) outcome.status) }
        // The same of `check`, which leaves the output alone.
        ensures check { (settings : Settings) → once_order (word_list self.now.words.now) moment ≡ Ok (order.Check settings) → IfOk result (λ outcome.
            Checked (after_scan (given_of self.now) (start settings moment)) outcome.status) }
        ensures check_took { (settings : Settings) → once_order (word_list self.now.words.now) moment ≡ Ok (order.Check settings) → IfOk result (λ outcome.
            CheckTook (given_of self.now) (after_scan (given_of self.now) (start settings moment)) [] (Some outcome.ends.sink.taken) outcome.status) }
        ensures check_untouched { (settings : Settings) → once_order (word_list self.now.words.now) moment ≡ Ok (order.Check settings) → IfOk result (λ outcome.
            outcome.ends.out.files ≡ files_of self.now.outputs.now) }
        // The input is left alone.
        ensures input { IfOk result (λ outcome. outcome.ends.input.left ≡ self.now.script.now) }
        // What is wrong with the scenario, where it is not run.
        ensures fault { IfErr result (IsFault self.now) }
    {
        let words = words(alloc, self.words)?;
        let mut ends = self.ends(alloc)?;
        let status = run_once(
            alloc,
            &words,
            moment,
            &mut ends.source,
            &mut ends.out,
            &mut ends.sink,
        );
        Ok(RunEnd { status, ends })
    }

    /// A run of `build` or `session` at a moment, in seconds from the beginning of 1970.
    pub fn run_jobs(
        &self,
        rt: &(impl Threads + Wait + Sync),
        alloc: Global,
        moment: i64,
    ) -> Result<RunEnd, ScenarioError>
        // Of `build`: how it ends, what the output then has, what the sink took, and that the input is left alone.
        ensures build { (options : Options) → jobs_order (word_list self.now.words.now) moment ≡ Ok (order.Build options) → IfOk result (λ outcome.
            Ended (after_scan (given_of self.now) (start options.settings moment)) (Some (files_of self.now.outputs.now)) (Some outcome.ends.out.files) outcome.status) }
        ensures build_took { (options : Options) → jobs_order (word_list self.now.words.now) moment ≡ Ok (order.Build options) → IfOk result (λ outcome.
            Took (told_of self.now options) (after_scan (told_of self.now options) (start options.settings moment)) [] (Some outcome.ends.sink.taken) outcome.status) }
        ensures build_input { (options : Options) → jobs_order (word_list self.now.words.now) moment ≡ Ok (order.Build options) → IfOk result (λ outcome.
            outcome.ends.input.left ≡ self.now.script.now) }
        // Of `session`: that it does the lines of the script, tells what it did, and notes what it renders in a tally.
        ensures session { (options : Options) → jobs_order (word_list self.now.words.now) moment ≡ Ok (order.Session options) → IfOk result (λ outcome.
            (names : List ItemName) × SessionRun (told_of self.now options) (start options.settings moment) self.now.script.now [] (Some outcome.ends.input.left)
            (memory_stage (source_of self.now) (output_of self.now) [] (sink_of self.now)) (memory_stage outcome.ends.source outcome.ends.out names outcome.ends.sink) outcome.status) }
        ensures fault { IfErr result (IsFault self.now) }
    {
        let words = words(alloc, self.words)?;
        let mut ends = self.ends(alloc)?;
        let renderer = PageRenderer::new(alloc);
        let mut tally = Tally::new(alloc);
        let status = run_jobs(
            rt,
            alloc,
            &words,
            moment,
            &mut ends.source,
            &mut ends.out,
            &mut ends.input,
            &mut ends.sink,
            &renderer,
            &mut tally,
        );
        Ok(RunEnd { status, ends })
    }

    /// The ends before a run: each holds what the scenario gives it and fails at the calls that are its own.
    pub fn ends(&self, alloc: Global) -> Result<Ends, ScenarioError>
        ensures source { IfOk result (λ ends. ends.source ≡ source_of self.now) }
        ensures out { IfOk result (λ ends. ends.out ≡ output_of self.now) }
        ensures input { IfOk result (λ ends. ends.input ≡ record { left = self.now.script.now; fail = self.now.input_fails.now; calls = 0; failures = 0 }) }
        ensures sink { IfOk result (λ ends. ends.sink ≡ sink_of self.now) }
        ensures fault { IfErr result (IsFault self.now) }
    {
        let sources = files(alloc, self.sources)?;
        let outputs = files(alloc, self.outputs)?;
        if !paths_stand_apart(alloc, &sources)? || !paths_stand_apart(alloc, &outputs)? {
            return Err(ScenarioError::Clash);
        }
        let script = self.script.as_bytes().to_vec(alloc)?;
        Ok(Ends {
            source: MemorySource::new(sources, self.source_fails.to_vec(alloc)?),
            out: MemoryOut::new(alloc, outputs, self.output_fails.to_vec(alloc)?),
            input: MemoryInput::new(script, self.input_fails.to_vec(alloc)?),
            sink: MemorySink::new(alloc, self.sink_fails.to_vec(alloc)?),
        })
    }
}

/// The ends of a run.
#[derive(Drop)]
pub struct Ends {
    pub source: MemorySource,
    pub out: MemoryOut,
    pub input: MemoryInput,
    /// What takes the replies.
    pub sink: MemorySink,
}

impl Ends {
    /// Whether the output has as many files as are wanted, and each of these with its text. `Path` comes only where a path
    /// that is wanted is none of a site.
    pub fn have(&self, alloc: Global, wanted: &[(&str, &str)]) -> Result<bool, ScenarioError>
        ensures have { IfOk result (λ have. have ≡ has_just self.now.out.files (file_list wanted.now)) }
        ensures refused { IsErrOf result ScenarioError.Path → has_refused (file_list wanted.now) ≡ true }
        ensures no_clash { IsErrOf result ScenarioError.Clash → ⊥ }
    {
        if self.out.len() != wanted.len() {
            return Ok(false);
        }
        for (path, text) in wanted {
            let path = SitePath::read(alloc, path)?;
            if self.out.get(&path) != Some(text.as_bytes()) {
                return Ok(false);
            }
        }
        Ok(true)
    }
}

/// What came of a run: how it ended, and how it left its ends.
#[derive(Drop)]
pub struct RunEnd {
    pub status: Status,
    pub ends: Ends,
}

fn words(alloc: Global, given: &[&str]) -> Result<Words, ScenarioError>
    ensures words { IfOk result (λ words. words ≡ word_list given.now) }
    ensures memory { IfErr result (λ error. error ≡ ScenarioError.Memory) }
{
    let mut words = Words::new(alloc);
    for word in given {
        words.push(alloc, word)?;
    }
    Ok(words)
}

fn files(alloc: Global, given: &[(&str, &str)]) -> Result<Vec<(SitePath, Vec<u8>)>, ScenarioError>
    ensures files { IfOk result (λ files. plain files.items ≡ file_list given.now) }
    ensures paths { IfOk result (λ files. paths_of files.items ≡ paths_of (file_list given.now)) }
    ensures refused { IsErrOf result ScenarioError.Path → has_refused (file_list given.now) ≡ true }
    ensures no_clash { IsErrOf result ScenarioError.Clash → ⊥ }
{
    let mut files = Vec::new(alloc);
    for (path, text) in given {
        files.push((SitePath::read(alloc, path)?, text.as_bytes().to_vec(alloc)?))?;
    }
    Ok(files)
}
