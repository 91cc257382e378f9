// An output in memory.
ghost use Rattle.std.specs.Prelude.{◌≡◌, ◌≤◌, ◌∷◌, ◌↔◌, [], ℕ, Some, Option, List, Contains, IsErrOf, IsTrue, IsNone, None, IfOk, MatchResult, is_ok, not, OnOk, OnErr, true, false, if◌then◌else◌};
ghost use Rattle.std.specs.FinMap as finmap;
ghost use Rattle.std.specs.Option.{option_copied, option_map};
ghost use Rattle.site_base.specs.Clash.{ClashFree};
ghost use Rattle.site_base.specs.Ends.{HasCause, HasCauseOf};
ghost use Rattle.site_base.specs.Listing.{Lists};
ghost use Rattle.site_base.specs.Places.{AllDiffer, paths_of};
ghost use Rattle.out_tree.specs.Device.{Tells, Calls};
ghost use Rattle.out_tree.specs.Memory.{plain_files, is_listed_call, is_refused, stands_in_way, next, Counts, Tries};
ghost use Rattle.out_tree.specs.declared.step.Step.TheVariants.{Remove, Write};
ghost use Rattle.out_tree.specs.declared.step.Call.TheVariants as call;

use crate::{Call, OutTree, Step};
use site_base::{Failed, FileBytes, ListError, Memory, PathMap, SharedBytes, SitePath};
use std::alloc::Global;
use std::marker::Model;
use std::mem;

/// An output in memory, which fails at listed calls.
#[derive(Drop)]
pub struct MemoryOut {
    alloc: Global,
    files: PathMap<Vec<u8>>,
    // `None` once there was no memory to note a call
    told: Option<Vec<Call>>,
    fail: Vec<u64>,
    calls: u64,
    failures: u64,
    short: u64,
}

impl Model for MemoryOut {
    ghost use Rattle.site_base.specs.Clash.{HasNoClash};
    ghost use Rattle.std.specs.Option.{option_map};
    ghost use Rattle.site_base.specs.PathMap.{as_map};
    ghost use Rattle.out_tree.specs.Memory.{OutState, plain_files};
    ghost use Rattle.std.specs.Coded.{codes};
    ghost use Rattle.out_tree.specs.MemoryCode.{files_code};

    ghost Value = { OutState };

    ghost coded = { Prim.hlevel (codes, files_code) };

    ghost view = { λ out. record {
      files = plain_files (as_map out.files);
      told = option_map (λ calls. calls.items) out.told;
      fail = out.fail.items;
      calls = out.calls;
      failures = out.failures;
      short = out.short;
    } };

    ghost invariant = { λ out. HasNoClash (as_map out.files) };
}

impl MemoryOut {
    /// An output with these files, which fails at the calls of these numbers, counted from 1. It takes no memory.
    pub fn new(alloc: Global, files: Vec<(SitePath, Vec<u8>)>, fail: Vec<u64>) -> MemoryOut
        requires differ { AllDiffer (paths_of files.items) }
        requires clash_free { ClashFree (paths_of files.items) }
        ensures { result ≡ record { files = plain_files (finmap.from_entries files.items); told = Some []; fail = fail.items; calls = 0; failures = 0; short = 0 } }
    {
        MemoryOut {
            alloc,
            files: PathMap::from_entries(files).unwrap(),
            told: Some(Vec::new(alloc)),
            fail,
            calls: 0,
            failures: 0,
            short: 0,
        }
    }

    /// The bytes of a file.
    pub fn get(&self, path: &SitePath) -> Option<&[u8]>
        ensures { option_copied result ≡ finmap.get self.now.files path.now }
    {
        match self.files.get(path) {
            Some(bytes) => Some(bytes.as_slice()),
            None => None,
        }
    }

    /// How many files it has.
    pub fn len(&self) -> usize
        ensures { result ≡ finmap.len self.now.files }
    {
        self.files.len()
    }

    pub fn is_empty(&self) -> bool
        ensures { IsTrue result ↔ (finmap.len self.now.files ≡ 0) }
    {
        self.files.is_empty()
    }

    /// How often it was called.
    pub fn calls(&self) -> u64
        ensures { result ≡ self.now.calls }
    {
        self.calls
    }

    /// How often a write failed for want of memory.
    pub fn short(&self) -> u64
        ensures { result ≡ self.now.short }
    {
        self.short
    }

    // Counts a call, and notes it where there is the memory. It says whether the call is to fail.
    fn begins(&mut self, call: Result<Call, Memory>) -> bool
        ensures files { self.new.files ≡ self.old.files }
        ensures fail { self.new.fail ≡ self.old.fail }
        ensures failures { self.new.failures ≡ self.old.failures }
        ensures short { self.new.short ≡ self.old.short }
        ensures calls { self.new.calls ≡ next self.old.calls }
        ensures told { MatchResult call (λ made. Calls self.old.told self.new.told (made ∷ [])) (λ _. self.new.told ≡ None) }
        ensures listed { result ≡ is_listed_call self.old }
    {
        self.calls = self.calls.saturating_add(1);
        self.told = noted(mem::replace(&mut self.told, None), call);
        self.fail.contains(&self.calls)
    }

    // Counts a failure.
    fn fail(&mut self)
        ensures counted { self.new ≡ record self.old { failures = next self.old.failures } }
        ensures later { self.old.failures ≤ self.new.failures }
    {
        self.failures = self.failures.saturating_add(1);
    }

    // Counts a want of memory.
    fn fall_short(&mut self)
        ensures { self.new ≡ record self.old { short = next self.old.short } }
    {
        self.short = self.short.saturating_add(1);
    }

    // Whether the path is a folder of a file, or a file is a folder of the path.
    fn stands_in_way(&self, path: &SitePath) -> bool
        ensures { result ≡ stands_in_way self.now.files path.now }
    {
        self.files.has_below(path) || self.files.has_folder(path)
    }

    // Gives the path these bytes.
    fn store(&mut self, path: &SitePath, bytes: &[u8]) -> Result<(), Memory>
        requires { stands_in_way self.old.files path.now ≡ false }
        ensures ok { OnOk result (
            self.new ≡ record self.old { files = finmap.insert self.old.files path.now bytes.now }) }
        ensures err { OnErr result (self.new ≡ self.old) }
    {
        let path = path.copy(self.alloc)?;
        let bytes = FileBytes::copy(self.alloc, bytes)?;
        self.files.put(path, bytes.into_vec())
    }

    // Takes the path away.
    fn take(&mut self, path: &SitePath)
        ensures { self.new ≡ record self.old { files = finmap.remove self.old.files path.now } }
    {
        let _ = self.files.remove(path);
    }
}

impl OutTree for MemoryOut {
    ghost contents = { λ out. Some out.files };

    ghost calls = { λ out. out.told };

    ghost failures = { λ out. out.failures };

    fn list(&mut self, alloc: Global) -> Result<Vec<SitePath>, ListError>
        ensures lists { Lists (Some self.old.files) result }
        ensures same { Some self.new.files ≡ Some self.old.files }
        ensures calls { Calls self.old.told self.new.told (call.List ∷ []) }
        ensures cause { HasCauseOf ListError.Failed self.old.failures self.new.failures result }
        // It fails exactly at the listed calls.
        ensures listed { IsErrOf result ListError.Failed ↔ IsTrue (is_listed_call self.old) }
        ensures counts { Counts self.old self.new call.List (not (is_listed_call self.old)) }
        ensures short { self.new.short ≡ self.old.short }
    {
        if self.begins(Ok(Call::List)) {
            self.fail();
            return Err(ListError::Failed);
        }
        let paths = self.files.paths(alloc)?;
        Ok(paths)
    }

    fn write(&mut self, path: &SitePath, bytes: &[u8]) -> Result<(), Failed>
        ensures tells { Tells (Some self.old.files) (Some self.new.files) (Write path.now bytes.now) (is_ok result) }
        ensures calls { Calls self.old.told self.new.told (call.Try (Write path.now bytes.now) ∷ []) }
        ensures cause { HasCause self.old.failures self.new.failures result }
        // It fails at the listed calls and where the path stands in the way, and besides only for want of memory.
        ensures tries { Tries self.old self.new (Write path.now bytes.now) (is_ok result) }
    {
        let call = write_call(self.alloc, path, bytes);
        if self.begins(call) || self.stands_in_way(path) {
            self.fail();
            return Err(Failed);
        }
        match self.store(path, bytes) {
            Ok(()) => Ok(()),
            Err(Memory) => {
                self.fall_short();
                self.fail();
                Err(Failed)
            }
        }
    }

    fn remove(&mut self, path: &SitePath) -> Result<(), Failed>
        ensures tells { Tells (Some self.old.files) (Some self.new.files) (Remove path.now) (is_ok result) }
        ensures calls { Calls self.old.told self.new.told (call.Try (Remove path.now) ∷ []) }
        ensures cause { HasCause self.old.failures self.new.failures result }
        ensures tries { Tries self.old self.new (Remove path.now) (is_ok result) }
        // It fails exactly at the listed calls.
        ensures listed { is_ok result ≡ not (is_listed_call self.old) }
    {
        let call = remove_call(self.alloc, path);
        if self.begins(call) {
            self.fail();
            return Err(Failed);
        }
        self.take(path);
        Ok(())
    }
}

// The calls with one more, where there is the memory.
fn noted(told: Option<Vec<Call>>, call: Result<Call, Memory>) -> Option<Vec<Call>>
    ensures { MatchResult call
        (λ made. Calls (option_map (λ calls. calls.items) told) (option_map (λ calls. calls.items) result) (made ∷ []))
        (λ _. IsNone result) }
{
    let mut calls = told?;
    match calls.push(call.ok()?) {
        Ok(()) => Some(calls),
        Err(_) => None,
    }
}

// A write, as it is noted.
fn write_call(alloc: Global, path: &SitePath, bytes: &[u8]) -> Result<Call, Memory>
    ensures { IfOk result (λ made. made ≡ call.Try (Write path.now bytes.now)) }
{
    let bytes = FileBytes::copy(alloc, bytes)?;
    let bytes = SharedBytes::from_vec(alloc, bytes.into_vec())?;
    Ok(Call::Try(Step::Write(path.copy(alloc)?, bytes)))
}

// A removal, as it is noted.
fn remove_call(alloc: Global, path: &SitePath) -> Result<Call, Memory>
    ensures { IfOk result (λ made. made ≡ call.Try (Remove path.now)) }
{
    Ok(Call::Try(Step::Remove(path.copy(alloc)?)))
}
