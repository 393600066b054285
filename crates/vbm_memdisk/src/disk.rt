//! A disk in memory.

ghost use Rattle.std.specs.Prelude.{◌≡◌, ◌≤◌, ◌<◌, ◌+◌, ◌/◌, ◌^◌, ◌↔◌, ◌⊎◌, ℕ, List, [], ◌∷◌, ◌++◌, length, take, Option, Some, None, IfOk, IfSome, OnOk, OnErr, IsErr, IsOk, IsTrue, Contains, option_copied};
ghost use Rattle.std.specs.Option.{option_map};
ghost use Rattle.vbm_ports.specs.Counts.{counted, Rose};
ghost use Rattle.vbm_ports.specs.Files.{bytes_of, Reads, Sets, IsWritten, IsCut, IsRemoved};
ghost use Rattle.vbm_ports.specs.Names.{IsStoreName};
ghost use Rattle.vbm_ports.specs.Crash.{WriteLeaves, CutLeaves, RemoveLeaves, Follows, Only};
ghost use Rattle.vbm_ports.specs.Disk.{DiskState, Passes, CountsCall, OnlyReads};
ghost use Rattle.vbm_memdisk.specs.declared.events.Event.TheVariants.{Cut, Removed, Synced};
ghost use Rattle.vbm_memdisk.specs.Folders.{AreNames};
ghost use Rattle.vbm_memdisk.specs.Past.{past_in, settled_past, with_event, picked_files, AddsWrite, Puts};
ghost use Rattle.vbm_memdisk.specs.MemDisk.{past_of, memory_state, failing_calls, stop_of, refused_of, IsListed, IsStopped, MustFail, KeepsFailures, KeepsCounts};
ghost use Rattle.vbm_ports.specs.declared.disk.TheConstants.{LONGEST_FILE};

use crate::Pick;
use crate::history::History;
use std::alloc::Global;
use vbm_ports::{Disk, Failed, Names, NoMemory, Sequence};

/// A disk in memory for tests. It fails at the calls that it is told to, and tells what a crash leaves.
#[derive(Drop)]
pub struct MemDisk {
    alloc: Global,
    history: History,
    failing: Sequence<u64>,
    stop: Option<u64>,
    calls: u64,
    faults: u64,
    refused: u64,
}

impl MemDisk {
    /// A disk with no files, on which no call fails.
    pub fn new(alloc: Global) -> MemDisk
        ensures past { past_of result ≡ settled_past (λ name. None) }
        ensures calls { (memory_state result).calls ≡ 0 }
        ensures faults { (memory_state result).faults ≡ 0 }
        ensures refused { refused_of result ≡ 0 }
        ensures failing { failing_calls result ≡ [] }
        ensures stop { stop_of result ≡ None }
    {
        MemDisk::of_history(alloc, History::new(alloc))
    }

    // A disk of this history, on which no call was made and none fails.
    fn of_history(alloc: Global, history: History) -> MemDisk
        ensures past { past_of result ≡ past_in history }
        ensures calls { (memory_state result).calls ≡ 0 }
        ensures faults { (memory_state result).faults ≡ 0 }
        ensures refused { refused_of result ≡ 0 }
        ensures failing { failing_calls result ≡ [] }
        ensures stop { stop_of result ≡ None }
    {
        MemDisk {
            alloc,
            history,
            failing: Sequence::new(alloc),
            stop: None,
            calls: 0,
            faults: 0,
            refused: 0,
        }
    }

    /// Makes or replaces a file, which is settled: it has these bytes in each image.
    pub fn put_file(&mut self, name: &[u8], bytes: &[u8]) -> Result<(), NoMemory>
        requires { length bytes.now ≤ LONGEST_FILE }
        ensures ok { OnOk result (Sets name.now (Some bytes.now) (memory_state self.old).files (memory_state self.new).files) }
        ensures images { OnOk result (Follows (Sets name.now (Some bytes.now)) (memory_state self.old).may_leave (memory_state self.new).may_leave) }
        ensures time { Passes (memory_state self.old) (memory_state self.new) (memory_state self.new).may_leave }
        ensures past { OnOk result (Puts name.now bytes.now (past_of self.old) (past_of self.new)) }
        ensures err { OnErr result (past_of self.new ≡ past_of self.old) }
        ensures counts { KeepsCounts self.old self.new }
        ensures failures { KeepsFailures self.old self.new }
    {
        self.history.put(name, bytes)
    }

    /// Lends a file's bytes, if it is there.
    pub fn file(&self, name: &[u8]) -> Option<&[u8]>
        ensures { option_copied result ≡ (memory_state self.now).files name.now }
    {
        self.history.file(name)
    }

    /// The names of the files.
    pub fn names(&self) -> Result<Names, NoMemory>
        ensures { IfOk result (λ names. AreNames names (memory_state self.now).files) }
    {
        self.history.names()
    }

    /// Makes the call with number k fail, where the first has number 0. A write that fails so writes the first half of its
    /// bytes.
    pub fn fail_call(&mut self, k: u64) -> Result<(), NoMemory>
        ensures ok { OnOk result (failing_calls self.new ≡ failing_calls self.old ++ k ∷ []) }
        ensures err { OnErr result (failing_calls self.new ≡ failing_calls self.old) }
        ensures past { past_of self.new ≡ past_of self.old }
        ensures counts { KeepsCounts self.old self.new }
        ensures stop { stop_of self.new ≡ stop_of self.old }
    {
        self.failing.push(k)
    }

    /// Makes each call from number k on fail and change nothing, in place of an earlier stop.
    pub fn stop_at(&mut self, k: u64)
        ensures stop { stop_of self.new ≡ Some k }
        ensures past { past_of self.new ≡ past_of self.old }
        ensures counts { KeepsCounts self.old self.new }
        ensures failing { failing_calls self.new ≡ failing_calls self.old }
    {
        self.stop = Some(k);
    }

    /// How many calls of the trait were made.
    pub fn calls(&self) -> u64
        ensures { result ≡ (memory_state self.now).calls }
    {
        self.calls
    }

    /// How many calls failed for want of memory.
    pub fn refused(&self) -> u64
        ensures { result ≡ refused_of self.now }
    {
        self.refused
    }

    /// A disk whose settled files are what a crash leaves of this one's: the image of now that the pick gives.
    pub fn images_of_last_sync(&self, pick: Pick) -> Result<MemDisk, NoMemory>
        ensures image { IfOk result (λ image. (memory_state self.now).may_leave (memory_state image).files) }
        ensures files { IfOk result (λ image. (memory_state image).files ≡ picked_files pick (past_of self.now)) }
        ensures settled { IfOk result (λ image. Only (memory_state image).files (memory_state image).may_leave) }
        ensures calls { IfOk result (λ image. (memory_state image).calls ≡ 0) }
        ensures faults { IfOk result (λ image. (memory_state image).faults ≡ 0) }
        ensures refused { IfOk result (λ image. refused_of image ≡ 0) }
        ensures failing { IfOk result (λ image. failing_calls image ≡ []) }
        ensures stop { IfOk result (λ image. stop_of image ≡ None) }
    {
        let history = self.history.picked(pick)?;
        Ok(MemDisk::of_history(self.alloc, history))
    }

    fn is_listed(&self) -> bool
        ensures { IsTrue result ↔ IsListed self.now }
    {
        self.failing.as_slice().contains(&self.calls)
    }

    fn is_stopped(&self) -> bool
        ensures { IsTrue result ↔ IsStopped self.now }
    {
        match self.stop {
            None => false,
            Some(first) => first <= self.calls,
        }
    }

    // Counts a failure.
    fn fail(&mut self) -> Failed
        ensures only { self.new ≡ record self.old { faults = self.new.faults } }
        ensures rose { Rose self.old.faults self.new.faults }
        ensures no_fall { self.old.faults ≤ self.new.faults }
    {
        self.faults = self.faults.saturating_add(1);
        Failed
    }

    // Counts a call, which may fail.
    fn count(&mut self) -> Result<(), Failed>
        ensures only { self.new ≡ record self.old { calls = counted self.old.calls; faults = self.new.faults } }
        ensures calls { self.old.calls ≤ self.new.calls }
        ensures faults { self.old.faults ≤ self.new.faults }
        ensures cause { OnErr result (Rose self.old.faults self.new.faults) }
        ensures no_fault { OnOk result (self.new.faults ≡ self.old.faults) }
        ensures told { IsErr result ↔ MustFail self.old }
    {
        let fails = self.is_listed() || self.is_stopped();
        self.calls = self.calls.saturating_add(1);
        if fails {
            return Err(self.fail());
        }
        Ok(())
    }

    // Counts a call that found no memory.
    fn finish(&mut self, outcome: Result<(), NoMemory>) -> Result<(), Failed>
        ensures only { self.new ≡ record self.old { faults = self.new.faults; refused = self.new.refused } }
        ensures faults { self.old.faults ≤ self.new.faults }
        ensures cause { OnErr result (Rose self.old.faults self.new.faults) }
        ensures no_fault { OnOk result (self.new.faults ≡ self.old.faults) }
        ensures refused { OnErr result (Rose self.old.refused self.new.refused) }
        ensures unrefused { OnOk result (self.new.refused ≡ self.old.refused) }
        ensures ok { IsOk result ↔ IsOk outcome }
    {
        if outcome.is_ok() {
            return Ok(());
        }
        self.refused = self.refused.saturating_add(1);
        Err(self.fail())
    }
}

// Copies the bytes from `at` on that fit.
fn copy_piece(bytes: &[u8], at: u64, out: &mut [u8]) -> usize
    ensures { Reads bytes.now at out.old out.new result }
{
    if at >= bytes.len() as u64 {
        return 0;
    }
    let rest = &bytes[at as usize..];
    let n = rest.len().min(out.len());
    out[..n].copy_from_slice(&rest[..n]);
    n
}

// Reads from a place of a file, if it is there.
fn read_piece(file: Option<&[u8]>, at: u64, out: &mut [u8]) -> usize
    ensures { Reads (bytes_of (option_copied file.entry)) at out.old out.new result }
{
    match file {
        Some(bytes) => copy_piece(bytes, at, out),
        None => 0,
    }
}

impl Disk for MemDisk {
    ghost use Rattle.vbm_memdisk.specs.Laws.{coherent_disk};

    ghost tells = { Unit {0} };

    ghost state = { memory_state };

    fn length(&mut self, name: &[u8]) -> Result<Option<u64>, Failed>
        requires { IsStoreName name.now }
        ensures answer { Unit {0}
            → IfOk result (λ len. len ≡ option_map length ((memory_state self.old).files name.now)) }
        ensures bound { IfOk result (λ len. IfSome len (λ n. n ≤ LONGEST_FILE)) }
        ensures reads { OnlyReads (Unit {0}) (memory_state self.old) (memory_state self.new) }
        ensures calls { (memory_state self.new).calls ≡ counted (memory_state self.old).calls }
        ensures cause { OnErr result (Rose (memory_state self.old).faults (memory_state self.new).faults) }
        ensures no_fault { IfOk result (λ _. (memory_state self.new).faults ≡ (memory_state self.old).faults) }
        // It fails exactly where it was told to.
        ensures told { IsErr result ↔ MustFail self.old }
        ensures past { past_of self.new ≡ past_of self.old }
        ensures refused { refused_of self.new ≡ refused_of self.old }
        ensures failures { KeepsFailures self.old self.new }
    {
        self.count()?;
        Ok(self.file(name).map(|bytes| bytes.len() as u64))
    }

    fn read(&mut self, name: &[u8], at: u64, out: &mut [u8]) -> Result<usize, Failed>
        requires { IsStoreName name.now }
        ensures answer { Unit {0}
            → IfOk result (λ n. Reads (bytes_of ((memory_state self.old).files name.now)) at out.old out.new n) }
        ensures bound { IfOk result (λ n. n ≤ length out.old) }
        ensures reads { OnlyReads (Unit {0}) (memory_state self.old) (memory_state self.new) }
        ensures calls { (memory_state self.new).calls ≡ counted (memory_state self.old).calls }
        ensures cause { OnErr result (Rose (memory_state self.old).faults (memory_state self.new).faults) }
        ensures no_fault { IfOk result (λ _. (memory_state self.new).faults ≡ (memory_state self.old).faults) }
        ensures told { IsErr result ↔ MustFail self.old }
        ensures past { past_of self.new ≡ past_of self.old }
        ensures refused { refused_of self.new ≡ refused_of self.old }
        ensures failures { KeepsFailures self.old self.new }
    {
        self.count()?;
        Ok(read_piece(self.file(name), at, out))
    }

    fn write(&mut self, name: &[u8], at: u64, bytes: &[u8]) -> Result<(), Failed>
        requires name { IsStoreName name.now }
        requires some { 0 < length bytes.now }
        requires end { at + length bytes.now ≤ LONGEST_FILE }
        ensures ok { Unit {0}
            → OnOk result (IsWritten name.now at bytes.now (memory_state self.old).files (memory_state self.new).files) }
        ensures err { Unit {0}
            → OnErr result (WriteLeaves name.now at (length bytes.now) (memory_state self.old).files (memory_state self.old).files (memory_state self.new).files) }
        ensures crash { Unit {0}
            → Follows (WriteLeaves name.now at (length bytes.now) (memory_state self.old).files) (memory_state self.old).may_leave (memory_state self.new).may_leave }
        ensures time { Passes (memory_state self.old) (memory_state self.new) (memory_state self.new).may_leave }
        ensures counts { CountsCall (memory_state self.old) (memory_state self.new) }
        ensures cause { OnErr result (Rose (memory_state self.old).faults (memory_state self.new).faults) }
        ensures no_fault { OnOk result ((memory_state self.new).faults ≡ (memory_state self.old).faults) }
        // It fails exactly where it was told to, or where it found no memory.
        ensures told { MustFail self.old → IsErr result }
        ensures why { IsErr result → MustFail self.old ⊎ Rose (refused_of self.old) (refused_of self.new) }
        // All is written, or the first half where the call is listed. A stopped call, and one that found no memory, changes
        // nothing.
        ensures whole { OnOk result (AddsWrite name.now at bytes.now (length bytes.now) (past_of self.old) (past_of self.new)) }
        ensures half { IsListed self.old → ¬ IsStopped self.old
            → ¬ Rose (refused_of self.old) (refused_of self.new)
            → AddsWrite name.now at bytes.now (length bytes.now / 2) (past_of self.old) (past_of self.new) }
        ensures stopped { IsStopped self.old → past_of self.new ≡ past_of self.old }
        ensures refused { (refused_of self.new ≡ refused_of self.old)
            ⊎ (Rose (refused_of self.old) (refused_of self.new) × (past_of self.new ≡ past_of self.old)) }
        ensures failures { KeepsFailures self.old self.new }
    {
        let stopped = self.is_stopped();
        if self.count().is_ok() {
            let outcome = self.history.write(name, at, bytes, bytes.len());
            return self.finish(outcome);
        }
        let half = bytes.len() / 2;
        if !stopped && self.history.write(name, at, bytes, half).is_err() {
            self.refused = self.refused.saturating_add(1);
        }
        Err(Failed)
    }

    fn cut(&mut self, name: &[u8], len: u64) -> Result<(), Failed>
        requires { IsStoreName name.now }
        ensures ok { Unit {0}
            → OnOk result (IsCut name.now len (memory_state self.old).files (memory_state self.new).files) }
        ensures err { Unit {0}
            → OnErr result (((memory_state self.new).files ≡ (memory_state self.old).files)
            ⊎ IsCut name.now len (memory_state self.old).files (memory_state self.new).files) }
        ensures crash { Unit {0}
            → Follows (CutLeaves name.now len (memory_state self.old).files) (memory_state self.old).may_leave (memory_state self.new).may_leave }
        ensures time { Passes (memory_state self.old) (memory_state self.new) (memory_state self.new).may_leave }
        ensures counts { CountsCall (memory_state self.old) (memory_state self.new) }
        ensures cause { OnErr result (Rose (memory_state self.old).faults (memory_state self.new).faults) }
        ensures no_fault { OnOk result ((memory_state self.new).faults ≡ (memory_state self.old).faults) }
        ensures told { MustFail self.old → IsErr result }
        ensures why { IsErr result → MustFail self.old ⊎ Rose (refused_of self.old) (refused_of self.new) }
        ensures past { OnOk result (past_of self.new ≡ with_event (Cut name.now len) (past_of self.old)) }
        ensures failed { OnErr result (past_of self.new ≡ past_of self.old) }
        ensures refused { OnOk result (refused_of self.new ≡ refused_of self.old) }
        ensures failures { KeepsFailures self.old self.new }
    {
        self.count()?;
        let outcome = self.history.cut(name, len);
        self.finish(outcome)
    }

    fn remove(&mut self, name: &[u8]) -> Result<(), Failed>
        requires { IsStoreName name.now }
        ensures ok { Unit {0}
            → OnOk result (IsRemoved name.now (memory_state self.old).files (memory_state self.new).files) }
        ensures err { Unit {0}
            → OnErr result (((memory_state self.new).files ≡ (memory_state self.old).files)
            ⊎ IsRemoved name.now (memory_state self.old).files (memory_state self.new).files) }
        ensures crash { Unit {0}
            → Follows (RemoveLeaves name.now) (memory_state self.old).may_leave (memory_state self.new).may_leave }
        ensures time { Passes (memory_state self.old) (memory_state self.new) (memory_state self.new).may_leave }
        ensures counts { CountsCall (memory_state self.old) (memory_state self.new) }
        ensures cause { OnErr result (Rose (memory_state self.old).faults (memory_state self.new).faults) }
        ensures no_fault { OnOk result ((memory_state self.new).faults ≡ (memory_state self.old).faults) }
        ensures told { MustFail self.old → IsErr result }
        ensures why { IsErr result → MustFail self.old ⊎ Rose (refused_of self.old) (refused_of self.new) }
        ensures past { OnOk result (past_of self.new ≡ with_event (Removed name.now) (past_of self.old)) }
        ensures failed { OnErr result (past_of self.new ≡ past_of self.old) }
        ensures refused { OnOk result (refused_of self.new ≡ refused_of self.old) }
        ensures failures { KeepsFailures self.old self.new }
    {
        self.count()?;
        let outcome = self.history.remove(name);
        self.finish(outcome)
    }

    fn sync(&mut self) -> Result<(), Failed>
        ensures settled { Unit {0}
            → OnOk result (Only (memory_state self.old).files (memory_state self.new).may_leave) }
        ensures next { Unit {0}
            → OnOk result ((memory_state self.new).moment ≡ (memory_state self.old).moment + 1) }
        ensures reads { OnlyReads (Unit {0}) (memory_state self.old) (memory_state self.new) }
        ensures calls { (memory_state self.new).calls ≡ counted (memory_state self.old).calls }
        ensures cause { OnErr result (Rose (memory_state self.old).faults (memory_state self.new).faults) }
        ensures no_fault { OnOk result ((memory_state self.new).faults ≡ (memory_state self.old).faults) }
        ensures told { MustFail self.old → IsErr result }
        ensures why { IsErr result → MustFail self.old ⊎ Rose (refused_of self.old) (refused_of self.new) }
        ensures past { OnOk result (past_of self.new ≡ with_event Synced (past_of self.old)) }
        ensures failed { OnErr result (past_of self.new ≡ past_of self.old) }
        ensures refused { OnOk result (refused_of self.new ≡ refused_of self.old) }
        ensures failures { KeepsFailures self.old self.new }
    {
        self.count()?;
        let outcome = self.history.sync();
        self.finish(outcome)
    }

    ghost coherent = { coherent_disk };
}
