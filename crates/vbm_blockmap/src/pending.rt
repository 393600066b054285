//! Entries that wait for a commit.

ghost use Rattle.std.specs.Prelude.{◌≡◌, ◌+◌, ◌≤◌, ◌<◌, [], ◌∷◌, ◌++◌, length, slice_get, Some, None, OnOk, OnErr};
ghost use Rattle.vbm_blockmap.specs.Pending.{position_in};

use indexmap::IndexMap;
use std::alloc::Global;
use std::marker::Model;
use vbm_ports::NoMemory;

/// The staged blocks of an image and their positions, in the order in which they were staged. No block is staged twice.
#[derive(Drop)]
pub struct Pending {
    entries: IndexMap<u32, u32>,
}

impl Model for Pending {
    ghost use Rattle.indexmap.specs.IndexMap.{spare};
    ghost use Rattle.vbm_blockmap.specs.Pending.{PendingState};

    ghost Value = { PendingState };

    ghost view = { λ p. record { staged = p.entries.entries; spare = spare p.entries } };
}

impl Pending {
    /// No entries. It takes no memory.
    pub fn new(alloc: Global) -> Pending
        ensures { result.staged ≡ [] }
    {
        Pending {
            entries: IndexMap::new(alloc),
        }
    }

    /// How many entries are staged.
    pub fn len(&self) -> usize
        ensures { result ≡ length self.now.staged }
    {
        self.entries.len()
    }

    /// Makes room for n more entries, or changes no entry.
    pub fn reserve(&mut self, n: u32) -> Result<(), NoMemory>
        ensures ok { OnOk result (n ≤ self.new.spare) }
        ensures same { self.new.staged ≡ self.old.staged }
        ensures spare { self.old.spare ≤ self.new.spare }
    {
        match self.entries.reserve(n as usize) {
            Ok(()) => Ok(()),
            Err(_) => Err(NoMemory),
        }
    }

    /// Stages an entry for a block that has none yet. It takes no memory.
    pub fn insert(&mut self, block: u32, at: u32)
        requires room { 0 < self.old.spare }
        requires another { position_in self.old.staged block ≡ None }
        ensures staged { self.new.staged ≡ self.old.staged ++ (block, at) ∷ [] }
        ensures spare { self.old.spare ≤ self.new.spare + 1 }
    {
        let _ = self.entries.insert(block, at);
    }

    /// The position of a block, if it is staged.
    pub fn get(&self, block: u32) -> Option<u32>
        ensures { result ≡ position_in self.now.staged block }
    {
        self.entries.get(&block).copied()
    }

    /// The block and the position of an entry, by its place in the order of staging.
    pub fn entry(&self, i: usize) -> (u32, u32)
        requires { i < length self.now.staged }
        ensures { slice_get self.now.staged i ≡ Some (result.0, result.1) }
    {
        match self.entries.get_index(i) {
            Some((block, at)) => (*block, *at),
            None => (0, 0),
        }
    }

    /// Forgets all entries, and keeps the room.
    pub fn clear(&mut self)
        ensures none { self.new.staged ≡ [] }
        ensures spare { self.old.spare ≤ self.new.spare }
    {
        self.entries.clear();
    }
}
