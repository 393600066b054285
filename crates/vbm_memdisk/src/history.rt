//! The files of a disk in memory, and what happened to them.

ghost use Rattle.std.specs.Prelude.{◌≡◌, ◌+◌, ◌^◌, ◌≤◌, ℕ, List, [], ◌∷◌, ◌++◌, length, reverse, Option, None, IfOk, OnOk, OnErr, option_copied};
ghost use Rattle.std.proofs.Props.{props};
ghost use Rattle.vbm_ports.specs.Files.{bytes_of};
ghost use Rattle.vbm_memdisk.specs.Folders.{files_in, AreNames};
ghost use Rattle.vbm_memdisk.specs.Events.{after_event, files_after};
ghost use Rattle.vbm_ports.specs.declared.disk.TheConstants.{LONGEST_FILE};

use crate::Pick;
use crate::events::{Event, Whole, Write};
use crate::folder::Folder;
use crate::replay::{apply, replayed};
use std::alloc::Global;
use vbm_ports::{Bytes, Names, NoMemory, Text};

/// Settled files, what happened to them since, and the files that it left.
#[derive(Drop)]
pub(crate) struct History {
    alloc: Global,
    first: Folder,
    // A cache.
    present: Folder,
    // The newest comes last.
    events: Vec<Event>,
    ghost cached: { (name : List ℕ) → files_in present name ≡ files_after (files_in first) (reverse events.items) name } by { Prim.hlevel props },
    ghost short: { (name : List ℕ) → length (bytes_of (files_in first name)) ≤ LONGEST_FILE },
}

impl History {
    ghost use Rattle.vbm_memdisk.specs.declared.events.Event.TheVariants.{Cut, Removed, Synced};
    ghost use Rattle.vbm_memdisk.specs.Past.{past_in, settled_past, with_event, files_now, picked_files, AddsWrite, Puts};

    /// No files.
    pub(crate) fn new(alloc: Global) -> History
        ensures { past_in result ≡ settled_past (λ name. None) }
    {
        History {
            alloc,
            first: Folder::new(alloc),
            present: Folder::new(alloc),
            events: Vec::new(alloc),
        }
    }

    // These files, all settled.
    fn of_settled(alloc: Global, first: Folder) -> Result<History, NoMemory>
        requires { (name : List ℕ) → length (bytes_of (files_in first name)) ≤ LONGEST_FILE }
        ensures { IfOk result (λ history. past_in history ≡ settled_past (files_in first)) }
    {
        let present = first.copy()?;
        Ok(History {
            alloc,
            first,
            present,
            events: Vec::new(alloc),
        })
    }

    /// The files of the image of a pick, all settled.
    pub(crate) fn picked(&self, pick: Pick) -> Result<History, NoMemory>
        ensures { IfOk result (λ history. past_in history ≡ settled_past (picked_files pick (past_in self.now))) }
    {
        let files = replayed(&self.first, self.events.as_slice(), pick)?;
        History::of_settled(self.alloc, files)
    }

    /// Lends a file's bytes, if it is there.
    pub(crate) fn file(&self, name: &[u8]) -> Option<&[u8]>
        ensures { option_copied result ≡ files_now (past_in self.now) name.now }
    {
        self.present.get(name)
    }

    /// The names of the files.
    pub(crate) fn names(&self) -> Result<Names, NoMemory>
        ensures { IfOk result (λ names. AreNames names (files_now (past_in self.now))) }
    {
        self.present.names()
    }

    /// A write, of which the first `kept` bytes are read.
    pub(crate) fn write(
        &mut self,
        name: &[u8],
        at: u64,
        bytes: &[u8],
        kept: usize,
    ) -> Result<(), NoMemory>
        requires end { at + length bytes.now ≤ LONGEST_FILE }
        requires part { kept ≤ length bytes.now }
        ensures ok { OnOk result (AddsWrite name.now at bytes.now kept (past_in self.old) (past_in self.new)) }
        ensures err { OnErr result (past_in self.new ≡ past_in self.old) }
    {
        let name = Text::new(self.alloc, name)?;
        let bytes = Bytes::from_slice(self.alloc, bytes)?;
        self.add(Event::Wrote(Write {
            name,
            at,
            bytes,
            kept,
        }))
    }

    /// A cut.
    pub(crate) fn cut(&mut self, name: &[u8], len: u64) -> Result<(), NoMemory>
        ensures ok { OnOk result (past_in self.new ≡ with_event (Cut name.now len) (past_in self.old)) }
        ensures err { OnErr result (past_in self.new ≡ past_in self.old) }
    {
        let name = Text::new(self.alloc, name)?;
        self.add(Event::Cut { name, len })
    }

    /// A removal.
    pub(crate) fn remove(&mut self, name: &[u8]) -> Result<(), NoMemory>
        ensures ok { OnOk result (past_in self.new ≡ with_event (Removed name.now) (past_in self.old)) }
        ensures err { OnErr result (past_in self.new ≡ past_in self.old) }
    {
        let name = Text::new(self.alloc, name)?;
        self.add(Event::Removed { name })
    }

    /// A sync.
    pub(crate) fn sync(&mut self) -> Result<(), NoMemory>
        ensures ok { OnOk result (past_in self.new ≡ with_event Synced (past_in self.old)) }
        ensures err { OnErr result (past_in self.new ≡ past_in self.old) }
    {
        self.add(Event::Synced)
    }

    /// A file that is put, which is settled at once.
    pub(crate) fn put(&mut self, name: &[u8], bytes: &[u8]) -> Result<(), NoMemory>
        requires { length bytes.now ≤ LONGEST_FILE }
        ensures ok { OnOk result (Puts name.now bytes.now (past_in self.old) (past_in self.new)) }
        ensures err { OnErr result (past_in self.new ≡ past_in self.old) }
    {
        let name = Text::new(self.alloc, name)?;
        let bytes = Bytes::from_slice(self.alloc, bytes)?;
        self.add(Event::Put(Whole { name, bytes }))
    }

    // One event more.
    fn add(&mut self, event: Event) -> Result<(), NoMemory>
        ensures ok { OnOk result (past_in self.new ≡ with_event event (past_in self.old)) }
        ensures err { OnErr result (past_in self.new ≡ past_in self.old) }
    {
        add_event(&mut self.present, &mut self.events, event)
    }
}

// Makes an event happen, and keeps it.
fn add_event(present: &mut Folder, events: &mut Vec<Event>, event: Event) -> Result<(), NoMemory>
    ensures kept { OnOk result (events.new.items ≡ events.old.items ++ event ∷ []) }
    ensures happened { OnOk result (files_in present.new ≡ after_event event (files_in present.old)) }
    ensures not_kept { OnErr result (events.new.items ≡ events.old.items) }
    ensures same { OnErr result (files_in present.new ≡ files_in present.old) }
{
    events.reserve(1).map_err(|_| NoMemory)?;
    apply(present, Pick::New, &event)?;
    match events.push(event) {
        Ok(()) => Ok(()),
        Err(_) => Err(NoMemory),
    }
}
