//! Machines as a library lists them: their slots, their snapshots, which images each uses, and the edits of all these.
#![tactic(auto)]

mod holders;
mod renumbering;
mod slots;
mod snapshots;

pub use holders::holders_of;
pub use renumbering::{Renumbering, place_for, renumbered};
pub use slots::{attach, detach, numbers_to_reset, reset};
pub use snapshots::{dependents, numbers_to_restore, numbers_to_take, remove, restore_to, take};
use std::alloc::Global;
use vbm_named::{ByName, Named};
use vbm_ports::{Copied, NoMemory, Sequence, Text};

/// Which image a slot uses, or a place of a snapshot.
#[derive(Clone, Copy, Debug, PartialEq, Eq)]
pub enum Held {
    /// The medium's own image.
    Direct,
    /// The inner image of this number.
    Own(u64),
    /// In a snapshot, the medium's own file as it was when the snapshot was taken.
    Base,
}

/// A slot of a machine, or a place of a snapshot.
#[derive(Clone, Copy, Debug, PartialEq, Eq)]
pub struct Slot {
    /// From 0 to 29.
    pub port: u8,
    /// The medium's place in the library's list.
    pub medium: u32,
    /// Whether a start makes the slot's own image empty.
    pub autoreset: bool,
    pub held: Held,
}

impl Copied for Slot {
    fn copied(&self, _alloc: Global) -> Result<Slot, NoMemory> {
        Ok(*self)
    }
}

/// Slots, in the order of their ports.
pub type Slots = Sequence<Slot>;

/// A snapshot of a machine.
#[derive(Drop)]
pub struct Snapshot {
    pub name: Text,
    /// The place in the machine's list of the snapshot that it was taken after.
    pub parent: Option<u32>,
    pub slots: Slots,
}

impl Named for Snapshot {
    ghost name_of = { λ snapshot. snapshot.name };

    fn name(&self) -> &[u8] {
        self.name.bytes()
    }
}

impl Copied for Snapshot {
    fn copied(&self, alloc: Global) -> Result<Snapshot, NoMemory> {
        Ok(Snapshot {
            name: self.name.copied(alloc)?,
            parent: self.parent,
            slots: self.slots.copied(alloc)?,
        })
    }
}

/// Snapshots, in the order of their names.
pub type Snapshots = ByName<Snapshot>;

/// A machine.
#[derive(Drop)]
pub struct Machine {
    pub name: Text,
    pub running: bool,
    pub slots: Slots,
    pub snapshots: Snapshots,
    /// The place of the current snapshot in the machine's list.
    pub current: Option<u32>,
}

impl Named for Machine {
    ghost name_of = { λ machine. machine.name };

    fn name(&self) -> &[u8] {
        self.name.bytes()
    }
}

impl Copied for Machine {
    fn copied(&self, alloc: Global) -> Result<Machine, NoMemory> {
        Ok(Machine {
            name: self.name.copied(alloc)?,
            running: self.running,
            slots: self.slots.copied(alloc)?,
            snapshots: self.snapshots.copied(alloc)?,
            current: self.current,
        })
    }
}

/// Machines, in the order of their names.
pub type Machines = ByName<Machine>;
