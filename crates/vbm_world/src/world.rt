//! Worlds: media with flat disks, machines with their snapshots, and files that are no media.

use uuid::Uuid;
use vbm_ids::Identified;
use vbm_modes::Mode;
use vbm_named::Named;
use vbm_ports::{Sequence, Text};
use vbm_volume::{Flat, Sector, Variant, Volume};

/// The sectors of a differencing image, none where its block is free.
pub type LinkSectors = Sequence<Option<Sector>>;

/// A differencing image that is no medium's.
#[derive(Drop)]
pub struct LinkFile {
    pub id: Uuid,
    pub modify: Uuid,
    /// The identifier of the image below it.
    pub link: Uuid,
    /// The modification identifier that the image below it had.
    pub parent_modify: Uuid,
    /// In bytes.
    pub capacity: u64,
    pub sectors: LinkSectors,
}

/// What a file of the shelf holds.
#[derive(Drop)]
pub enum Shelved {
    /// A disk.
    Volume(Volume),
    /// A differencing image.
    Link(LinkFile),
    /// No image: the number of the first condition that fails, from 1.
    Bad(u32),
}

/// A file that has a medium's name and is no medium.
#[derive(Drop)]
pub struct ShelfFile {
    pub name: Text,
    pub content: Shelved,
}

impl Named for ShelfFile {
    ghost use Rattle.vbm_world.specs.Seen.{file_name};

    ghost name_of = { file_name };

    fn name(&self) -> &[u8] {
        self.name.bytes()
    }
}

/// Files, in the order of their names.
pub type Shelf = Sequence<ShelfFile>;

/// A medium, with its disk. A frozen medium has none.
#[derive(Drop)]
pub struct WorldMedium {
    pub name: Text,
    pub id: Uuid,
    /// Another one is drawn where the disk changes for the first time since a start.
    pub modify: Uuid,
    /// Whether the disk has changed since a start.
    pub changed: bool,
    pub mode: Mode,
    pub variant: Variant,
    /// In bytes.
    pub capacity: u64,
    pub flat: Option<Flat>,
}

impl Named for WorldMedium {
    ghost use Rattle.vbm_world.specs.World.{medium_name};

    ghost name_of = { medium_name };

    fn name(&self) -> &[u8] {
        self.name.bytes()
    }
}

impl Identified for WorldMedium {
    ghost use Rattle.vbm_world.specs.World.{medium_id};

    ghost id_of = { medium_id };

    fn id(&self) -> Uuid {
        self.id
    }
}

/// Media, in the order of their names.
pub type WorldMedia = Sequence<WorldMedium>;

/// A slot of a machine, or a place of a snapshot.
#[derive(Drop)]
pub struct WorldSlot {
    /// From 0 to 29.
    pub port: u8,
    /// The medium's name.
    pub medium: Text,
    /// Whether a start resets the disk.
    pub autoreset: bool,
    /// The slot's own disk, none where its disk is the medium's.
    pub own: Option<Flat>,
}

/// Slots, in the order of their ports.
pub type WorldSlots = Sequence<WorldSlot>;

/// A snapshot of a machine.
#[derive(Drop)]
pub struct WorldSnapshot {
    pub name: Text,
    /// The name of the snapshot that it was taken after.
    pub parent: Option<Text>,
    pub slots: WorldSlots,
}

impl Named for WorldSnapshot {
    ghost use Rattle.vbm_world.specs.World.{snapshot_name};

    ghost name_of = { snapshot_name };

    fn name(&self) -> &[u8] {
        self.name.bytes()
    }
}

/// Snapshots, in the order of their names.
pub type WorldSnapshots = Sequence<WorldSnapshot>;

/// A machine.
#[derive(Drop)]
pub struct WorldMachine {
    pub name: Text,
    pub running: bool,
    pub slots: WorldSlots,
    pub snapshots: WorldSnapshots,
    /// The name of the current snapshot.
    pub current: Option<Text>,
}

impl Named for WorldMachine {
    ghost use Rattle.vbm_world.specs.World.{machine_name};

    ghost name_of = { machine_name };

    fn name(&self) -> &[u8] {
        self.name.bytes()
    }
}

/// Machines, in the order of their names.
pub type WorldMachines = Sequence<WorldMachine>;

/// All that a store is: a machine that has no maps, positions or chains.
#[derive(Drop)]
pub struct World {
    /// The seed of its identifiers.
    pub seed: Uuid,
    /// How many identifiers of media were drawn.
    pub next: u64,
    /// How many identifiers of inner images were drawn.
    pub inner: u64,
    pub media: WorldMedia,
    pub machines: WorldMachines,
    pub shelf: Shelf,
}
