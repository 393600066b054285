//! The machine that a store equals: flat disks and whole snapshot copies, its commands and answers.
#![tactic(auto)]

mod changes;
mod clones;
mod command;
mod copy;
mod deleting;
mod disks;
mod guests;
mod importing;
mod limits;
mod lookups;
mod machines;
mod media;
mod modes;
mod places;
mod refusals;
mod shapes;
mod shelf;
mod slots;
mod snapshots;
mod step;
mod taking;
mod world;

pub use command::{
    Answer, Command, PlaceName, Refusal, Size, SnapLine, SnapLines, VmLine, VmLines, Which,
};
pub use limits::{
    CHAIN_LIMIT, FILL_LIMIT, MACHINE_LIMIT, MEDIA_LIMIT, PLACE_LIMIT, PORT_LIMIT, SNAPSHOT_LIMIT,
    WRITE_LIMIT,
};
pub use refusals::is_bad_size;
pub use world::{
    LinkFile, LinkSectors, Shelf, ShelfFile, Shelved, World, WorldMachine, WorldMachines,
    WorldMedia, WorldMedium, WorldSlot, WorldSlots, WorldSnapshot, WorldSnapshots,
};
