//! Copies of all that a world holds.

use crate::world::{
    LinkFile, ShelfFile, Shelved, World, WorldMachine, WorldMedium, WorldSlot, WorldSnapshot,
};
use std::alloc::Global;
use vbm_ports::{Copied, NoMemory};

impl Copied for WorldSlot {
    fn copied(&self, alloc: Global) -> Result<WorldSlot, NoMemory> {
        Ok(WorldSlot {
            port: self.port,
            medium: self.medium.copied(alloc)?,
            autoreset: self.autoreset,
            own: Copied::copied(&self.own, alloc)?,
        })
    }
}

impl Copied for WorldSnapshot {
    fn copied(&self, alloc: Global) -> Result<WorldSnapshot, NoMemory> {
        Ok(WorldSnapshot {
            name: self.name.copied(alloc)?,
            parent: Copied::copied(&self.parent, alloc)?,
            slots: self.slots.copied(alloc)?,
        })
    }
}

impl Copied for WorldMachine {
    fn copied(&self, alloc: Global) -> Result<WorldMachine, NoMemory> {
        Ok(WorldMachine {
            name: self.name.copied(alloc)?,
            running: self.running,
            slots: self.slots.copied(alloc)?,
            snapshots: self.snapshots.copied(alloc)?,
            current: Copied::copied(&self.current, alloc)?,
        })
    }
}

impl Copied for WorldMedium {
    fn copied(&self, alloc: Global) -> Result<WorldMedium, NoMemory> {
        Ok(WorldMedium {
            name: self.name.copied(alloc)?,
            id: self.id,
            modify: self.modify,
            changed: self.changed,
            mode: self.mode,
            variant: self.variant,
            capacity: self.capacity,
            flat: Copied::copied(&self.flat, alloc)?,
        })
    }
}

impl Copied for LinkFile {
    fn copied(&self, alloc: Global) -> Result<LinkFile, NoMemory> {
        Ok(LinkFile {
            id: self.id,
            modify: self.modify,
            link: self.link,
            parent_modify: self.parent_modify,
            capacity: self.capacity,
            sectors: self.sectors.copied(alloc)?,
        })
    }
}

impl Copied for Shelved {
    fn copied(&self, alloc: Global) -> Result<Shelved, NoMemory> {
        match self {
            Shelved::Volume(volume) => Ok(Shelved::Volume(volume.copied(alloc)?)),
            Shelved::Link(link) => Ok(Shelved::Link(link.copied(alloc)?)),
            Shelved::Bad(condition) => Ok(Shelved::Bad(*condition)),
        }
    }
}

impl Copied for ShelfFile {
    fn copied(&self, alloc: Global) -> Result<ShelfFile, NoMemory> {
        Ok(ShelfFile {
            name: self.name.copied(alloc)?,
            content: self.content.copied(alloc)?,
        })
    }
}

impl Copied for World {
    fn copied(&self, alloc: Global) -> Result<World, NoMemory> {
        Ok(World {
            seed: self.seed,
            next: self.next,
            inner: self.inner,
            media: self.media.copied(alloc)?,
            machines: self.machines.copied(alloc)?,
            shelf: self.shelf.copied(alloc)?,
        })
    }
}
