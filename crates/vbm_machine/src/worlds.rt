//! Worlds that commands may be done in.

ghost use Rattle.std.specs.Prelude.{◌≡◌, ◌≤◌, ◌^◌, false, is_some, IfOk, IsTrue};
ghost use Rattle.vbm_ports.specs.Names.{is_medium_name};
ghost use Rattle.vbm_named.specs.Names.{find_by, put_by, Rises};
ghost use Rattle.vbm_world.specs.World.{medium_name};
ghost use Rattle.vbm_world.specs.Seen.{seen, file_name};
ghost use Rattle.vbm_world.specs.Sound.{IsSound, IsSoundFile};
ghost use Rattle.vbm_world.specs.Texts.{IsSpelled};

use crate::ended::Ended;
use std::alloc::Global;
use std::marker::Model;
use uuid::Uuid;
use vbm_named::names;
use vbm_ports::{Copied, NoMemory, Sequence, Text, names_medium};
use vbm_world::{Answer, Command, ShelfFile, Shelved, World};

/// A sound world.
#[derive(Drop)]
pub(crate) struct SoundWorld {
    world: World,
}

impl Model for SoundWorld {
    ghost use Rattle.vbm_named.specs.Names.{Rises};
    ghost use Rattle.vbm_world.specs.declared.world.World.{World};
    ghost use Rattle.vbm_world.specs.Seen.{seen, file_name};
    ghost use Rattle.vbm_world.specs.Sound.{IsSound};

    ghost Value = { World };

    ghost view = { λ sound. sound.world };

    ghost invariant = { λ sound. IsSound (seen sound.world) × Rises file_name sound.world.shelf };
}

// A sound world with one more file on the shelf, of a name that is free.
fn with_shelved(alloc: Global, world: &World, file: ShelfFile) -> Result<World, NoMemory>
    requires sound { IsSound (seen world.now) }
    requires order { Rises file_name world.now.shelf }
    requires named { IsTrue (is_medium_name file.name) }
    requires free { is_some (find_by medium_name file.name world.now.media) ≡ false }
    requires absent { is_some (find_by file_name file.name world.now.shelf) ≡ false }
    requires content { IsSoundFile file.content }
    ensures sound { IfOk result (λ new. IsSound (seen new)) }
    ensures order { IfOk result (λ new. Rises file_name new.shelf) }
{
    shelved(alloc, world, file)
}

// A world with one more file on the shelf.
fn shelved(alloc: Global, world: &World, file: ShelfFile) -> Result<World, NoMemory>
    ensures { IfOk result (λ new. new ≡ record world.now { shelf = put_by file_name file world.now.shelf }) }
{
    Ok(World {
        seed: world.seed,
        next: world.next,
        inner: world.inner,
        media: world.media.copied(alloc)?,
        machines: world.machines.copied(alloc)?,
        shelf: names::with(alloc, world.shelf.as_slice(), file)?,
    })
}

impl SoundWorld {
    /// A world with nothing in it.
    pub(crate) fn new(alloc: Global, seed: Uuid) -> SoundWorld {
        SoundWorld {
            world: World {
                seed,
                next: 0,
                inner: 0,
                media: Sequence::new(alloc),
                machines: Sequence::new(alloc),
                shelf: Sequence::new(alloc),
            },
        }
    }

    /// The same world, in which so many numbers were drawn.
    pub(crate) fn counted(self, next: u64, inner: u64) -> SoundWorld
        requires next { next ≤ 2 ^ 62 }
        requires inner { inner ≤ 2 ^ 62 }
    {
        let World {
            seed,
            next: _,
            inner: _,
            media,
            machines,
            shelf,
        } = self.world;
        SoundWorld {
            world: World {
                seed,
                next,
                inner,
                media,
                machines,
                shelf,
            },
        }
    }

    /// The world with one more file on the shelf; without it where the name is taken or no medium's.
    pub(crate) fn with_file(
        &self,
        alloc: Global,
        name: &str,
        content: Shelved,
    ) -> Result<SoundWorld, Ended>
        requires { IsSoundFile content }
    {
        let name = name.as_bytes();
        if !names_medium(name)
            || names::find(self.world.media.as_slice(), name).is_some()
            || names::find(self.world.shelf.as_slice(), name).is_some()
        {
            return Err(Ended::Here("no free name of a medium"));
        }
        let file = ShelfFile {
            name: Text::new(alloc, name)?,
            content,
        };
        Ok(SoundWorld {
            world: with_shelved(alloc, &self.world, file)?,
        })
    }

    /// The world after a command, and the answer.
    pub(crate) fn step(
        &self,
        alloc: Global,
        command: &Command,
    ) -> Result<(SoundWorld, Answer), NoMemory>
        requires { IsSpelled command.now }
    {
        let (world, answer) = self.world.step(alloc, command)?;
        Ok((SoundWorld { world }, answer))
    }

    /// A copy.
    pub(crate) fn copied(&self, alloc: Global) -> Result<SoundWorld, NoMemory> {
        Ok(SoundWorld {
            world: self.world.copied(alloc)?,
        })
    }
}
