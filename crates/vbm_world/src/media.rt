//! The commands on media, plain and slow: each copies all disks.

ghost use Rattle.std.specs.Prelude.{◌≡◌, ◌<◌, map, if◌then◌else◌, IfOk, Some, None};
ghost use Rattle.std.specs.Option.{option_copied};
ghost use Rattle.vbm_named.specs.Names.{Rises};
ghost use Rattle.vbm_world.specs.World.{medium_name, medium_of, with_shelved, is_frozen};
ghost use Rattle.vbm_world.specs.Refusals.{capacity_of, first_refusal};
ghost use Rattle.vbm_world.specs.Outcomes.{refused};
ghost use Rattle.vbm_world.specs.Media.{create_checks, made_medium, create_medium, opened_medium, opened, open_medium};
ghost use Rattle.vbm_world.specs.Media.{volume_of, shelved, close_medium, show_medium_info, list_hdds};
ghost use Rattle.vbm_world.specs.Seen.{seen, on_shelf, file_name, outcome_of};
ghost use Rattle.vbm_world.specs.Sound.{IsSound};
ghost use Rattle.vbm_world.specs.declared.command.Answer.TheVariants as answers;
ghost use Rattle.vbm_world.specs.declared.world.Shelved.TheVariants as files;

use crate::command::{Answer, Refusal, Size};
use crate::shelf::{with_file, without_file};
use crate::world::{Shelf, Shelved, World, WorldMedia, WorldMedium};
use std::alloc::Global;
use vbm_ids::{Kind, NUMBER_LIMIT, id_of};
use vbm_modes::Mode;
use vbm_named::names;
use vbm_ports::{Copied, Names, NoMemory, Sequence, Text};
use vbm_volume::{Flat, Variant, Volume};

// The world after a command, and the answer.
pub(crate) type Stepped = Result<(World, Answer), NoMemory>;

// A medium as a file of the shelf.
fn volume_of(alloc: Global, medium: &WorldMedium, flat: &Flat) -> Result<Volume, NoMemory>
    ensures { IfOk result (λ volume. volume ≡ volume_of medium.now flat.now) }
{
    Ok(Volume {
        id: medium.id,
        modify: medium.modify,
        variant: medium.variant,
        capacity: medium.capacity,
        flat: flat.copied(alloc)?,
    })
}

// A file of the shelf as a medium.
fn opened_medium(alloc: Global, name: &[u8], volume: &Volume) -> Result<WorldMedium, NoMemory>
    ensures { IfOk result (λ medium. medium ≡ opened_medium name.now volume.now) }
{
    Ok(WorldMedium {
        name: Text::new(alloc, name)?,
        id: volume.id,
        modify: volume.modify,
        changed: false,
        mode: Mode::Normal,
        variant: volume.variant,
        capacity: volume.capacity,
        flat: Some(volume.flat.copied(alloc)?),
    })
}

impl World {
    // A new medium of zeros.
    #[tactic(auto, unfolding(crate::specs::World::zero_disk))]
    fn made_medium(
        &self,
        alloc: Global,
        name: &[u8],
        capacity: u64,
        variant: Variant,
    ) -> Result<WorldMedium, NoMemory>
        requires { self.now.next < NUMBER_LIMIT }
        ensures { IfOk result (λ medium. medium ≡ made_medium (seen self.now) name.now capacity variant) }
    {
        Ok(WorldMedium {
            name: Text::new(alloc, name)?,
            id: id_of(self.seed, Kind::Medium, self.next),
            modify: id_of(self.seed, Kind::Modify, self.next),
            changed: false,
            mode: Mode::Normal,
            variant,
            capacity,
            flat: Some(Flat::zeros(alloc, capacity / 512)?),
        })
    }

    // This world with other media and another shelf.
    pub(crate) fn replaced(
        &self,
        alloc: Global,
        media: WorldMedia,
        shelf: Shelf,
    ) -> Result<World, NoMemory>
        ensures { IfOk result (λ world. world ≡ record self.now { media = media; shelf = shelf }) }
    {
        Ok(World {
            seed: self.seed,
            next: self.next,
            inner: self.inner,
            media,
            machines: self.machines.copied(alloc)?,
            shelf,
        })
    }

    // A refused command changes nothing.
    pub(crate) fn refused(&self, alloc: Global, refusal: Refusal) -> Stepped
        ensures outcome { IfOk result (λ r. outcome_of r ≡ refused (seen self.now) refusal) }
        ensures shelf { IfOk result (λ r. r.0.shelf ≡ self.now.shelf) }
    {
        Ok((self.copied(alloc)?, Answer::Refused(refusal)))
    }

    // Makes a medium where no check refuses it.
    fn add_medium(&self, alloc: Global, name: &[u8], capacity: u64, variant: Variant) -> Stepped
        requires allowed { first_refusal (create_checks (seen self.now) name.now capacity) ≡ None }
        ensures outcome { IfOk result (λ r. outcome_of r ≡ create_medium (seen self.now) name.now capacity variant) }
        ensures shelf { IfOk result (λ r. r.0.shelf ≡ self.now.shelf) }
    {
        let medium = self.made_medium(alloc, name, capacity, variant)?;
        let id = medium.id;
        let media = names::with(alloc, self.media.as_slice(), medium)?;
        let shelf = self.shelf.copied(alloc)?;
        let mut world = self.replaced(alloc, media, shelf)?;
        world.next += 1;
        Ok((world, Answer::Id(id)))
    }

    pub(crate) fn create_medium(
        &self,
        alloc: Global,
        name: &[u8],
        size: Size,
        variant: Variant,
    ) -> Stepped
        ensures outcome { IfOk result (λ r. outcome_of r ≡ create_medium (seen self.now) name.now (capacity_of size) variant) }
        ensures shelf { IfOk result (λ r. r.0.shelf ≡ self.now.shelf) }
    {
        let capacity = size.capacity();
        match self.create_refusal(name, capacity) {
            Some(refusal) => self.refused(alloc, refusal),
            None => self.add_medium(alloc, name, capacity as u64, variant),
        }
    }

    // The medium of a volume, which leaves the shelf.
    fn open_volume(&self, alloc: Global, name: &[u8], volume: &Volume) -> Stepped
        requires order { Rises file_name self.now.shelf }
        ensures outcome { IfOk result (λ r. outcome_of r ≡ opened (seen self.now) name.now (Some (files.Volume volume.now))) }
        ensures order { IfOk result (λ r. Rises file_name r.0.shelf) }
    {
        let medium = opened_medium(alloc, name, volume)?;
        let media = names::with(alloc, self.media.as_slice(), medium)?;
        let shelf = without_file(alloc, self.shelf.as_slice(), name)?;
        let world = self.replaced(alloc, media, shelf)?;
        Ok((world, Answer::Id(volume.id)))
    }

    // A file that is no volume is refused before this.
    fn open_file(&self, alloc: Global, name: &[u8], file: Option<&Shelved>) -> Stepped
        requires order { Rises file_name self.now.shelf }
        ensures outcome { IfOk result (λ r. outcome_of r ≡ opened (seen self.now) name.now (option_copied file.entry)) }
        ensures order { IfOk result (λ r. Rises file_name r.0.shelf) }
    {
        match file {
            Some(Shelved::Volume(volume)) => self.open_volume(alloc, name, volume),
            Some(Shelved::Link(_)) | Some(Shelved::Bad(_)) | None => {
                Ok((self.copied(alloc)?, Answer::Done))
            }
        }
    }

    pub(crate) fn open_medium(&self, alloc: Global, name: &[u8]) -> Stepped
        requires order { Rises file_name self.now.shelf }
        ensures outcome { IfOk result (λ r. outcome_of r ≡ open_medium (seen self.now) name.now) }
        ensures order { IfOk result (λ r. Rises file_name r.0.shelf) }
    {
        match self.open_refusal(name) {
            Some(refusal) => self.refused(alloc, refusal),
            None => self.open_file(alloc, name, self.on_shelf(name)),
        }
    }

    // The shelf after a medium was closed.
    fn shelf_after(
        &self,
        alloc: Global,
        name: &[u8],
        medium: &WorldMedium,
        delete: bool,
    ) -> Result<Shelf, NoMemory>
        requires absent { on_shelf self.now.shelf name.now ≡ None }
        requires order { Rises file_name self.now.shelf }
        ensures holds { IfOk result (λ shelf. on_shelf shelf ≡ (if delete then on_shelf self.now.shelf
            else with_shelved (on_shelf self.now.shelf) name.now (shelved medium.now medium.now.flat))) }
        ensures order { IfOk result (λ shelf. Rises file_name shelf) }
    {
        if delete {
            return self.shelf.copied(alloc);
        }
        match &medium.flat {
            Some(flat) => {
                let volume = volume_of(alloc, medium, flat)?;
                with_file(alloc, self.shelf.as_slice(), name, Shelved::Volume(volume))
            }
            None => without_file(alloc, self.shelf.as_slice(), name),
        }
    }

    // Closes a medium that was found.
    fn close_found(&self, alloc: Global, name: &[u8], medium: &WorldMedium, delete: bool) -> Stepped
        requires sound { IsSound (seen self.now) }
        requires order { Rises file_name self.now.shelf }
        requires found { medium_of (seen self.now) name.now ≡ Some medium.now }
        ensures outcome { IfOk result (λ r. outcome_of r ≡ close_medium (seen self.now) name.now delete) }
        ensures order { IfOk result (λ r. Rises file_name r.0.shelf) }
    {
        if let Some(refusal) = self.close_refusal(name) {
            return self.refused(alloc, refusal);
        }
        let media = names::without(alloc, self.media.as_slice(), name)?;
        let shelf = self.shelf_after(alloc, name, medium, delete)?;
        Ok((self.replaced(alloc, media, shelf)?, Answer::Done))
    }

    pub(crate) fn close_medium(&self, alloc: Global, name: &[u8], delete: bool) -> Stepped
        requires sound { IsSound (seen self.now) }
        requires order { Rises file_name self.now.shelf }
        ensures outcome { IfOk result (λ r. outcome_of r ≡ close_medium (seen self.now) name.now delete) }
        ensures order { IfOk result (λ r. Rises file_name r.0.shelf) }
    {
        match self.medium(name) {
            Some(medium) => self.close_found(alloc, name, medium, delete),
            None => self.refused(alloc, Refusal::NoSuchMedium),
        }
    }

    fn info(&self, medium: &WorldMedium) -> Answer
        ensures { result ≡ answers.Info medium.now.id medium.now.modify medium.now.mode medium.now.variant medium.now.capacity
            (is_frozen self.now.machines medium.now) }
    {
        Answer::Info {
            id: medium.id,
            modify: medium.modify,
            mode: medium.mode,
            variant: medium.variant,
            capacity: medium.capacity,
            frozen: self.is_frozen(medium),
        }
    }

    pub(crate) fn show_medium_info(&self, alloc: Global, name: &[u8]) -> Stepped
        ensures outcome { IfOk result (λ r. outcome_of r ≡ show_medium_info (seen self.now) name.now) }
        ensures shelf { IfOk result (λ r. r.0.shelf ≡ self.now.shelf) }
    {
        match self.medium(name) {
            Some(medium) => Ok((self.copied(alloc)?, self.info(medium))),
            None => self.refused(alloc, Refusal::NoSuchMedium),
        }
    }

    fn media_names(&self, alloc: Global) -> Result<Names, NoMemory>
        ensures { IfOk result (λ names. names ≡ map medium_name self.now.media) }
    {
        let mut names = Sequence::new(alloc);
        for medium in self.media.as_slice() {
            names.push(medium.name.copied(alloc)?)?;
        }
        Ok(names)
    }

    pub(crate) fn list_hdds(&self, alloc: Global) -> Stepped
        ensures outcome { IfOk result (λ r. outcome_of r ≡ list_hdds (seen self.now)) }
        ensures shelf { IfOk result (λ r. r.0.shelf ≡ self.now.shelf) }
    {
        let names = self.media_names(alloc)?;
        Ok((self.copied(alloc)?, Answer::MediaList(names)))
    }
}
