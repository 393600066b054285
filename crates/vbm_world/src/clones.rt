//! Copies of disks as media, plain and slow: each copies all disks.

ghost use Rattle.std.specs.Prelude.{◌≡◌, ◌*◌, ◌<◌, ◌≤◌, ◌^◌, [], length, unwrap_or, IfOk, Some, true, ℕ};
ghost use Rattle.vbm_named.specs.Names.{Rises, has_name, change_by};
ghost use Rattle.vbm_world.specs.World.{medium_name, medium_of};
ghost use Rattle.vbm_world.specs.Places.{Place, find_place};
ghost use Rattle.vbm_world.specs.Refusals.{first_refusal};
ghost use Rattle.vbm_world.specs.Outcomes.{unless_refused};
ghost use Rattle.vbm_world.specs.Clones.{copied_medium, entered, clone_checks, clone_new, is_fixed, disk_len};
ghost use Rattle.vbm_world.specs.Clones.{overwritten, overwrite_checks, put_over, clone_existing};
ghost use Rattle.vbm_world.specs.Seen.{seen, outcome_of};
ghost use Rattle.vbm_world.specs.PlacesSeen.{place_seen};
ghost use Rattle.vbm_world.specs.Sound.{IsSound};

use crate::command::{Answer, PlaceName, Refusal, Which};
use crate::disks::{copy_of, disk_len, padded};
use crate::media::Stepped;
use crate::places::FoundPlace;
use crate::world::{World, WorldMedia, WorldMedium};
use std::alloc::Global;
use vbm_ids::{Kind, NUMBER_LIMIT, id_of};
use vbm_modes::{Mode, writable};
use vbm_named::names;
use vbm_named::names::is_same;
use vbm_ports::{Copied, NoMemory, Text};
use vbm_volume::{Flat, Variant};

// Whether all blocks are there from the start.
pub(crate) fn is_fixed(variant: Variant) -> bool
    ensures { result ≡ is_fixed variant }
{
    matches!(variant, Variant::Fixed)
}

impl World {
    // A new medium of the growing variant with this disk.
    fn copied_medium(&self, alloc: Global, name: &[u8], flat: Flat) -> Result<WorldMedium, NoMemory>
        requires room { self.now.next < NUMBER_LIMIT }
        requires size { 512 * length flat ≤ 2 ^ 41 }
        ensures { IfOk result (λ medium. medium ≡ copied_medium (seen self.now) name.now flat) }
    {
        Ok(WorldMedium {
            name: Text::new(alloc, name)?,
            id: id_of(self.seed, Kind::Medium, self.next),
            modify: id_of(self.seed, Kind::Modify, self.next),
            changed: false,
            mode: Mode::Normal,
            variant: Variant::Standard,
            capacity: flat.len() * 512,
            flat: Some(flat),
        })
    }

    // The world with a new medium that has this disk.
    pub(crate) fn entered(&self, alloc: Global, name: &[u8], flat: Flat) -> Stepped
        requires room { self.now.next < NUMBER_LIMIT }
        requires size { 512 * length flat ≤ 2 ^ 41 }
        ensures outcome { IfOk result (λ r. outcome_of r ≡ entered (seen self.now) name.now flat) }
        ensures shelf { IfOk result (λ r. r.0.shelf ≡ self.now.shelf) }
    {
        let medium = self.copied_medium(alloc, name, flat)?;
        let id = medium.id;
        let media = names::with(alloc, self.media.as_slice(), medium)?;
        let mut world = self.with_media(alloc, media)?;
        world.next += 1;
        Ok((world, Answer::Id(id)))
    }

    // This world with other media.
    pub(crate) fn with_media(&self, alloc: Global, media: WorldMedia) -> Result<World, NoMemory>
        ensures { IfOk result (λ world. world ≡ record self.now { media = media }) }
    {
        let shelf = self.shelf.copied(alloc)?;
        self.replaced(alloc, media, shelf)
    }

    fn clone_refusal(&self, place: &FoundPlace, name: &[u8]) -> Option<Refusal>
        ensures { result ≡ first_refusal (clone_checks (seen self.now) (place_seen place.now) name.now) }
    {
        if self.medium(name).is_some() {
            return Some(Refusal::NameTaken);
        }
        if self.on_shelf(name).is_some() {
            return Some(Refusal::FileExists);
        }
        if place.disk.is_none() {
            return Some(Refusal::Frozen);
        }
        if self.is_full() {
            return Some(Refusal::Full(Which::Media));
        }
        if self.is_spent() {
            return Some(Refusal::IdsSpent);
        }
        None
    }

    // Copies the disk of a place that was found.
    fn clone_found(&self, alloc: Global, place: &FoundPlace, name: &[u8]) -> Stepped
        requires size { 512 * disk_len (place_seen place.now).disk ≤ 2 ^ 41 }
        ensures outcome { IfOk result (λ r. outcome_of r ≡ unless_refused (seen self.now) (clone_checks (seen self.now) (place_seen place.now) name.now)
            (entered (seen self.now) name.now (unwrap_or (place_seen place.now).disk []))) }
        ensures shelf { IfOk result (λ r. r.0.shelf ≡ self.now.shelf) }
    {
        if let Some(refusal) = self.clone_refusal(place, name) {
            return self.refused(alloc, refusal);
        }
        let flat = copy_of(alloc, place.disk)?;
        self.entered(alloc, name, flat)
    }

    pub(crate) fn clone_new(&self, alloc: Global, place: &PlaceName, name: &[u8]) -> Stepped
        requires sound { IsSound (seen self.now) }
        ensures outcome { IfOk result (λ r. outcome_of r ≡ clone_new (seen self.now) place.now name.now) }
        ensures shelf { IfOk result (λ r. r.0.shelf ≡ self.now.shelf) }
    {
        match self.find_place(place) {
            Ok(found) => self.clone_found(alloc, &found, name),
            Err(refusal) => self.refused(alloc, refusal),
        }
    }

    // A medium with another disk, whose rest is zeros.
    fn overwritten(
        &self,
        alloc: Global,
        disk: &Flat,
        medium: &WorldMedium,
    ) -> Result<WorldMedium, NoMemory>
        requires room { self.now.next < NUMBER_LIMIT }
        requires size { length disk.now ≤ disk_len medium.now.flat }
        ensures { IfOk result (λ written. written ≡ overwritten (seen self.now) disk.now medium.now) }
    {
        let mut written = medium.copied(alloc)?;
        let long = disk_len(medium.flat.as_ref());
        written.modify = id_of(self.seed, Kind::Modify, self.next);
        written.flat = Some(padded(alloc, long, disk)?);
        Ok(written)
    }

    // The media with one in the place of that of its name.
    pub(crate) fn changed_media(
        &self,
        alloc: Global,
        medium: WorldMedium,
    ) -> Result<WorldMedia, NoMemory>
        requires order { Rises medium_name self.now.media }
        requires known { has_name medium_name medium.name self.now.media ≡ true }
        ensures { IfOk result (λ media. media ≡ change_by medium_name medium.name (λ _. medium) self.now.media) }
    {
        let others = names::without(alloc, self.media.as_slice(), medium.name.bytes())?;
        names::with(alloc, others.as_slice(), medium)
    }

    fn overwrite_refusal(&self, place: &FoundPlace, target: &WorldMedium) -> Option<Refusal>
        ensures { result ≡ first_refusal (overwrite_checks (seen self.now) (place_seen place.now) target.now) }
    {
        let name = target.name.bytes();
        if self.is_in_use(name) || is_same(place.medium.name.bytes(), name) {
            return Some(Refusal::InUse);
        }
        if place.disk.is_none() {
            return Some(Refusal::Frozen);
        }
        if !writable(target.mode) {
            return Some(Refusal::WriteProtected);
        }
        if is_fixed(target.variant) {
            return Some(Refusal::WrongKind);
        }
        if self.is_spent() {
            return Some(Refusal::IdsSpent);
        }
        if u128::from(target.capacity) < 512 * u128::from(disk_len(place.disk)) {
            return Some(Refusal::TooSmall);
        }
        None
    }

    // Puts a disk over that of a medium, which draws a modification identifier.
    fn put_over(&self, alloc: Global, name: &[u8], disk: &Flat, target: &WorldMedium) -> Stepped
        requires room { self.now.next < NUMBER_LIMIT }
        requires size { length disk.now ≤ disk_len target.now.flat }
        requires order { Rises medium_name self.now.media }
        requires found { medium_of (seen self.now) name.now ≡ Some target.now }
        ensures outcome { IfOk result (λ r. outcome_of r ≡ put_over (seen self.now) name.now disk.now target.now) }
        ensures shelf { IfOk result (λ r. r.0.shelf ≡ self.now.shelf) }
    {
        let written = self.overwritten(alloc, disk, target)?;
        let media = self.changed_media(alloc, written)?;
        let mut world = self.with_media(alloc, media)?;
        world.next += 1;
        Ok((world, Answer::Id(target.id)))
    }

    // Copies the disk of a place that was found over a medium that was found.
    fn clone_over(
        &self,
        alloc: Global,
        name: &[u8],
        place: &FoundPlace,
        target: &WorldMedium,
    ) -> Stepped
        requires sound { IsSound (seen self.now) }
        requires found { medium_of (seen self.now) name.now ≡ Some target.now }
        ensures outcome { IfOk result (λ r. outcome_of r
            ≡ unless_refused (seen self.now) (overwrite_checks (seen self.now) (place_seen place.now) target.now)
            (put_over (seen self.now) name.now (unwrap_or (place_seen place.now).disk []) target.now)) }
        ensures shelf { IfOk result (λ r. r.0.shelf ≡ self.now.shelf) }
    {
        if let Some(refusal) = self.overwrite_refusal(place, target) {
            return self.refused(alloc, refusal);
        }
        let disk = copy_of(alloc, place.disk)?;
        self.put_over(alloc, name, &disk, target)
    }

    pub(crate) fn clone_existing(&self, alloc: Global, place: &PlaceName, name: &[u8]) -> Stepped
        requires sound { IsSound (seen self.now) }
        ensures outcome { IfOk result (λ r. outcome_of r ≡ clone_existing (seen self.now) place.now name.now) }
        ensures shelf { IfOk result (λ r. r.0.shelf ≡ self.now.shelf) }
    {
        let found = match self.find_place(place) {
            Ok(found) => found,
            Err(refusal) => return self.refused(alloc, refusal),
        };
        match self.medium(name) {
            Some(target) => self.clone_over(alloc, name, &found, target),
            None => self.refused(alloc, Refusal::NoSuchMedium),
        }
    }
}
