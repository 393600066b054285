//! The shape of media, plain and slow: each copies all disks.

ghost use Rattle.std.specs.Prelude.{◌≡◌, ◌*◌, ◌/◌, ◌≤◌, length, IfOk, IfSome, Some, ℕ, List};
ghost use Rattle.std.specs.List.{list_any};
ghost use Rattle.vbm_named.specs.Names.{Rises};
ghost use Rattle.vbm_world.specs.World.{medium_name, medium_of, has_own, is_in_run};
ghost use Rattle.vbm_world.specs.Places.{with_medium};
ghost use Rattle.vbm_world.specs.Refusals.{first_refusal};
ghost use Rattle.vbm_world.specs.Outcomes.{unless_refused};
ghost use Rattle.vbm_world.specs.Clones.{disk_len};
ghost use Rattle.vbm_world.specs.Shapes.{compact_checks, compact, has_own_of, is_built_on, resize_checks, enlarged, resize, usage};
ghost use Rattle.vbm_world.specs.Seen.{seen, outcome_of};
ghost use Rattle.vbm_world.specs.PlacesSeen.{place_seen};
ghost use Rattle.vbm_world.specs.Sound.{IsSound};
ghost use Rattle.vbm_world.specs.declared.command.Answer.TheVariants as answers;
ghost use Rattle.vbm_world.specs.declared.world.WorldSnapshot.{WorldSnapshot};

use crate::clones::is_fixed;
use crate::command::{Answer, PlaceName, Refusal};
use crate::disks::padded;
use crate::lookups::has_medium;
use crate::media::Stepped;
use crate::places::FoundPlace;
use crate::world::{World, WorldMachine, WorldMedium, WorldSlot};
use std::alloc::Global;
use vbm_modes::writable;
use vbm_named::names::is_same;
use vbm_ports::{Copied, NoMemory};

fn has_own(slot: &WorldSlot) -> bool
    ensures { result ≡ has_own slot.now }
{
    slot.own.is_some()
}

// Whether slots have their own disks of a medium.
fn has_own_of(slots: &[WorldSlot], name: &[u8]) -> bool
    ensures { result ≡ has_own_of name.now slots.now }
{
    slots
        .iter()
        .any(|slot| has_own(slot) && is_same(slot.medium.bytes(), name))
}

// A medium with zeros behind its disk; the capacity is in bytes.
fn enlarged(alloc: Global, medium: &WorldMedium, capacity: u64) -> Result<WorldMedium, NoMemory>
    requires { disk_len medium.now.flat ≤ capacity / 512 }
    ensures { IfOk result (λ larger. larger ≡ enlarged capacity medium.now) }
{
    let mut larger = medium.copied(alloc)?;
    larger.capacity = capacity;
    if let Some(flat) = &medium.flat {
        larger.flat = Some(padded(alloc, capacity / 512, flat)?);
    }
    Ok(larger)
}

impl WorldMachine {
    // Whether a snapshot has its own disk of a medium.
    fn has_own_in_snapshot(&self, name: &[u8]) -> bool
        ensures { result ≡ list_any (λ (s : WorldSnapshot). has_own_of name.now s.slots) self.now.snapshots }
    {
        let mut snapshots = self.snapshots.as_slice().iter();
        snapshots.any(|snapshot| has_own_of(snapshot.slots.as_slice(), name))
    }
}

impl World {
    // Whether a running machine has a slot of the medium.
    pub(crate) fn is_in_run(&self, name: &[u8]) -> bool
        ensures { result ≡ is_in_run (seen self.now) name.now }
    {
        let mut machines = self.machines.as_slice().iter();
        machines.any(|machine| machine.running && has_medium(machine.slots.as_slice(), name))
    }

    // Whether some slot or snapshot has its own disk of the medium.
    fn is_built_on(&self, name: &[u8]) -> bool
        ensures { result ≡ is_built_on (seen self.now) name.now }
    {
        let mut machines = self.machines.as_slice().iter();
        machines.any(|machine| {
            has_own_of(machine.slots.as_slice(), name) || machine.has_own_in_snapshot(name)
        })
    }

    fn compact_refusal(&self, place: &FoundPlace) -> Option<Refusal>
        ensures { result ≡ first_refusal (compact_checks (seen self.now) (place_seen place.now)) }
    {
        if self.is_in_run(place.medium.name.bytes()) {
            return Some(Refusal::Running);
        }
        if !writable(place.medium.mode) {
            return Some(Refusal::WriteProtected);
        }
        if is_fixed(place.medium.variant) && place.is_base {
            return Some(Refusal::WrongKind);
        }
        None
    }

    // Compacts a place that was found.
    fn compact_found(&self, alloc: Global, place: &FoundPlace) -> Stepped
        ensures outcome { IfOk result (λ r. outcome_of r
            ≡ unless_refused (seen self.now) (compact_checks (seen self.now) (place_seen place.now)) (answers.Done, seen self.now)) }
        ensures shelf { IfOk result (λ r. r.0.shelf ≡ self.now.shelf) }
    {
        match self.compact_refusal(place) {
            Some(refusal) => self.refused(alloc, refusal),
            None => Ok((self.copied(alloc)?, Answer::Done)),
        }
    }

    pub(crate) fn compact(&self, alloc: Global, place: &PlaceName) -> Stepped
        ensures outcome { IfOk result (λ r. outcome_of r ≡ compact (seen self.now) place.now) }
        ensures shelf { IfOk result (λ r. r.0.shelf ≡ self.now.shelf) }
    {
        match self.find_place(place) {
            Ok(found) => self.compact_found(alloc, &found),
            Err(refusal) => self.refused(alloc, refusal),
        }
    }

    fn resize_refusal(&self, medium: &WorldMedium, capacity: u128) -> Option<Refusal>
        ensures { result ≡ first_refusal (resize_checks (seen self.now) medium.now capacity) }
    {
        let name = medium.name.bytes();
        if self.is_built_on(name) {
            return Some(Refusal::Frozen);
        }
        if self.is_in_run(name) {
            return Some(Refusal::Running);
        }
        if !writable(medium.mode) {
            return Some(Refusal::WriteProtected);
        }
        if capacity < u128::from(medium.capacity) {
            return Some(Refusal::Shrinks);
        }
        if capacity > 1 << 41 {
            return Some(Refusal::BadSize);
        }
        if is_fixed(medium.variant) {
            return Some(Refusal::WrongKind);
        }
        None
    }

    // Enlarges a medium that was found, where no check refuses it.
    fn enlarge(&self, alloc: Global, name: &[u8], medium: &WorldMedium, capacity: u64) -> Stepped
        requires grows { disk_len medium.now.flat ≤ capacity / 512 }
        requires order { Rises medium_name self.now.media }
        requires found { medium_of (seen self.now) name.now ≡ Some medium.now }
        ensures outcome { IfOk result (λ r. outcome_of r
            ≡ (answers.Done, with_medium (seen self.now) name.now (enlarged capacity))) }
        ensures shelf { IfOk result (λ r. r.0.shelf ≡ self.now.shelf) }
    {
        let larger = enlarged(alloc, medium, capacity)?;
        let media = self.changed_media(alloc, larger)?;
        let world = self.with_media(alloc, media)?;
        Ok((world, Answer::Done))
    }

    // Resizes a medium that was found.
    fn resize_found(
        &self,
        alloc: Global,
        name: &[u8],
        medium: &WorldMedium,
        capacity: u128,
    ) -> Stepped
        requires sound { IsSound (seen self.now) }
        requires found { medium_of (seen self.now) name.now ≡ Some medium.now }
        ensures outcome { IfOk result (λ r. outcome_of r
            ≡ unless_refused (seen self.now) (resize_checks (seen self.now) medium.now capacity)
            (answers.Done, with_medium (seen self.now) name.now (enlarged capacity))) }
        ensures shelf { IfOk result (λ r. r.0.shelf ≡ self.now.shelf) }
    {
        match self.resize_refusal(medium, capacity) {
            Some(refusal) => self.refused(alloc, refusal),
            None => self.enlarge(alloc, name, medium, capacity as u64),
        }
    }

    // The capacity is in bytes.
    pub(crate) fn resize(&self, alloc: Global, name: &[u8], capacity: u128) -> Stepped
        requires sound { IsSound (seen self.now) }
        ensures outcome { IfOk result (λ r. outcome_of r ≡ resize (seen self.now) name.now capacity) }
        ensures shelf { IfOk result (λ r. r.0.shelf ≡ self.now.shelf) }
    {
        match self.medium(name) {
            Some(medium) => self.resize_found(alloc, name, medium, capacity),
            None => self.refused(alloc, Refusal::NoSuchMedium),
        }
    }

    // The number is no part of the machine: this one counts nothing.
    pub(crate) fn usage(&self, alloc: Global, place: &PlaceName) -> Stepped
        ensures outcome { IfOk result (λ r. outcome_of r ≡ usage (seen self.now) place.now 0) }
        ensures shelf { IfOk result (λ r. r.0.shelf ≡ self.now.shelf) }
    {
        match self.find_place(place) {
            Ok(_) => Ok((self.copied(alloc)?, Answer::Count(0))),
            Err(refusal) => self.refused(alloc, refusal),
        }
    }
}
