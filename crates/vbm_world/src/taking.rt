//! Taking a snapshot of a machine.

ghost use Rattle.std.specs.Prelude.{◌≡◌, ◌≤◌, map, if◌then◌else◌, IfOk, None};
ghost use Rattle.std.specs.List.{list_any};
ghost use Rattle.vbm_named.specs.Names.{has_name};
ghost use Rattle.vbm_world.specs.declared.limits.TheConstants.{PLACE_LIMIT as place_limit};
ghost use Rattle.vbm_world.specs.declared.limits.TheConstants.{SNAPSHOT_LIMIT as snapshot_limit};
ghost use Rattle.vbm_world.specs.World.{snapshot_name, is_layered, is_slot_of};
ghost use Rattle.vbm_world.specs.Places.{slot_disk};
ghost use Rattle.vbm_world.specs.Refusals.{first_refusal, snapshots_in, places_of, places_in};
ghost use Rattle.vbm_world.specs.declared.command.Answer.TheVariants.{Done};
ghost use Rattle.vbm_world.specs.Outcomes.{unless_refused};
ghost use Rattle.vbm_world.specs.Snapshots.{kept_slot, unless_frozen, new_snapshot, with_snapshot, taken};
ghost use Rattle.vbm_world.specs.Snapshots.{share_with, is_shared_with, take_checks, take_snapshot};
ghost use Rattle.vbm_world.specs.Seen.{seen, outcome_of};
ghost use Rattle.vbm_world.specs.Sound.{IsSound};

use crate::command::{Answer, Refusal, Which};
use crate::limits::{PLACE_LIMIT, SNAPSHOT_LIMIT};
use crate::lookups::{drawn_for, has_medium};
use crate::media::Stepped;
use crate::world::{
    World, WorldMachine, WorldMedia, WorldMedium, WorldSlot, WorldSlots, WorldSnapshot,
};
use std::alloc::Global;
use vbm_named::names::{self, is_same};
use vbm_ports::{Copied, NoMemory, Sequence, Text};
use vbm_volume::Flat;

impl WorldMachine {
    // Whether a snapshot has the name.
    fn has_snapshot(&self, name: &[u8]) -> bool
        ensures { result ≡ has_name snapshot_name name.now self.now.snapshots }
    {
        let mut snapshots = self.snapshots.as_slice().iter();
        snapshots.any(|snapshot| is_same(snapshot.name.bytes(), name))
    }

    // How many places the snapshots have.
    fn place_count(&self) -> usize
        requires few { places_of self.now ≤ place_limit }
        ensures { result ≡ places_of self.now }
    {
        let mut count = 0;
        for snapshot in self.snapshots.as_slice() {
            count += snapshot.slots.len();
        }
        count
    }

    // This machine with a new snapshot, whose slots it then has.
    fn with_snapshot(
        &self,
        alloc: Global,
        name: &[u8],
        slots: WorldSlots,
    ) -> Result<WorldMachine, NoMemory>
        ensures { IfOk result (λ machine. machine ≡ with_snapshot self.now (new_snapshot self.now name.now slots)) }
    {
        let snapshot = WorldSnapshot {
            name: Text::new(alloc, name)?,
            parent: Copied::copied(&self.current, alloc)?,
            slots: slots.copied(alloc)?,
        };
        Ok(WorldMachine {
            name: self.name.copied(alloc)?,
            running: self.running,
            slots,
            snapshots: names::with(alloc, self.snapshots.as_slice(), snapshot)?,
            current: Some(Text::new(alloc, name)?),
        })
    }
}

impl World {
    // The disk that a snapshot has of a slot, none where it shares the medium's.
    fn kept_disk(&self, alloc: Global, slot: &WorldSlot) -> Result<Option<Flat>, NoMemory>
        ensures { IfOk result (λ own. own ≡ (if is_slot_of is_layered (seen self.now) slot.now
            then slot_disk (seen self.now) slot.now else None)) }
    {
        if !self.is_of_layered(slot) {
            return Ok(None);
        }
        match self.slot_disk(slot) {
            Some(disk) => Ok(Some(disk.copied(alloc)?)),
            None => Ok(None),
        }
    }

    // A slot as a snapshot has it.
    fn kept_slot(&self, alloc: Global, slot: &WorldSlot) -> Result<WorldSlot, NoMemory>
        ensures { IfOk result (λ kept. kept ≡ kept_slot (seen self.now) slot.now) }
    {
        Ok(WorldSlot {
            port: slot.port,
            medium: slot.medium.copied(alloc)?,
            autoreset: slot.autoreset,
            own: self.kept_disk(alloc, slot)?,
        })
    }

    fn kept_slots(&self, alloc: Global, slots: &[WorldSlot]) -> Result<WorldSlots, NoMemory>
        ensures { IfOk result (λ kept. kept ≡ map (kept_slot (seen self.now)) slots.now) }
    {
        let mut kept = Sequence::new(alloc);
        for slot in slots {
            kept.push(self.kept_slot(alloc, slot)?)?;
        }
        Ok(kept)
    }

    // A medium, which loses its disk where it is frozen.
    fn unless_frozen(&self, alloc: Global, medium: &WorldMedium) -> Result<WorldMedium, NoMemory>
        ensures { IfOk result (λ after. after ≡ unless_frozen self.now.machines medium.now) }
    {
        let mut after = medium.copied(alloc)?;
        if self.is_frozen(medium) {
            after.flat = None;
        }
        Ok(after)
    }

    fn frozen_media(&self, alloc: Global) -> Result<WorldMedia, NoMemory>
        ensures { IfOk result (λ media. media ≡ map (unless_frozen self.now.machines) self.now.media) }
    {
        let mut media = Sequence::new(alloc);
        for medium in self.media.as_slice() {
            media.push(self.unless_frozen(alloc, medium)?)?;
        }
        Ok(media)
    }

    // Whether slots share the disk of a normal medium that other slots have.
    fn share_with(&self, slots: &[WorldSlot], others: &[WorldSlot]) -> bool
        ensures { result ≡ share_with (seen self.now) slots.now others.now }
    {
        slots.iter().any(|slot| {
            slot.own.is_none() && self.is_of_normal(slot) && has_medium(others, slot.medium.bytes())
        })
    }

    // Whether another machine has a normal medium whose disk this one shares.
    fn is_shared_with(&self, machine: &WorldMachine, other: &WorldMachine) -> bool
        ensures { result ≡ is_shared_with (seen self.now) machine.now other.now }
    {
        !is_same(other.name.bytes(), machine.name.bytes())
            && self.share_with(machine.slots.as_slice(), other.slots.as_slice())
    }

    fn is_shared(&self, machine: &WorldMachine) -> bool
        ensures { result ≡ list_any (is_shared_with (seen self.now) machine.now) self.now.machines }
    {
        let mut machines = self.machines.as_slice().iter();
        machines.any(|other| self.is_shared_with(machine, other))
    }

    // How many snapshots the machines have.
    fn snapshot_count(&self) -> usize
        requires few { snapshots_in (seen self.now) ≤ snapshot_limit }
        ensures { result ≡ snapshots_in (seen self.now) }
    {
        let mut count = 0;
        for machine in self.machines.as_slice() {
            count += machine.snapshots.len();
        }
        count
    }

    // How many places the snapshots of the machines have.
    fn place_count(&self) -> usize
        requires few { places_in (seen self.now) ≤ place_limit }
        ensures { result ≡ places_in (seen self.now) }
    {
        let mut count = 0;
        for machine in self.machines.as_slice() {
            count += machine.place_count();
        }
        count
    }

    // Why a snapshot of a machine with these slots is refused.
    fn take_refusal(
        &self,
        machine: &WorldMachine,
        name: &[u8],
        slots: &[WorldSlot],
    ) -> Option<Refusal>
        requires sound { IsSound (seen self.now) }
        requires kept { slots.now ≡ map (kept_slot (seen self.now)) machine.now.slots }
        ensures { result ≡ first_refusal (take_checks (seen self.now) machine.now name.now) }
    {
        if machine.has_snapshot(name) {
            return Some(Refusal::NameTaken);
        }
        if machine.running {
            return Some(Refusal::Running);
        }
        if self.is_shared(machine) {
            return Some(Refusal::SharedMedium);
        }
        if self.snapshot_count() >= SNAPSHOT_LIMIT {
            return Some(Refusal::Full(Which::Snapshots));
        }
        if machine.slots.len() > PLACE_LIMIT - self.place_count() {
            return Some(Refusal::Full(Which::Places));
        }
        if self.is_short(drawn_for(slots)) {
            return Some(Refusal::IdsSpent);
        }
        None
    }

    // Takes a snapshot with these slots of a machine, where no check refuses it.
    fn add_snapshot(
        &self,
        alloc: Global,
        machine: &WorldMachine,
        name: &[u8],
        slots: WorldSlots,
    ) -> Stepped
        requires kept { slots ≡ map (kept_slot (seen self.now)) machine.now.slots }
        requires allowed { first_refusal (take_checks (seen self.now) machine.now name.now) ≡ None }
        ensures outcome { IfOk result (λ r. outcome_of r ≡ (Done, taken (seen self.now) machine.now name.now)) }
        ensures shelf { IfOk result (λ r. r.0.shelf ≡ self.now.shelf) }
    {
        let drawn = drawn_for(slots.as_slice());
        let after = machine.with_snapshot(alloc, name, slots)?;
        let mut world = self.with_machine(alloc, after, drawn)?;
        world.media = world.frozen_media(alloc)?;
        Ok((world, Answer::Done))
    }

    // Takes a snapshot of a machine that was found.
    fn take_found(&self, alloc: Global, machine: &WorldMachine, name: &[u8]) -> Stepped
        requires sound { IsSound (seen self.now) }
        ensures outcome { IfOk result (λ r. outcome_of r ≡ unless_refused (seen self.now)
            (take_checks (seen self.now) machine.now name.now) (Done, taken (seen self.now) machine.now name.now)) }
        ensures shelf { IfOk result (λ r. r.0.shelf ≡ self.now.shelf) }
    {
        let slots = self.kept_slots(alloc, machine.slots.as_slice())?;
        match self.take_refusal(machine, name, slots.as_slice()) {
            Some(refusal) => self.refused(alloc, refusal),
            None => self.add_snapshot(alloc, machine, name, slots),
        }
    }

    pub(crate) fn take_snapshot(&self, alloc: Global, vm: &[u8], name: &[u8]) -> Stepped
        requires sound { IsSound (seen self.now) }
        ensures outcome { IfOk result (λ r. outcome_of r ≡ take_snapshot (seen self.now) vm.now name.now) }
        ensures shelf { IfOk result (λ r. r.0.shelf ≡ self.now.shelf) }
    {
        match self.machine(vm) {
            Some(machine) => self.take_found(alloc, machine, name),
            None => self.refused(alloc, Refusal::NoSuchMachine),
        }
    }
}
