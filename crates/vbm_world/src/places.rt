//! Places, which are media, slots, and slots of snapshots, and the disks that they have.

ghost use Rattle.std.specs.Prelude.{◌≡◌};
ghost use Rattle.vbm_world.specs.Places.{is_base_of, found_slot, found_in_snapshot, find_place};
ghost use Rattle.vbm_world.specs.Seen.{seen};
ghost use Rattle.vbm_world.specs.PlacesSeen.{found_seen};
ghost use Rattle.vbm_world.specs.declared.command.PlaceName.TheVariants as places;

use crate::command::{PlaceName, Refusal};
use crate::lookups::{has_medium, slot_at, slots_named};
use crate::refusals::is_normal;
use crate::world::{World, WorldMachine, WorldMedium, WorldSlot, WorldSnapshot};
use vbm_volume::Flat;

// A place that was found.
#[derive(Clone, Copy)]
pub(crate) struct FoundPlace<'a> {
    pub(crate) medium: &'a WorldMedium,
    // None where the place is a frozen medium.
    pub(crate) disk: Option<&'a Flat>,
    // Whether the place's image is the medium's own file.
    pub(crate) is_base: bool,
}

impl World {
    // Whether a snapshot's slot stands on its medium's own file, where the parent snapshot has these slots.
    pub(crate) fn is_base_of(&self, parent: &[WorldSlot], slot: &WorldSlot) -> bool
        ensures { result ≡ is_base_of (seen self.now) parent.now slot.now }
    {
        if slot.own.is_none() {
            return true;
        }
        let name = slot.medium.bytes();
        match self.medium(name) {
            Some(medium) => is_normal(medium.mode) && !has_medium(parent, name),
            None => false,
        }
    }

    fn found_slot<'a>(
        &'a self,
        slot: &'a WorldSlot,
        is_base: bool,
    ) -> Result<FoundPlace<'a>, Refusal>
        ensures { found_seen result ≡ found_slot (seen self.now) is_base slot.now }
    {
        match self.medium(slot.medium.bytes()) {
            Some(medium) => Ok(FoundPlace {
                medium,
                disk: self.slot_disk(slot),
                is_base,
            }),
            None => Err(Refusal::NoSuchMedium),
        }
    }

    fn found_in_snapshot<'a>(
        &'a self,
        machine: &'a WorldMachine,
        taken: &'a WorldSnapshot,
        port: u8,
    ) -> Result<FoundPlace<'a>, Refusal>
        ensures { found_seen result ≡ found_in_snapshot (seen self.now) machine.now port taken.now }
    {
        let Some(slot) = slot_at(taken.slots.as_slice(), port) else {
            return Err(Refusal::NoSuchSlot);
        };
        let parent = slots_named(taken.parent.as_ref(), machine.snapshots.as_slice());
        let is_base = self.is_base_of(parent, slot);
        self.found_slot(slot, is_base)
    }

    fn find_medium<'a>(&'a self, name: &[u8]) -> Result<FoundPlace<'a>, Refusal>
        ensures { found_seen result ≡ find_place (seen self.now) (places.Medium name.now) }
    {
        match self.medium(name) {
            Some(medium) => Ok(FoundPlace {
                medium,
                disk: medium.flat.as_ref(),
                is_base: true,
            }),
            None => Err(Refusal::NoSuchMedium),
        }
    }

    fn find_slot<'a>(&'a self, vm: &[u8], port: u8) -> Result<FoundPlace<'a>, Refusal>
        ensures { found_seen result ≡ find_place (seen self.now) (places.Slot vm.now port) }
    {
        let Some(machine) = self.machine(vm) else {
            return Err(Refusal::NoSuchMachine);
        };
        match slot_at(machine.slots.as_slice(), port) {
            Some(slot) => self.found_slot(slot, slot.own.is_none()),
            None => Err(Refusal::NoSuchSlot),
        }
    }

    fn find_snap<'a>(
        &'a self,
        vm: &[u8],
        snapshot: &[u8],
        port: u8,
    ) -> Result<FoundPlace<'a>, Refusal>
        ensures { found_seen result ≡ find_place (seen self.now) (places.Snap vm.now snapshot.now port) }
    {
        let Some(machine) = self.machine(vm) else {
            return Err(Refusal::NoSuchMachine);
        };
        match machine.snapshot(snapshot) {
            Some(taken) => self.found_in_snapshot(machine, taken, port),
            None => Err(Refusal::NoSuchSnapshot),
        }
    }

    // Lends the place of a name.
    pub(crate) fn find_place<'a>(&'a self, place: &PlaceName) -> Result<FoundPlace<'a>, Refusal>
        ensures { found_seen result ≡ find_place (seen self.now) place.now }
    {
        match place {
            PlaceName::Medium(name) => self.find_medium(name.bytes()),
            PlaceName::Slot { vm, port } => self.find_slot(vm.bytes(), *port),
            PlaceName::Snap { vm, snapshot, port } => {
                self.find_snap(vm.bytes(), snapshot.bytes(), *port)
            }
        }
    }
}
