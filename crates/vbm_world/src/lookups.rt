//! Looking things up by name and by port.

ghost use Rattle.std.specs.Prelude.{◌≡◌};
ghost use Rattle.std.specs.Option.{option_copied};
ghost use Rattle.vbm_world.specs.World.{medium_of, has_medium, is_normal, is_layered, is_slot_of};
ghost use Rattle.vbm_world.specs.Places.{machine_of, snapshot_of, current_of, slot_at, slots_named, slot_disk};
ghost use Rattle.vbm_world.specs.Slots.{drawn_for};
ghost use Rattle.vbm_world.specs.Seen.{seen, on_shelf};

use crate::refusals::is_normal;
use crate::world::{Shelved, World, WorldMachine, WorldMedium, WorldSlot, WorldSnapshot};
use vbm_modes::Mode;
use vbm_named::names::{find, is_same};
use vbm_ports::Text;
use vbm_volume::Flat;

// Whether slots have a medium.
pub(crate) fn has_medium(slots: &[WorldSlot], name: &[u8]) -> bool
    ensures { result ≡ has_medium name.now slots.now }
{
    slots.iter().any(|slot| is_same(slot.medium.bytes(), name))
}

// Lends the slot at a port.
pub(crate) fn slot_at(slots: &[WorldSlot], port: u8) -> Option<&WorldSlot>
    ensures { option_copied result ≡ slot_at port slots.now }
{
    slots.iter().find(|slot| slot.port == port)
}

// Lends the slots of a named snapshot, none where none is named.
pub(crate) fn slots_named<'a>(
    name: Option<&Text>,
    snapshots: &'a [WorldSnapshot],
) -> &'a [WorldSlot]
    ensures { result.now ≡ slots_named (option_copied name.entry) snapshots.now }
{
    let Some(name) = name else {
        return &[];
    };
    match find(snapshots, name.bytes()) {
        Some(snapshot) => snapshot.slots.as_slice(),
        None => &[],
    }
}

impl WorldMachine {
    // Lends the snapshot of a name.
    pub(crate) fn snapshot(&self, name: &[u8]) -> Option<&WorldSnapshot>
        ensures { option_copied result ≡ snapshot_of self.now name.now }
    {
        find(self.snapshots.as_slice(), name)
    }

    // Lends the current snapshot.
    pub(crate) fn current_snapshot(&self) -> Option<&WorldSnapshot>
        ensures { option_copied result ≡ current_of self.now }
    {
        match &self.current {
            Some(name) => self.snapshot(name.bytes()),
            None => None,
        }
    }
}

impl World {
    // Lends the machine of a name.
    pub(crate) fn machine(&self, name: &[u8]) -> Option<&WorldMachine>
        ensures { option_copied result ≡ machine_of (seen self.now) name.now }
    {
        find(self.machines.as_slice(), name)
    }

    // Lends the medium of a name.
    pub(crate) fn medium(&self, name: &[u8]) -> Option<&WorldMedium>
        ensures { option_copied result ≡ medium_of (seen self.now) name.now }
    {
        find(self.media.as_slice(), name)
    }

    // Lends what the shelf's file of a name holds.
    pub(crate) fn on_shelf(&self, name: &[u8]) -> Option<&Shelved>
        ensures { option_copied result ≡ on_shelf self.now.shelf name.now }
    {
        match find(self.shelf.as_slice(), name) {
            Some(file) => Some(&file.content),
            None => None,
        }
    }

    // Lends the disk of a slot: its own, or else its medium's.
    pub(crate) fn slot_disk<'a>(&'a self, slot: &'a WorldSlot) -> Option<&'a Flat>
        ensures { option_copied result ≡ slot_disk (seen self.now) slot.now }
    {
        if let Some(own) = &slot.own {
            return Some(own);
        }
        match self.medium(slot.medium.bytes()) {
            Some(medium) => medium.flat.as_ref(),
            None => None,
        }
    }
}

// Whether snapshots have copies of the disks of media of a mode.
fn is_layered(mode: Mode) -> bool
    ensures { result ≡ is_layered mode }
{
    matches!(mode, Mode::Normal | Mode::Immutable | Mode::MultiAttach)
}

// How many numbers of inner images slots take: one for each disk of their own.
pub(crate) fn drawn_for(slots: &[WorldSlot]) -> u64
    ensures { result ≡ drawn_for slots.now }
{
    slots.iter().filter(|slot| slot.own.is_some()).count() as u64
}

impl World {
    // Whether a slot's medium is normal.
    pub(crate) fn is_of_normal(&self, slot: &WorldSlot) -> bool
        ensures { result ≡ is_slot_of is_normal (seen self.now) slot.now }
    {
        match self.medium(slot.medium.bytes()) {
            Some(medium) => is_normal(medium.mode),
            None => false,
        }
    }

    // Whether snapshots have copies of the disk of a slot.
    pub(crate) fn is_of_layered(&self, slot: &WorldSlot) -> bool
        ensures { result ≡ is_slot_of is_layered (seen self.now) slot.now }
    {
        match self.medium(slot.medium.bytes()) {
            Some(medium) => is_layered(medium.mode),
            None => false,
        }
    }
}
