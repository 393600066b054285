//! New places where a list gets an item or loses one, and machines by a list of media that did.

ghost use Rattle.std.specs.Prelude.{◌≡◌, ◌<◌, ◌≤◌, ◌^◌, ◌-◌, List, length, map, slice_get, IfSome, IfOk, IsFalse};
ghost use Rattle.std.specs.List.{AllByRecursion};
ghost use Rattle.vbm_named.specs.Names.{Name, Rises};
ghost use Rattle.vbm_named.specs.Places.{place_for};
ghost use Rattle.vbm_machines.specs.declared.Snapshot.{Snapshot};
ghost use Rattle.vbm_machines.specs.declared.Machine.{Machine};
ghost use Rattle.vbm_machines.specs.Renumbering.{place_after, has_left, place_or_heir, Becomes, SlotSight, slot_by, HasStayed};
ghost use Rattle.vbm_machines.specs.Renumbering.{slot_renumbered, snapshot_renumbered, machine_renumbered, name_of_machine, EachSlot, IsLow};
ghost use Rattle.vbm_machines.specs.Snapshots.{name_of_snapshot, machine_in};

use crate::{Machine, Machines, Slot, Slots, Snapshot, Snapshots};
use std::alloc::Global;
use vbm_named::names::is_before;
use vbm_named::{ByName, Named};
use vbm_ports::{Copied, NoMemory, Sequence};

/// What became of a list.
#[derive(Clone, Copy, Debug, PartialEq, Eq)]
pub enum Renumbering {
    /// An item came in at this place.
    Entered(u32),
    /// The item at this place left.
    Left(u32),
}

impl Renumbering {
    // The new place of an item that stays.
    fn moved(self, place: u32) -> u32
        requires { place < 2 ^ 32 - 1 }
        ensures { result ≡ place_after self place }
    {
        match self {
            Renumbering::Entered(at) => { if place < at { place } else { place + 1 } }
            Renumbering::Left(at) => { if at < place { place - 1 } else { place } }
        }
    }

    /// The new place of an item that stays.
    pub fn place(self, place: u32) -> u32
        requires { place < 2 ^ 32 - 1 }
        ensures place { result ≡ place_after self place }
        ensures name { (old new : List Name) → Becomes self old new → IsFalse (has_left self place) → slice_get new result ≡ slice_get old place }
    {
        self.moved(place)
    }

    // Whether the item at a place left.
    fn has_left(self, place: u32) -> bool
        ensures { result ≡ has_left self place }
    {
        match self {
            Renumbering::Entered(_) => false,
            Renumbering::Left(at) => place == at,
        }
    }

    // The new place of an item, and that of its heir where it left.
    pub(crate) fn place_or_heir(self, heir: Option<u32>, place: Option<u32>) -> Option<u32>
        requires { IfSome place (λ p. p < 2 ^ 32 - 1) }
        ensures { result ≡ place_or_heir self heir place }
    {
        match place {
            None => None,
            Some(place) => {
                if self.has_left(place) {
                    heir
                } else {
                    Some(self.place(place))
                }
            }
        }
    }
}

/// The place among rising names where an item of this name comes in.
pub fn place_for<T: Named>(items: &[T], name: &[u8]) -> usize
    ensures place { result ≡ place_for T.name_of name.now items.now }
    ensures within { result ≤ length items.now }
{
    let mut place = 0;
    let mut rest = items;
    while let [first, after @ ..] = rest {
        if is_before(name, first.name()) {
            break;
        }
        place += 1;
        rest = after;
    }
    place
}

fn slot_renumbered(renumbering: Renumbering, slot: &Slot) -> Slot
    requires { IsLow slot.now }
    ensures { result ≡ slot_renumbered renumbering slot.now }
{
    Slot {
        medium: renumbering.place(slot.medium),
        ..*slot
    }
}

fn slots_renumbered(
    alloc: Global,
    renumbering: Renumbering,
    slots: &[Slot],
) -> Result<Slots, NoMemory>
    requires { AllByRecursion IsLow slots.now }
    ensures { IfOk result (λ all. all ≡ map (slot_renumbered renumbering) slots.now) }
{
    let mut all = Sequence::new(alloc);
    let mut rest = slots;
    while let [slot, after @ ..] = rest {
        all.push(slot_renumbered(renumbering, slot))?;
        rest = after;
    }
    Ok(all)
}

fn snapshot_renumbered(
    alloc: Global,
    renumbering: Renumbering,
    snapshot: &Snapshot,
) -> Result<Snapshot, NoMemory>
    requires { AllByRecursion IsLow snapshot.now.slots }
    ensures { IfOk result (λ s. s ≡ snapshot_renumbered renumbering snapshot.now) }
{
    Ok(Snapshot {
        name: snapshot.name.copied(alloc)?,
        parent: snapshot.parent,
        slots: slots_renumbered(alloc, renumbering, snapshot.slots.as_slice())?,
    })
}

fn snapshots_renumbered(
    alloc: Global,
    renumbering: Renumbering,
    snapshots: &Snapshots,
) -> Result<Snapshots, NoMemory>
    requires names { Rises name_of_snapshot snapshots.now }
    requires low { AllByRecursion (λ (s : Snapshot). AllByRecursion IsLow s.slots) snapshots.now }
    ensures { IfOk result (λ all. all ≡ map (snapshot_renumbered renumbering) snapshots.now) }
{
    let mut all = ByName::new(alloc);
    for i in 0..snapshots.len() {
        all.push(snapshot_renumbered(alloc, renumbering, snapshots.get(i))?)?;
    }
    Ok(all)
}

fn machine_renumbered(
    alloc: Global,
    renumbering: Renumbering,
    machine: &Machine,
) -> Result<Machine, NoMemory>
    requires names { Rises name_of_snapshot machine.now.snapshots }
    requires low { EachSlot IsLow machine.now }
    ensures { IfOk result (λ m. m ≡ machine_renumbered renumbering machine.now) }
{
    Ok(Machine {
        name: machine.name.copied(alloc)?,
        running: machine.running,
        slots: slots_renumbered(alloc, renumbering, machine.slots.as_slice())?,
        snapshots: snapshots_renumbered(alloc, renumbering, &machine.snapshots)?,
        current: machine.current,
    })
}

/// A copy of machines for a list of media that got a medium, or lost one that no machine has.
pub fn renumbered(
    alloc: Global,
    renumbering: Renumbering,
    machines: &Machines,
) -> Result<Machines, NoMemory>
    requires names { Rises name_of_machine machines.now }
    requires snapshots { AllByRecursion (λ (m : Machine). Rises name_of_snapshot m.snapshots) machines.now }
    requires low { AllByRecursion (EachSlot IsLow) machines.now }
    ensures copy { IfOk result (λ all. all ≡ map (machine_renumbered renumbering) machines.now) }
    ensures named { IfOk result (λ all. (old new : List Name) → Becomes renumbering old new
        → AllByRecursion (EachSlot (HasStayed renumbering)) machines.now → (sight : SlotSight)
        → map (machine_in (slot_by sight new)) all ≡ map (machine_in (slot_by sight old)) machines.now) }
{
    let mut all = ByName::new(alloc);
    for i in 0..machines.len() {
        all.push(machine_renumbered(alloc, renumbering, machines.get(i))?)?;
    }
    Ok(all)
}
