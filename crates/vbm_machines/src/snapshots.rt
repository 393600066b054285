//! Edits of a machine's tree of snapshots.

ghost use Rattle.std.specs.Prelude.{◌≡◌, ◌<◌, ◌≤◌, ◌^◌, ◌-◌, List, map, length, count_by, slice_get, Some, None, IfSome, IfOk, OnOk, OnErr, IsFalse};
ghost use Rattle.std.specs.List.{AllByRecursion};
ghost use Rattle.vbm_named.specs.Names.{has_name, Rises};
ghost use Rattle.vbm_world.specs.declared.limits.TheConstants.{SNAPSHOT_LIMIT};
ghost use Rattle.vbm_world.specs.declared.world.WorldSlot.{WorldSlot};
ghost use Rattle.vbm_world.specs.Snapshots as world;
ghost use Rattle.vbm_machines.specs.declared.Slot.{Slot};
ghost use Rattle.vbm_machines.specs.declared.Snapshot.{Snapshot};
ghost use Rattle.vbm_machines.specs.Slots.{has_image, renewed, kept_place};
ghost use Rattle.vbm_machines.specs.Snapshots.{name_of_snapshot, snapshot_in, machine_in, HasTree, HasPlaces, dependents_at, parents_renumbered};
ghost use Rattle.vbm_machines.specs.Snapshots.{machine_taken, machine_restored, machine_without, taken_as, restored_as, removed_as};

use crate::renumbering::{Renumbering, place_for};
use crate::slots::{images_in, kept_images, kept_places, with_new_images};
use crate::{Machine, Snapshot, Snapshots};
use std::alloc::Global;
use vbm_modes::Mode;
use vbm_named::ByName;
use vbm_ports::{Copied, NoMemory, Text};

// How many depend on the snapshot at a place.
fn dependents_at(machine: &Machine, snapshot: u32) -> u32
    requires { length machine.now.snapshots ≤ SNAPSHOT_LIMIT }
    ensures { result ≡ dependents_at snapshot machine.now }
{
    let children = machine
        .snapshots
        .as_slice()
        .iter()
        .filter(|s| s.parent == Some(snapshot))
        .count();
    children as u32 + u32::from(machine.current == Some(snapshot))
}

/// How many depend on the snapshot at a place: its children, and the machine where it is current.
pub fn dependents(machine: &Machine, snapshot: u32) -> u32
    requires { length machine.now.snapshots ≤ SNAPSHOT_LIMIT }
    ensures count { result ≡ dependents_at snapshot machine.now }
    ensures named { HasPlaces machine.now → (seen : Slot → WorldSlot) → IfSome (slice_get machine.now.snapshots snapshot)
        (λ (s : Snapshot). result ≡ world.dependents (machine_in seen machine.now) s.name) }
{
    dependents_at(machine, snapshot)
}

// A copy of a snapshot with another parent.
fn with_parent(
    alloc: Global,
    snapshot: &Snapshot,
    parent: Option<u32>,
) -> Result<Snapshot, NoMemory>
    ensures { IfOk result (λ s. s ≡ record snapshot.now { parent = parent }) }
{
    Ok(Snapshot {
        name: snapshot.name.copied(alloc)?,
        parent,
        slots: snapshot.slots.copied(alloc)?,
    })
}

// A copy of snapshots, with their parents by the new places.
fn parents_renumbered(
    alloc: Global,
    snapshots: &Snapshots,
    renumbering: Renumbering,
    heir: Option<u32>,
) -> Result<Snapshots, NoMemory>
    requires names { Rises name_of_snapshot snapshots.now }
    requires parents { AllByRecursion (λ (s : Snapshot). IfSome s.parent (λ place. place < 2 ^ 32 - 1)) snapshots.now }
    ensures { IfOk result (λ all. all ≡ parents_renumbered renumbering heir snapshots.now) }
{
    let mut all = ByName::new(alloc);
    for i in 0..snapshots.len() {
        let snapshot = snapshots.get(i);
        let parent = renumbering.place_or_heir(heir, snapshot.parent);
        all.push(with_parent(alloc, snapshot, parent)?)?;
    }
    Ok(all)
}

// A copy of a machine with a snapshot more, below the current one and current itself.
fn taken(
    alloc: Global,
    machine: &Machine,
    name: Text,
    modes: &[Mode],
    fresh: &[u64],
) -> Result<Machine, NoMemory>
    requires places { HasPlaces machine.now }
    requires room { length machine.now.snapshots < SNAPSHOT_LIMIT }
    requires another { IsFalse (has_name name_of_snapshot name machine.now.snapshots) }
    requires modes { AllByRecursion (λ (s : Slot). s.medium < length modes.now) machine.now.slots }
    requires fresh { length fresh.now ≡ count_by has_image (map (kept_place modes.now) machine.now.slots) }
    ensures { let places = map (kept_place modes.now) machine.now.slots in
        IfOk result (λ m. m ≡ machine_taken name places (renewed has_image fresh.now places) machine.now) }
{
    let places = kept_places(alloc, machine.slots.as_slice(), modes)?;
    let slots = with_new_images(alloc, places.as_slice(), fresh)?;
    let at = place_for(machine.snapshots.as_slice(), name.bytes()) as u32;
    let entered = Renumbering::Entered(at);
    let mut snapshots = parents_renumbered(alloc, &machine.snapshots, entered, None)?;
    snapshots.insert(Snapshot {
        name,
        parent: entered.place_or_heir(None, machine.current),
        slots: places,
    })?;
    Ok(Machine {
        name: machine.name.copied(alloc)?,
        running: machine.running,
        slots,
        snapshots,
        current: Some(at),
    })
}

// A copy of a machine without the snapshot at a place, with its parent in its stead.
fn removed(alloc: Global, machine: &Machine, snapshot: u32) -> Result<Machine, NoMemory>
    requires places { HasPlaces machine.now }
    requires there { snapshot < length machine.now.snapshots }
    ensures { IfOk result (λ m. IfSome (slice_get machine.now.snapshots snapshot) (λ (s : Snapshot). m ≡ machine_without snapshot s machine.now)) }
{
    let gone = machine.snapshots.get(snapshot as usize);
    let left = Renumbering::Left(snapshot);
    let heir = left.place_or_heir(None, gone.parent);
    let mut snapshots = parents_renumbered(alloc, &machine.snapshots, left, heir)?;
    snapshots.remove(gone.name.bytes());
    Ok(Machine {
        name: machine.name.copied(alloc)?,
        running: machine.running,
        slots: machine.slots.copied(alloc)?,
        snapshots,
        current: left.place_or_heir(heir, machine.current),
    })
}

/// How many numbers `take` takes.
pub fn numbers_to_take(machine: &Machine, modes: &[Mode]) -> usize
    requires { AllByRecursion (λ (s : Slot). s.medium < length modes.now) machine.now.slots }
    ensures { result ≡ count_by has_image (map (kept_place modes.now) machine.now.slots) }
{
    kept_images(machine.slots.as_slice(), modes)
}

/// How many numbers `restore_to` takes.
pub fn numbers_to_restore(machine: &Machine, snapshot: u32) -> usize
    requires { snapshot < length machine.now.snapshots }
    ensures { IfSome (slice_get machine.now.snapshots snapshot) (λ (s : Snapshot). result ≡ count_by has_image s.slots) }
{
    images_in(machine.snapshots.get(snapshot as usize).slots.as_slice())
}

/// Takes a snapshot of this name, a child of the current one, which is then current. It keeps the images of the slots, and the slots
/// get new ones of the fresh numbers, in the order of ports. `modes` has the mode of each medium at its place.
pub fn take(
    alloc: Global,
    machine: &mut Machine,
    name: Text,
    modes: &[Mode],
    fresh: &[u64],
) -> Result<(), NoMemory>
    requires places { HasPlaces machine.old }
    requires room { length machine.old.snapshots < SNAPSHOT_LIMIT }
    requires another { IsFalse (has_name name_of_snapshot name machine.old.snapshots) }
    requires modes { AllByRecursion (λ (s : Slot). s.medium < length modes.now) machine.old.slots }
    requires fresh { length fresh.now ≡ count_by has_image (map (kept_place modes.now) machine.old.slots) }
    ensures ok { OnOk result (let places = map (kept_place modes.now) machine.old.slots in
        machine.new ≡ machine_taken name places (renewed has_image fresh.now places) machine.old) }
    ensures err { OnErr result (machine.new ≡ machine.old) }
    ensures named { OnOk result ((seen : Slot → WorldSlot) → let places = map (kept_place modes.now) machine.old.slots in
        machine_in seen machine.new
        ≡ taken_as name (map seen places) (map seen (renewed has_image fresh.now places)) (machine_in seen machine.old)) }
    ensures places { HasPlaces machine.new }
    ensures tree { HasTree machine.old → HasTree machine.new }
{
    *machine = taken(alloc, machine, name, modes, fresh)?;
    Ok(())
}

/// Gives a machine the slots of the snapshot at a place, which is then current, with new images of the fresh numbers in the order
/// of ports.
pub fn restore_to(
    alloc: Global,
    machine: &mut Machine,
    snapshot: u32,
    fresh: &[u64],
) -> Result<(), NoMemory>
    requires places { HasPlaces machine.old }
    requires there { snapshot < length machine.old.snapshots }
    requires fresh { IfSome (slice_get machine.old.snapshots snapshot) (λ (s : Snapshot). length fresh.now ≡ count_by has_image s.slots) }
    ensures ok { OnOk result (IfSome (slice_get machine.old.snapshots snapshot) (λ (s : Snapshot).
        machine.new ≡ machine_restored snapshot (renewed has_image fresh.now s.slots) machine.old)) }
    ensures err { OnErr result (machine.new ≡ machine.old) }
    ensures named { OnOk result ((seen : Slot → WorldSlot) → IfSome (slice_get machine.old.snapshots snapshot) (λ (s : Snapshot).
        machine_in seen machine.new ≡ restored_as s.name (map seen (renewed has_image fresh.now s.slots)) (machine_in seen machine.old))) }
    ensures places { HasPlaces machine.new }
    ensures tree { HasTree machine.old → HasTree machine.new }
{
    let wanted = machine.snapshots.get(snapshot as usize);
    let slots = with_new_images(alloc, wanted.slots.as_slice(), fresh)?;
    machine.slots = slots;
    machine.current = Some(snapshot);
    Ok(())
}

/// Takes the snapshot at a place, on which at most one depends, out of the tree: its children get its parent, which is current
/// where it was.
pub fn remove(alloc: Global, machine: &mut Machine, snapshot: u32) -> Result<(), NoMemory>
    requires places { HasPlaces machine.old }
    requires there { snapshot < length machine.old.snapshots }
    requires few { dependents_at snapshot machine.old ≤ 1 }
    ensures ok { OnOk result (IfSome (slice_get machine.old.snapshots snapshot) (λ (s : Snapshot).
        machine.new ≡ machine_without snapshot s machine.old)) }
    ensures err { OnErr result (machine.new ≡ machine.old) }
    ensures named { OnOk result (HasTree machine.old → (seen : Slot → WorldSlot) → IfSome (slice_get machine.old.snapshots snapshot)
        (λ (s : Snapshot). machine_in seen machine.new ≡ removed_as (snapshot_in seen machine.old.snapshots s) (machine_in seen machine.old))) }
    ensures places { HasPlaces machine.new }
    ensures tree { HasTree machine.old → HasTree machine.new }
{
    *machine = removed(alloc, machine, snapshot)?;
    Ok(())
}
