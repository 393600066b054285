//! Deleting a snapshot, plain and slow: each step copies all disks.

ghost use Rattle.std.specs.Prelude.{◌≡◌, ◌≤◌, ◌<◌, ◌+◌, ◌^◌, ◌&&◌, not, map, length, count_by, if◌then◌else◌, IfOk, None};
ghost use Rattle.std.specs.List.{list_any, position};
ghost use Rattle.std.specs.Option.{option_copied};
ghost use Rattle.std.specs.Str.{bytes_eq};
ghost use Rattle.vbm_named.specs.Names.{change_by};
ghost use Rattle.vbm_world.specs.World.{machine_name, is_in_snapshot};
ghost use Rattle.vbm_world.specs.Refusals.{first_refusal};
ghost use Rattle.vbm_world.specs.Outcomes.{unless_refused};
ghost use Rattle.vbm_world.specs.Snapshots.{is_this, dependents, parent_after, adopted, snapshots_after, base_slots, inner_slots};
ghost use Rattle.vbm_world.specs.Snapshots.{slot_of, own_of, is_thawed, thawed_disk, modify_after, medium_after, slot_after};
ghost use Rattle.vbm_world.specs.Snapshots.{deleted, delete_checks, delete_snapshot};
ghost use Rattle.vbm_world.specs.Seen.{seen, outcome_of};
ghost use Rattle.vbm_world.specs.Sound.{IsSound};
ghost use Rattle.vbm_world.specs.declared.command.Answer.TheVariants as answers;

use crate::changes::is_short;
use crate::command::{Answer, Refusal};
use crate::lookups::{has_medium, slots_named};
use crate::media::Stepped;
use crate::refusals::is_normal;
use crate::world::{
    World, WorldMachine, WorldMachines, WorldMedia, WorldMedium, WorldSlot, WorldSlots,
    WorldSnapshot, WorldSnapshots,
};
use std::alloc::Global;
use uuid::Uuid;
use vbm_ids::{Kind, NUMBER_LIMIT, id_of};
use vbm_named::names::{self, is_same};
use vbm_ports::{Copied, NoMemory, Sequence, Text};
use vbm_volume::Flat;

// Whether a snapshot is named, and by this name.
fn is_this(name: &[u8], other: Option<&Text>) -> bool
    ensures { result ≡ is_this name.now (option_copied other.entry) }
{
    match other {
        Some(other) => is_same(other.bytes(), name),
        None => false,
    }
}

// How many snapshots have this one as their parent.
fn children(snapshots: &[WorldSnapshot], name: &[u8]) -> usize
    ensures { result ≡ count_by (λ s. is_this name.now s.parent) snapshots.now }
{
    let children = snapshots
        .iter()
        .filter(|snapshot| is_this(name, snapshot.parent.as_ref()));
    children.count()
}

// How many dependents a snapshot has: its children, and the machine where it is current.
fn dependents(machine: &WorldMachine, name: &[u8]) -> usize
    ensures { result ≡ dependents machine.now name.now }
{
    let children = children(machine.snapshots.as_slice(), name);
    if is_this(name, machine.current.as_ref()) {
        children + 1
    } else {
        children
    }
}

// The parent of what stood on the deleted snapshot is that snapshot's; all else keeps its own.
fn parent_after(
    alloc: Global,
    gone: &WorldSnapshot,
    parent: &Option<Text>,
) -> Result<Option<Text>, NoMemory>
    ensures { IfOk result (λ after. after ≡ parent_after gone.now parent.now) }
{
    if is_this(gone.name.bytes(), parent.as_ref()) {
        Copied::copied(&gone.parent, alloc)
    } else {
        Copied::copied(parent, alloc)
    }
}

// A snapshot that stays, with its parent after the deletion.
fn adopted(
    alloc: Global,
    gone: &WorldSnapshot,
    snapshot: &WorldSnapshot,
) -> Result<WorldSnapshot, NoMemory>
    ensures { IfOk result (λ after. after ≡ adopted gone.now snapshot.now) }
{
    Ok(WorldSnapshot {
        name: snapshot.name.copied(alloc)?,
        parent: parent_after(alloc, gone, &snapshot.parent)?,
        slots: snapshot.slots.copied(alloc)?,
    })
}

// The snapshots of a machine after one is gone.
fn snapshots_after(
    alloc: Global,
    machine: &WorldMachine,
    gone: &WorldSnapshot,
) -> Result<WorldSnapshots, NoMemory>
    ensures { IfOk result (λ after. after ≡ snapshots_after machine.now gone.now) }
{
    let left = names::without(alloc, machine.snapshots.as_slice(), gone.name.bytes())?;
    let mut after = Sequence::new(alloc);
    for snapshot in left.as_slice() {
        after.push(adopted(alloc, gone, snapshot)?)?;
    }
    Ok(after)
}

// A machine without a snapshot.
fn without_snapshot(
    alloc: Global,
    machine: &WorldMachine,
    gone: &WorldSnapshot,
) -> Result<WorldMachine, NoMemory>
    ensures { IfOk result (λ less. less ≡ record machine.now {
      snapshots = snapshots_after machine.now gone.now;
      current = parent_after gone.now machine.now.current;
    }) }
{
    Ok(WorldMachine {
        name: machine.name.copied(alloc)?,
        running: machine.running,
        slots: machine.slots.copied(alloc)?,
        snapshots: snapshots_after(alloc, machine, gone)?,
        current: parent_after(alloc, gone, &machine.current)?,
    })
}

// The slots of a snapshot with copies on their media's own files.
fn base_slots(
    alloc: Global,
    world: &World,
    machine: &WorldMachine,
    gone: &WorldSnapshot,
) -> Result<WorldSlots, NoMemory>
    ensures { IfOk result (λ slots. slots ≡ base_slots (seen world.now) machine.now gone.now) }
{
    let parent = slots_named(gone.parent.as_ref(), machine.snapshots.as_slice());
    let mut bases = Sequence::new(alloc);
    for slot in gone.slots.as_slice() {
        if slot.own.is_some() && world.is_base_of(parent, slot) {
            bases.push(slot.copied(alloc)?)?;
        }
    }
    Ok(bases)
}

// How many slots of a snapshot have copies in inner images.
fn inner_count(world: &World, machine: &WorldMachine, gone: &WorldSnapshot) -> usize
    ensures { result ≡ length (inner_slots (seen world.now) machine.now gone.now) }
{
    let parent = slots_named(gone.parent.as_ref(), machine.snapshots.as_slice());
    let slots = gone.slots.as_slice().iter();
    slots
        .filter(|slot| slot.own.is_some() && !world.is_base_of(parent, slot))
        .count()
}

// Lends a medium's slot.
fn slot_of<'a>(name: &[u8], slots: &'a [WorldSlot]) -> Option<&'a WorldSlot>
    ensures { option_copied result ≡ slot_of name.now slots.now }
{
    slots.iter().find(|slot| is_same(slot.medium.bytes(), name))
}

// Lends the own disk of a medium's slot.
fn own_of<'a>(name: &[u8], slots: &'a [WorldSlot]) -> Option<&'a Flat>
    ensures { option_copied result ≡ own_of name.now slots.now }
{
    match slot_of(name, slots) {
        Some(slot) => slot.own.as_ref(),
        None => None,
    }
}

// Whether a snapshot of some machine has the medium.
fn is_in_snapshots(machines: &[WorldMachine], name: &[u8]) -> bool
    ensures { result ≡ list_any (is_in_snapshot name.now) machines.now }
{
    let mut machines = machines.iter();
    machines.any(|machine| machine.has_in_snapshot(name))
}

// Whether a medium of the snapshot is in no snapshot any more.
fn is_thawed(gone: &WorldSnapshot, after: &[WorldMachine], medium: &WorldMedium) -> bool
    ensures { result ≡ is_thawed gone.now after.now medium.now }
{
    let name = medium.name.bytes();
    is_normal(medium.mode)
        && has_medium(gone.slots.as_slice(), name)
        && !is_in_snapshots(after, name)
}

// Lends the disk that a medium has again.
fn thawed_disk<'a>(
    machine: &'a WorldMachine,
    gone: &'a WorldSnapshot,
    name: &[u8],
) -> Option<&'a Flat>
    ensures { option_copied result ≡ thawed_disk machine.now gone.now name.now }
{
    if has_medium(machine.slots.as_slice(), name) {
        own_of(name, machine.slots.as_slice())
    } else {
        own_of(name, gone.slots.as_slice())
    }
}

// The place of a medium's slot.
fn place_of(name: &[u8], slots: &[WorldSlot]) -> Option<usize>
    ensures { result ≡ position (λ s. bytes_eq s.medium name.now) slots.now }
{
    slots
        .iter()
        .position(|slot| is_same(slot.medium.bytes(), name))
}

// The modification identifier of a medium, another one where a base slot has the medium.
fn modify_after(world: &World, bases: &[WorldSlot], medium: &WorldMedium) -> Uuid
    requires room { world.now.next + length bases.now ≤ NUMBER_LIMIT }
    ensures { result ≡ modify_after (seen world.now) bases.now medium.now }
{
    match place_of(medium.name.bytes(), bases) {
        Some(place) => id_of(world.seed, Kind::Modify, world.next + place as u64),
        None => medium.modify,
    }
}

// A medium's own disk after a snapshot is gone.
fn flat_after(
    alloc: Global,
    machine: &WorldMachine,
    gone: &WorldSnapshot,
    after: &[WorldMachine],
    medium: &WorldMedium,
) -> Result<Option<Flat>, NoMemory>
    ensures { IfOk result (λ flat. flat ≡ (if is_thawed gone.now after.now medium.now
        then thawed_disk machine.now gone.now medium.now.name else medium.now.flat)) }
{
    if !is_thawed(gone, after, medium) {
        return Copied::copied(&medium.flat, alloc);
    }
    match thawed_disk(machine, gone, medium.name.bytes()) {
        Some(flat) => Ok(Some(flat.copied(alloc)?)),
        None => Ok(None),
    }
}

// A medium after a snapshot is gone.
fn medium_after(
    alloc: Global,
    world: &World,
    machine: &WorldMachine,
    gone: &WorldSnapshot,
    after: &[WorldMachine],
    bases: &[WorldSlot],
    medium: &WorldMedium,
) -> Result<WorldMedium, NoMemory>
    requires room { world.now.next + length bases.now ≤ NUMBER_LIMIT }
    requires bases { bases.now ≡ base_slots (seen world.now) machine.now gone.now }
    ensures { IfOk result (λ new. new ≡ medium_after (seen world.now) machine.now gone.now after.now medium.now) }
{
    Ok(WorldMedium {
        name: medium.name.copied(alloc)?,
        id: medium.id,
        modify: modify_after(world, bases, medium),
        changed: medium.changed,
        mode: medium.mode,
        variant: medium.variant,
        capacity: medium.capacity,
        flat: flat_after(alloc, machine, gone, after, medium)?,
    })
}

// The media after a snapshot is gone.
fn media_after(
    alloc: Global,
    world: &World,
    machine: &WorldMachine,
    gone: &WorldSnapshot,
    after: &[WorldMachine],
    bases: &[WorldSlot],
) -> Result<WorldMedia, NoMemory>
    requires room { world.now.next + length bases.now ≤ NUMBER_LIMIT }
    requires bases { bases.now ≡ base_slots (seen world.now) machine.now gone.now }
    ensures { IfOk result (λ all. all ≡ map (medium_after (seen world.now) machine.now gone.now after.now) world.now.media) }
{
    let mut all = Sequence::new(alloc);
    for medium in world.media.as_slice() {
        all.push(medium_after(alloc, world, machine, gone, after, bases, medium)?)?;
    }
    Ok(all)
}

// Whether a slot shares the disk that its medium has again.
fn is_shared(
    media: &[WorldMedium],
    gone: &WorldSnapshot,
    after: &[WorldMachine],
    slot: &WorldSlot,
) -> bool
    ensures { result ≡ list_any (λ m. bytes_eq m.name slot.now.medium && is_thawed gone.now after.now m) media.now }
{
    let name = slot.medium.bytes();
    let mut media = media.iter();
    media.any(|medium| is_same(medium.name.bytes(), name) && is_thawed(gone, after, medium))
}

// A slot of the machine after the snapshot is gone.
fn slot_after(
    alloc: Global,
    world: &World,
    gone: &WorldSnapshot,
    after: &[WorldMachine],
    slot: &WorldSlot,
) -> Result<WorldSlot, NoMemory>
    ensures { IfOk result (λ new. new ≡ slot_after (seen world.now) gone.now after.now slot.now) }
{
    let shared = is_shared(world.media.as_slice(), gone, after, slot);
    let mut new = slot.copied(alloc)?;
    if shared {
        new.own = None;
    }
    Ok(new)
}

// The slots of the machine after the snapshot is gone.
fn slots_after(
    alloc: Global,
    world: &World,
    machine: &WorldMachine,
    gone: &WorldSnapshot,
    after: &[WorldMachine],
) -> Result<WorldSlots, NoMemory>
    ensures { IfOk result (λ slots. slots ≡ map (slot_after (seen world.now) gone.now after.now) machine.now.slots) }
{
    let mut slots = Sequence::new(alloc);
    for slot in machine.slots.as_slice() {
        slots.push(slot_after(alloc, world, gone, after, slot)?)?;
    }
    Ok(slots)
}

// Why the snapshot is not deleted, where it has so many base slots.
fn delete_refusal(
    world: &World,
    machine: &WorldMachine,
    gone: &WorldSnapshot,
    bases: usize,
) -> Option<Refusal>
    requires few { dependents machine.now gone.now.name < 2 ^ 32 }
    requires bases { bases ≡ length (base_slots (seen world.now) machine.now gone.now) }
    ensures { result ≡ first_refusal (delete_checks (seen world.now) machine.now gone.now) }
{
    if machine.running {
        return Some(Refusal::Running);
    }
    let dependents = dependents(machine, gone.name.bytes());
    if dependents > 1 {
        return Some(Refusal::HasChildren(dependents as u32));
    }
    if is_short(world.next, bases as u64)
        || world.is_short(inner_count(world, machine, gone) as u64)
    {
        return Some(Refusal::IdsSpent);
    }
    None
}

// The machines after the snapshot is gone.
fn machines_after(
    alloc: Global,
    world: &World,
    machine: &WorldMachine,
    gone: &WorldSnapshot,
    less: &WorldMachine,
    after: &[WorldMachine],
) -> Result<WorldMachines, NoMemory>
    requires less { less.now.name ≡ machine.now.name }
    ensures { IfOk result (λ all. all ≡ change_by machine_name machine.now.name
        (λ _. record less.now { slots = map (slot_after (seen world.now) gone.now after.now) machine.now.slots }) world.now.machines) }
{
    let slots = slots_after(alloc, world, machine, gone, after)?;
    let new = less.with_slots(alloc, slots)?;
    world.machines_with(alloc, &new)
}

// The world with other media and machines, for which so many numbers were drawn.
fn rebuilt(
    alloc: Global,
    world: &World,
    drawn: usize,
    inner: usize,
    media: WorldMedia,
    machines: WorldMachines,
) -> Result<World, NoMemory>
    requires next { world.now.next + drawn ≤ NUMBER_LIMIT }
    requires inner { world.now.inner + inner ≤ NUMBER_LIMIT }
    ensures { IfOk result (λ new. new ≡ record world.now {
      next = world.now.next + drawn;
      inner = world.now.inner + inner;
      media = media;
      machines = machines;
    }) }
{
    Ok(World {
        seed: world.seed,
        next: world.next + drawn as u64,
        inner: world.inner + inner as u64,
        media,
        machines,
        shelf: world.shelf.copied(alloc)?,
    })
}

// The world without a snapshot.
fn deleted(
    alloc: Global,
    world: &World,
    machine: &WorldMachine,
    gone: &WorldSnapshot,
    bases: &[WorldSlot],
) -> Result<World, NoMemory>
    requires bases { bases.now ≡ base_slots (seen world.now) machine.now gone.now }
    requires allowed { first_refusal (delete_checks (seen world.now) machine.now gone.now) ≡ None }
    ensures world { IfOk result (λ new. seen new ≡ deleted (seen world.now) machine.now gone.now) }
    ensures shelf { IfOk result (λ new. new.shelf ≡ world.now.shelf) }
{
    let less = without_snapshot(alloc, machine, gone)?;
    let after = world.machines_with(alloc, &less)?;
    let media = media_after(alloc, world, machine, gone, after.as_slice(), bases)?;
    let machines = machines_after(alloc, world, machine, gone, &less, after.as_slice())?;
    let inner = inner_count(world, machine, gone);
    rebuilt(alloc, world, bases.len(), inner, media, machines)
}

impl World {
    // Deletes a snapshot that was found.
    fn delete_found(&self, alloc: Global, machine: &WorldMachine, gone: &WorldSnapshot) -> Stepped
        requires few { dependents machine.now gone.now.name < 2 ^ 32 }
        ensures outcome { IfOk result (λ r. outcome_of r ≡ unless_refused (seen self.now)
            (delete_checks (seen self.now) machine.now gone.now) (answers.Done, deleted (seen self.now) machine.now gone.now)) }
        ensures shelf { IfOk result (λ r. r.0.shelf ≡ self.now.shelf) }
    {
        let bases = base_slots(alloc, self, machine, gone)?;
        match delete_refusal(self, machine, gone, bases.len()) {
            Some(refusal) => self.refused(alloc, refusal),
            None => {
                let world = deleted(alloc, self, machine, gone, bases.as_slice())?;
                Ok((world, Answer::Done))
            }
        }
    }

    pub(crate) fn delete_snapshot(&self, alloc: Global, vm: &[u8], name: &[u8]) -> Stepped
        requires sound { IsSound (seen self.now) }
        ensures outcome { IfOk result (λ r. outcome_of r ≡ delete_snapshot (seen self.now) vm.now name.now) }
        ensures shelf { IfOk result (λ r. r.0.shelf ≡ self.now.shelf) }
    {
        let Some(machine) = self.machine(vm) else {
            return self.refused(alloc, Refusal::NoSuchMachine);
        };
        match machine.snapshot(name) {
            Some(gone) => self.delete_found(alloc, machine, gone),
            None => self.refused(alloc, Refusal::NoSuchSnapshot),
        }
    }
}
