//! The commands on machines, plain and slow: each copies all disks.

ghost use Rattle.std.specs.Prelude.{◌≡◌, not, true, false, [], ◌∷◌, find, map, count_by, IfOk};
ghost use Rattle.std.specs.List.{list_any};
ghost use Rattle.std.specs.Option.{option_copied};
ghost use Rattle.vbm_named.specs.Names.{has_name};
ghost use Rattle.vbm_world.specs.World.{machine_name, is_direct_of};
ghost use Rattle.vbm_world.specs.Places.{slots_named, with_machine};
ghost use Rattle.vbm_world.specs.Refusals.{is_short, first_refusal};
ghost use Rattle.vbm_world.specs.Outcomes.{unless_refused};
ghost use Rattle.vbm_world.specs.Machines.{create_vm_checks, new_machine, create_vm, unregister_checks, unregister_vm};
ghost use Rattle.vbm_world.specs.Machines.{vm_line, list_vms, is_like, disk_or_medium, is_resetting, reset_slot};
ghost use Rattle.vbm_world.specs.Machines.{unchanged_by, started, is_locked_by, is_locked, start_checks, start_vm, power_off};
ghost use Rattle.vbm_world.specs.Seen.{seen, outcome_of};
ghost use Rattle.vbm_world.specs.Sound.{IsSound};
ghost use Rattle.vbm_world.specs.declared.command.Answer.TheVariants as answers;
ghost use Rattle.vbm_world.specs.declared.command.Refusal.TheVariants as refusals;

use crate::command::{Answer, Refusal, VmLine, VmLines, Which};
use crate::limits::MACHINE_LIMIT;
use crate::lookups::slots_named;
use crate::media::Stepped;
use crate::world::{
    World, WorldMachine, WorldMachines, WorldMedia, WorldMedium, WorldSlot, WorldSlots,
};
use std::alloc::Global;
use vbm_modes::{locks, resets};
use vbm_named::names;
use vbm_named::names::is_same;
use vbm_ports::{Copied, NoMemory, Sequence, Text};
use vbm_volume::Flat;

// A machine without slots and snapshots, off.
fn new_machine(alloc: Global, name: &[u8]) -> Result<WorldMachine, NoMemory>
    ensures { IfOk result (λ machine. machine ≡ new_machine name.now) }
{
    Ok(WorldMachine {
        name: Text::new(alloc, name)?,
        running: false,
        slots: Sequence::new(alloc),
        snapshots: Sequence::new(alloc),
        current: None,
    })
}

fn vm_line(alloc: Global, machine: &WorldMachine) -> Result<VmLine, NoMemory>
    ensures { IfOk result (λ line. line ≡ vm_line machine.now) }
{
    Ok(VmLine {
        name: machine.name.copied(alloc)?,
        running: machine.running,
    })
}

// Whether one of the slots shares the disk of the medium.
fn share_disk(slots: &[WorldSlot], name: &[u8]) -> bool
    ensures { result ≡ list_any (is_direct_of name.now) slots.now }
{
    slots.iter().any(|slot| slot.own.is_none() && is_same(slot.medium.bytes(), name))
}

// Lends the slot that has the port and the medium of another.
fn find_like<'a>(slots: &'a [WorldSlot], like: &WorldSlot) -> Option<&'a WorldSlot>
    ensures { option_copied result ≡ find (is_like like.now) slots.now }
{
    slots.iter().find(|slot| {
        slot.port == like.port && is_same(slot.medium.bytes(), like.medium.bytes())
    })
}

fn copied_disk(alloc: Global, disk: Option<&Flat>) -> Result<Option<Flat>, NoMemory>
    ensures { IfOk result (λ copy. copy ≡ option_copied disk.entry) }
{
    match disk {
        Some(disk) => Ok(Some(disk.copied(alloc)?)),
        None => Ok(None),
    }
}

// The medium, unchanged since the start where the slots share its disk.
fn unchanged_by(
    alloc: Global,
    slots: &[WorldSlot],
    medium: &WorldMedium,
) -> Result<WorldMedium, NoMemory>
    ensures { IfOk result (λ copy. copy ≡ unchanged_by slots.now medium.now) }
{
    let mut copy = medium.copied(alloc)?;
    if share_disk(slots, medium.name.bytes()) {
        copy.changed = false;
    }
    Ok(copy)
}

fn all_unchanged_by(
    alloc: Global,
    slots: &[WorldSlot],
    media: &[WorldMedium],
) -> Result<WorldMedia, NoMemory>
    ensures { IfOk result (λ copies. copies ≡ map (unchanged_by slots.now) media.now) }
{
    let mut copies = Sequence::new(alloc);
    for medium in media {
        copies.push(unchanged_by(alloc, slots, medium)?)?;
    }
    Ok(copies)
}

impl WorldMachine {
    fn unregister_refusal(&self) -> Option<Refusal>
        ensures { result ≡ first_refusal (unregister_checks self.now) }
    {
        if !self.slots.is_empty() || !self.snapshots.is_empty() {
            return Some(Refusal::InUse);
        }
        if self.running {
            return Some(Refusal::Running);
        }
        None
    }
}

impl World {
    // This world with other machines.
    fn with_machines(&self, alloc: Global, machines: WorldMachines) -> Result<World, NoMemory>
        ensures { IfOk result (λ world. world ≡ record self.now { machines = machines }) }
    {
        Ok(World {
            seed: self.seed,
            next: self.next,
            inner: self.inner,
            media: self.media.copied(alloc)?,
            machines,
            shelf: self.shelf.copied(alloc)?,
        })
    }

    fn has_machine(&self, name: &[u8]) -> bool
        ensures { result ≡ has_name machine_name name.now self.now.machines }
    {
        let mut machines = self.machines.as_slice().iter();
        machines.any(|machine| is_same(machine.name.bytes(), name))
    }

    fn create_vm_refusal(&self, name: &[u8]) -> Option<Refusal>
        ensures { result ≡ first_refusal (create_vm_checks (seen self.now) name.now) }
    {
        if self.has_machine(name) {
            return Some(Refusal::NameTaken);
        }
        if self.machines.len() >= MACHINE_LIMIT {
            return Some(Refusal::Full(Which::Machines));
        }
        None
    }

    pub(crate) fn create_vm(&self, alloc: Global, name: &[u8]) -> Stepped
        ensures outcome { IfOk result (λ r. outcome_of r ≡ create_vm (seen self.now) name.now) }
        ensures shelf { IfOk result (λ r. r.0.shelf ≡ self.now.shelf) }
    {
        if let Some(refusal) = self.create_vm_refusal(name) {
            return self.refused(alloc, refusal);
        }
        let machine = new_machine(alloc, name)?;
        let machines = names::with(alloc, self.machines.as_slice(), machine)?;
        Ok((self.with_machines(alloc, machines)?, Answer::Done))
    }

    pub(crate) fn unregister_vm(&self, alloc: Global, vm: &[u8]) -> Stepped
        ensures outcome { IfOk result (λ r. outcome_of r ≡ unregister_vm (seen self.now) vm.now) }
        ensures shelf { IfOk result (λ r. r.0.shelf ≡ self.now.shelf) }
    {
        let Some(machine) = self.machine(vm) else {
            return self.refused(alloc, Refusal::NoSuchMachine);
        };
        if let Some(refusal) = machine.unregister_refusal() {
            return self.refused(alloc, refusal);
        }
        let machines = names::without(alloc, self.machines.as_slice(), vm)?;
        Ok((self.with_machines(alloc, machines)?, Answer::Done))
    }

    fn vm_lines(&self, alloc: Global) -> Result<VmLines, NoMemory>
        ensures { IfOk result (λ lines. lines ≡ map vm_line self.now.machines) }
    {
        let mut lines = Sequence::new(alloc);
        for machine in self.machines.as_slice() {
            lines.push(vm_line(alloc, machine)?)?;
        }
        Ok(lines)
    }

    pub(crate) fn list_vms(&self, alloc: Global) -> Stepped
        ensures outcome { IfOk result (λ r. outcome_of r ≡ list_vms (seen self.now)) }
        ensures shelf { IfOk result (λ r. r.0.shelf ≡ self.now.shelf) }
    {
        let lines = self.vm_lines(alloc)?;
        Ok((self.copied(alloc)?, Answer::VmList(lines)))
    }

    // The disk of the slot, if there is one that has its own, and else the medium's.
    fn disk_or_medium<'a>(&'a self, medium: &[u8], slot: Option<&'a WorldSlot>) -> Option<&'a Flat>
        ensures { option_copied result ≡ disk_or_medium (seen self.now) medium.now (option_copied slot.entry) }
    {
        if let Some(slot) = slot {
            if let Some(own) = &slot.own {
                return Some(own);
            }
        }
        match self.medium(medium) {
            Some(medium) => medium.flat.as_ref(),
            None => None,
        }
    }

    // Whether a start resets the slot.
    fn is_resetting(&self, slot: &WorldSlot) -> bool
        ensures { result ≡ is_resetting (seen self.now) slot.now }
    {
        match self.medium(slot.medium.bytes()) {
            Some(medium) => resets(medium.mode, slot.autoreset),
            None => false,
        }
    }

    // A slot after a start; these are the slots of the current snapshot.
    fn reset_slot(
        &self,
        alloc: Global,
        current: &[WorldSlot],
        slot: &WorldSlot,
    ) -> Result<WorldSlot, NoMemory>
        ensures { IfOk result (λ copy. copy ≡ reset_slot (seen self.now) current.now slot.now) }
    {
        if !self.is_resetting(slot) {
            return slot.copied(alloc);
        }
        let disk = self.disk_or_medium(slot.medium.bytes(), find_like(current, slot));
        Ok(WorldSlot {
            port: slot.port,
            medium: slot.medium.copied(alloc)?,
            autoreset: slot.autoreset,
            own: copied_disk(alloc, disk)?,
        })
    }

    fn reset_slots(
        &self,
        alloc: Global,
        current: &[WorldSlot],
        slots: &[WorldSlot],
    ) -> Result<WorldSlots, NoMemory>
        ensures { IfOk result (λ copies. copies ≡ map (reset_slot (seen self.now) current.now) slots.now) }
    {
        let mut copies = Sequence::new(alloc);
        for slot in slots {
            copies.push(self.reset_slot(alloc, current, slot)?)?;
        }
        Ok(copies)
    }

    // How many slots a start resets.
    fn count_resetting(&self, slots: &[WorldSlot]) -> u64
        ensures { result ≡ count_by (is_resetting (seen self.now)) slots.now }
    {
        slots.iter().filter(|slot| self.is_resetting(slot)).count() as u64
    }

    // The machine after a start.
    fn started_machine(
        &self,
        alloc: Global,
        machine: &WorldMachine,
    ) -> Result<WorldMachine, NoMemory>
        ensures { IfOk result (λ copy. copy ≡ record machine.now {
          running = true;
          slots = map (reset_slot (seen self.now) (slots_named machine.now.current machine.now.snapshots)) machine.now.slots;
        }) }
    {
        let current = slots_named(machine.current.as_ref(), machine.snapshots.as_slice());
        let slots = self.reset_slots(alloc, current, machine.slots.as_slice())?;
        let mut copy = machine.with_slots(alloc, slots)?;
        copy.running = true;
        Ok(copy)
    }

    fn started(&self, alloc: Global, machine: &WorldMachine) -> Result<World, NoMemory>
        requires { is_short self.now.inner (count_by (is_resetting (seen self.now)) machine.now.slots) ≡ false }
        ensures outcome { IfOk result (λ world. seen world ≡ started (seen self.now) machine.now) }
        ensures shelf { IfOk result (λ world. world.shelf ≡ self.now.shelf) }
    {
        let slots = machine.slots.as_slice();
        let media = all_unchanged_by(alloc, slots, self.media.as_slice())?;
        let drawn = self.count_resetting(slots);
        let mut world = self.with_machine(alloc, self.started_machine(alloc, machine)?, drawn)?;
        world.media = media;
        Ok(world)
    }

    // Whether whoever runs with the slots has locked the medium whose disk the slot shares.
    fn is_locked_by(&self, slots: &[WorldSlot], slot: &WorldSlot) -> bool
        ensures { result ≡ is_locked_by (seen self.now) slots.now slot.now }
    {
        if slot.own.is_some() {
            return false;
        }
        match self.medium(slot.medium.bytes()) {
            Some(medium) => locks(medium.mode) && share_disk(slots, slot.medium.bytes()),
            None => false,
        }
    }

    fn has_locked(&self, other: &WorldMachine, slots: &[WorldSlot]) -> bool
        ensures { result ≡ list_any (is_locked_by (seen self.now) other.now.slots) slots.now }
    {
        slots
            .iter()
            .any(|slot| self.is_locked_by(other.slots.as_slice(), slot))
    }

    // Whether a running machine has locked a medium of the machine.
    fn is_locked(&self, machine: &WorldMachine) -> bool
        ensures { result ≡ is_locked (seen self.now) machine.now }
    {
        let mut others = self.machines.as_slice().iter();
        others.any(|other| other.running && self.has_locked(other, machine.slots.as_slice()))
    }

    fn start_refusal(&self, machine: &WorldMachine) -> Option<Refusal>
        ensures { result ≡ first_refusal (start_checks (seen self.now) machine.now) }
    {
        if machine.running {
            return Some(Refusal::Running);
        }
        if self.is_locked(machine) {
            return Some(Refusal::Locked);
        }
        if self.is_short(self.count_resetting(machine.slots.as_slice())) {
            return Some(Refusal::IdsSpent);
        }
        None
    }

    // Starts a machine that was found.
    fn start_found(&self, alloc: Global, machine: &WorldMachine) -> Stepped
        ensures outcome { IfOk result (λ r. outcome_of r ≡ unless_refused (seen self.now) (start_checks (seen self.now) machine.now)
            (answers.Done, started (seen self.now) machine.now)) }
        ensures shelf { IfOk result (λ r. r.0.shelf ≡ self.now.shelf) }
    {
        match self.start_refusal(machine) {
            Some(refusal) => self.refused(alloc, refusal),
            None => Ok((self.started(alloc, machine)?, Answer::Done)),
        }
    }

    pub(crate) fn start_vm(&self, alloc: Global, vm: &[u8]) -> Stepped
        ensures outcome { IfOk result (λ r. outcome_of r ≡ start_vm (seen self.now) vm.now) }
        ensures shelf { IfOk result (λ r. r.0.shelf ≡ self.now.shelf) }
    {
        match self.machine(vm) {
            Some(machine) => self.start_found(alloc, machine),
            None => self.refused(alloc, Refusal::NoSuchMachine),
        }
    }

    // Turns off a machine that was found.
    fn power_off_found(&self, alloc: Global, machine: &WorldMachine) -> Stepped
        requires sound { IsSound (seen self.now) }
        ensures outcome { IfOk result (λ r. outcome_of r ≡ unless_refused (seen self.now) ((not machine.now.running, refusals.NotRunning) ∷ [])
            (answers.Done, with_machine (seen self.now) (record machine.now { running = false }) 0)) }
        ensures shelf { IfOk result (λ r. r.0.shelf ≡ self.now.shelf) }
    {
        if !machine.running {
            return self.refused(alloc, Refusal::NotRunning);
        }
        let mut off = machine.copied(alloc)?;
        off.running = false;
        Ok((self.with_machine(alloc, off, 0)?, Answer::Done))
    }

    pub(crate) fn power_off(&self, alloc: Global, vm: &[u8]) -> Stepped
        requires sound { IsSound (seen self.now) }
        ensures outcome { IfOk result (λ r. outcome_of r ≡ power_off (seen self.now) vm.now) }
        ensures shelf { IfOk result (λ r. r.0.shelf ≡ self.now.shelf) }
    {
        match self.machine(vm) {
            Some(machine) => self.power_off_found(alloc, machine),
            None => self.refused(alloc, Refusal::NoSuchMachine),
        }
    }
}
