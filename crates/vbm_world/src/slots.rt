//! The commands on slots, plain and slow: each copies all disks.

ghost use Rattle.std.specs.Prelude.{◌≡◌, ◌==◌, false, if◌then◌else◌, [], ◌∷◌, IfOk};
ghost use Rattle.vbm_modes.specs.Modes.{is_own};
ghost use Rattle.vbm_world.specs.World.{is_immutable, is_slot_of};
ghost use Rattle.vbm_world.specs.Places.{with_machine, with_slot};
ghost use Rattle.vbm_world.specs.Refusals.{is_short, first_refusal};
ghost use Rattle.vbm_world.specs.Outcomes.{unless_refused};
ghost use Rattle.vbm_world.specs.Slots.{put_slot, attached_slot, drawn_for, attached, attach_checks, attach_medium};
ghost use Rattle.vbm_world.specs.Slots.{without_port, detach_checks, detach_medium, autoreset_checks, set_autoreset};
ghost use Rattle.vbm_world.specs.Seen.{seen, outcome_of};
ghost use Rattle.vbm_world.specs.Sound.{IsSound};
ghost use Rattle.vbm_world.specs.declared.command.Answer.TheVariants as answers;

use crate::command::{Answer, Refusal};
use crate::lookups::{has_medium, slot_at};
use crate::media::Stepped;
use crate::world::{World, WorldMachine, WorldMedium, WorldSlot, WorldSlots};
use std::alloc::Global;
use vbm_modes::{AttachKind, Mode, attach_kind};
use vbm_ports::{Copied, NoMemory, Sequence};

// Slots with one more in its place.
#[tactic(auto, unfolding(crate::specs::Slots::put_slot))]
fn put_slot(alloc: Global, slots: &[WorldSlot], slot: WorldSlot) -> Result<WorldSlots, NoMemory>
    ensures { IfOk result (λ all. all ≡ put_slot slot slots.now) }
{
    let mut all = Sequence::new(alloc);
    let mut rest = slots;
    while let [first, after @ ..] = rest {
        if slot.port < first.port {
            break;
        }
        all.push(first.copied(alloc)?)?;
        rest = after;
    }
    all.push(slot)?;
    while let [first, after @ ..] = rest {
        all.push(first.copied(alloc)?)?;
        rest = after;
    }
    Ok(all)
}

// Whether a machine has a disk of its own of a medium of this mode.
fn is_own(mode: Mode) -> bool
    ensures { result ≡ is_own mode }
{
    matches!(attach_kind(mode), AttachKind::Own)
}

fn is_immutable(mode: Mode) -> bool
    ensures { result ≡ is_immutable mode }
{
    matches!(mode, Mode::Immutable)
}

// The slot of a medium that is attached.
fn attached_slot(alloc: Global, port: u8, medium: &WorldMedium) -> Result<WorldSlot, NoMemory>
    ensures { IfOk result (λ slot. slot ≡ attached_slot port medium.now) }
{
    let own = if is_own(medium.mode) {
        Copied::copied(&medium.flat, alloc)?
    } else {
        None
    };
    Ok(WorldSlot {
        port,
        medium: medium.name.copied(alloc)?,
        autoreset: is_immutable(medium.mode),
        own,
    })
}

// How many numbers of inner images a slot takes.
fn drawn_for(slot: &WorldSlot) -> u64
    ensures { result ≡ drawn_for (slot.now ∷ []) }
{
    if slot.own.is_some() {
        return 1;
    }
    0
}

// Slots without the one at a port.
fn without_port(alloc: Global, slots: &[WorldSlot], port: u8) -> Result<WorldSlots, NoMemory>
    ensures { IfOk result (λ all. all ≡ without_port port slots.now) }
{
    let mut all = Sequence::new(alloc);
    for slot in slots {
        if slot.port != port {
            all.push(slot.copied(alloc)?)?;
        }
    }
    Ok(all)
}

// A slot, which a start resets or not if it is at the port.
fn set_slot(alloc: Global, slot: &WorldSlot, port: u8, on: bool) -> Result<WorldSlot, NoMemory>
    ensures { IfOk result (λ copy. copy ≡ (if slot.now.port == port then record slot.now { autoreset = on } else slot.now)) }
{
    let mut copy = slot.copied(alloc)?;
    if slot.port == port {
        copy.autoreset = on;
    }
    Ok(copy)
}

// Slots, where a start resets that at a port or not.
fn set_slots(alloc: Global, slots: &[WorldSlot], port: u8, on: bool) -> Result<WorldSlots, NoMemory>
    ensures { IfOk result (λ all. all ≡ with_slot port (λ slot. record slot { autoreset = on }) slots.now) }
{
    let mut all = Sequence::new(alloc);
    for slot in slots {
        all.push(set_slot(alloc, slot, port, on)?)?;
    }
    Ok(all)
}

impl World {
    // The numbers are those that the slot takes.
    fn attach_refusal(
        &self,
        machine: &WorldMachine,
        port: u8,
        medium: &WorldMedium,
        drawn: u64,
    ) -> Option<Refusal>
        requires { drawn ≡ drawn_for (attached_slot port medium.now ∷ []) }
        ensures { result ≡ first_refusal (attach_checks (seen self.now) machine.now port medium.now) }
    {
        if self.is_frozen(medium) {
            return Some(Refusal::Frozen);
        }
        if machine.running {
            return Some(Refusal::Running);
        }
        if slot_at(machine.slots.as_slice(), port).is_some() {
            return Some(Refusal::SlotTaken);
        }
        if has_medium(machine.slots.as_slice(), medium.name.bytes()) {
            return Some(Refusal::AlreadyAttached);
        }
        if self.is_short(drawn) {
            return Some(Refusal::IdsSpent);
        }
        None
    }

    // This world with one more slot of a machine, for which so many numbers were drawn.
    fn with_slot(
        &self,
        alloc: Global,
        machine: &WorldMachine,
        slot: WorldSlot,
        drawn: u64,
    ) -> Result<World, NoMemory>
        requires { is_short self.now.inner drawn ≡ false }
        ensures outcome { IfOk result (λ world. seen world ≡
            with_machine (seen self.now) (record machine.now { slots = put_slot slot machine.now.slots }) drawn) }
        ensures shelf { IfOk result (λ world. world.shelf ≡ self.now.shelf) }
    {
        let slots = put_slot(alloc, machine.slots.as_slice(), slot)?;
        self.with_slots_of(alloc, machine, slots, drawn)
    }

    // Attaches a medium that was found to a machine that was found.
    fn attach_found(
        &self,
        alloc: Global,
        machine: &WorldMachine,
        port: u8,
        medium: &WorldMedium,
    ) -> Stepped
        ensures outcome { IfOk result (λ r. outcome_of r ≡ unless_refused (seen self.now)
            (attach_checks (seen self.now) machine.now port medium.now)
            (answers.Done, attached (seen self.now) machine.now port medium.now)) }
        ensures shelf { IfOk result (λ r. r.0.shelf ≡ self.now.shelf) }
    {
        let slot = attached_slot(alloc, port, medium)?;
        let drawn = drawn_for(&slot);
        match self.attach_refusal(machine, port, medium, drawn) {
            Some(refusal) => self.refused(alloc, refusal),
            None => Ok((self.with_slot(alloc, machine, slot, drawn)?, Answer::Done)),
        }
    }

    pub(crate) fn attach_medium(&self, alloc: Global, vm: &[u8], port: u8, name: &[u8]) -> Stepped
        ensures outcome { IfOk result (λ r. outcome_of r ≡ attach_medium (seen self.now) vm.now port name.now) }
        ensures shelf { IfOk result (λ r. r.0.shelf ≡ self.now.shelf) }
    {
        let Some(machine) = self.machine(vm) else {
            return self.refused(alloc, Refusal::NoSuchMachine);
        };
        match self.medium(name) {
            Some(medium) => self.attach_found(alloc, machine, port, medium),
            None => self.refused(alloc, Refusal::NoSuchMedium),
        }
    }

    fn is_slot_of_immutable(&self, slot: &WorldSlot) -> bool
        ensures { result ≡ is_slot_of is_immutable (seen self.now) slot.now }
    {
        match self.medium(slot.medium.bytes()) {
            Some(medium) => is_immutable(medium.mode),
            None => false,
        }
    }

    fn detach_refusal(&self, machine: &WorldMachine, slot: &WorldSlot) -> Option<Refusal>
        ensures { result ≡ first_refusal (detach_checks (seen self.now) machine.now slot.now) }
    {
        if slot.own.is_some() && self.is_of_normal(slot) {
            return Some(Refusal::Frozen);
        }
        if machine.running {
            return Some(Refusal::Running);
        }
        None
    }

    // This world without the slot of a machine at a port.
    fn without_slot(
        &self,
        alloc: Global,
        machine: &WorldMachine,
        port: u8,
    ) -> Result<World, NoMemory>
        requires sound { IsSound (seen self.now) }
        ensures outcome { IfOk result (λ world. seen world ≡
            with_machine (seen self.now) (record machine.now { slots = without_port port machine.now.slots }) 0) }
        ensures shelf { IfOk result (λ world. world.shelf ≡ self.now.shelf) }
    {
        let slots = without_port(alloc, machine.slots.as_slice(), port)?;
        self.with_slots_of(alloc, machine, slots, 0)
    }

    // Detaches what a slot has that was found.
    fn detach_found(
        &self,
        alloc: Global,
        machine: &WorldMachine,
        slot: &WorldSlot,
        port: u8,
    ) -> Stepped
        requires sound { IsSound (seen self.now) }
        ensures outcome { IfOk result (λ r. outcome_of r ≡ unless_refused (seen self.now) (detach_checks (seen self.now) machine.now slot.now)
            (answers.Done, with_machine (seen self.now) (record machine.now { slots = without_port port machine.now.slots }) 0)) }
        ensures shelf { IfOk result (λ r. r.0.shelf ≡ self.now.shelf) }
    {
        match self.detach_refusal(machine, slot) {
            Some(refusal) => self.refused(alloc, refusal),
            None => Ok((self.without_slot(alloc, machine, port)?, Answer::Done)),
        }
    }

    pub(crate) fn detach_medium(&self, alloc: Global, vm: &[u8], port: u8) -> Stepped
        requires sound { IsSound (seen self.now) }
        ensures outcome { IfOk result (λ r. outcome_of r ≡ detach_medium (seen self.now) vm.now port) }
        ensures shelf { IfOk result (λ r. r.0.shelf ≡ self.now.shelf) }
    {
        let Some(machine) = self.machine(vm) else {
            return self.refused(alloc, Refusal::NoSuchMachine);
        };
        match slot_at(machine.slots.as_slice(), port) {
            Some(slot) => self.detach_found(alloc, machine, slot, port),
            None => self.refused(alloc, Refusal::NoSuchSlot),
        }
    }

    fn autoreset_refusal(&self, machine: &WorldMachine, slot: &WorldSlot) -> Option<Refusal>
        ensures { result ≡ first_refusal (autoreset_checks (seen self.now) machine.now slot.now) }
    {
        if machine.running {
            return Some(Refusal::Running);
        }
        if !self.is_slot_of_immutable(slot) {
            return Some(Refusal::WrongKind);
        }
        None
    }

    // This world where a start resets the slot of a machine at a port or not.
    fn with_autoreset(
        &self,
        alloc: Global,
        machine: &WorldMachine,
        port: u8,
        on: bool,
    ) -> Result<World, NoMemory>
        requires sound { IsSound (seen self.now) }
        ensures outcome { IfOk result (λ world. seen world ≡ with_machine (seen self.now)
            (record machine.now { slots = with_slot port (λ slot. record slot { autoreset = on }) machine.now.slots }) 0) }
        ensures shelf { IfOk result (λ world. world.shelf ≡ self.now.shelf) }
    {
        let slots = set_slots(alloc, machine.slots.as_slice(), port, on)?;
        self.with_slots_of(alloc, machine, slots, 0)
    }

    // Tells whether a start resets a slot that was found.
    fn autoreset_found(
        &self,
        alloc: Global,
        machine: &WorldMachine,
        slot: &WorldSlot,
        port: u8,
        on: bool,
    ) -> Stepped
        requires sound { IsSound (seen self.now) }
        ensures outcome { IfOk result (λ r. outcome_of r ≡ unless_refused (seen self.now) (autoreset_checks (seen self.now) machine.now slot.now) (
          answers.Done,
          with_machine (seen self.now)
              (record machine.now { slots = with_slot port (λ slot. record slot { autoreset = on }) machine.now.slots }) 0,
        )) }
        ensures shelf { IfOk result (λ r. r.0.shelf ≡ self.now.shelf) }
    {
        match self.autoreset_refusal(machine, slot) {
            Some(refusal) => self.refused(alloc, refusal),
            None => Ok((self.with_autoreset(alloc, machine, port, on)?, Answer::Done)),
        }
    }

    pub(crate) fn set_autoreset(&self, alloc: Global, vm: &[u8], port: u8, on: bool) -> Stepped
        requires sound { IsSound (seen self.now) }
        ensures outcome { IfOk result (λ r. outcome_of r ≡ set_autoreset (seen self.now) vm.now port on) }
        ensures shelf { IfOk result (λ r. r.0.shelf ≡ self.now.shelf) }
    {
        let Some(machine) = self.machine(vm) else {
            return self.refused(alloc, Refusal::NoSuchMachine);
        };
        match slot_at(machine.slots.as_slice(), port) {
            Some(slot) => self.autoreset_found(alloc, machine, slot, port, on),
            None => self.refused(alloc, Refusal::NoSuchSlot),
        }
    }
}
