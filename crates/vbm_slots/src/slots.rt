//! The slots of machines: attaching and detaching media.

ghost use Rattle.std.specs.Prelude.{◌≡◌, ◌<◌, false, find, Some, IfOk, IfErr, OnOk, IsTrue};
ghost use Rattle.std.specs.Option.{option_copied};
ghost use Rattle.vbm_ports.specs.Files.{Files};
ghost use Rattle.vbm_named.specs.Names.{find_by, has_name, Rises};
ghost use Rattle.vbm_world.specs.declared.limits.TheConstants.{PORT_LIMIT};
ghost use Rattle.vbm_world.specs.declared.command.Command.TheVariants.{Attach, Detach};
ghost use Rattle.vbm_world.specs.Refusals.{first_refusal};
ghost use Rattle.vbm_registry.specs.declared.media.Medium.{Medium as AnyMedium};
ghost use Rattle.vbm_registry.specs.Grammar.{machine_entry_name};
ghost use Rattle.vbm_registry.specs.Library.{medium_entry_name};
ghost use Rattle.vbm_registry.specs.Named.{named};
ghost use Rattle.vbm_registry.specs.Renumbered.{has_medium_at, with_machine_renewed};
ghost use Rattle.vbm_registry.specs.Rules.{IsLibrary};
ghost use Rattle.vbm_store.specs.Serves.{IsWritable, IsSoundStore, Holds};
ghost use Rattle.vbm_store.specs.Undone.{has_failed};
ghost use Rattle.vbm_store.specs.Steps.{Refuses, Plans, IsSoundTurn};
ghost use Rattle.vbm_slots.specs.Slots.{is_at, attach_checks, machine_attached, machine_detached, CanAttachTo, CanDetachFrom, Writes};

use std::alloc::Global;
use vbm_machines::{Machine, Slot, attach, detach};
use vbm_ports::{Copied, NoMemory};
use vbm_registry::{Library, Medium};
use vbm_store::{Edit, Store, Turn, Undone, is_frozen, library_plan};
use vbm_world::{Answer, Refusal};

// Lends the slot at a port.
fn slot_at(machine: &Machine, port: u8) -> Option<&Slot>
    ensures { option_copied result ≡ find (is_at port) machine.now.slots }
{
    machine
        .slots
        .as_slice()
        .iter()
        .find(|slot| slot.port == port)
}

// Whether a slot has the medium at a place.
fn has_medium(machine: &Machine, place: u32) -> bool
    ensures { result ≡ has_medium_at place machine.now.slots }
{
    let mut slots = machine.slots.as_slice().iter();
    slots.any(|slot| slot.medium == place)
}

// The turn to a library with a machine in the place of the one of its name.
fn turn_to(alloc: Global, store: &Store, machine: Machine) -> Result<Turn, NoMemory>
    requires rises { Rises machine_entry_name store.now.library.machines }
    requires there { IsTrue (has_name machine_entry_name machine.name store.now.library.machines) }
    requires library { IsWritable (with_machine_renewed store.now.library machine) }
    ensures { IfOk result (Writes (with_machine_renewed store.now.library machine)) }
{
    let library = store.library.with_machine_renewed(alloc, machine)?;
    let plan = library_plan(alloc, &library)?;
    Ok(Turn {
        library,
        edit: Edit::Keep,
        plan,
        answer: Answer::Done,
    })
}

// ---- storageattach VM PORT NAME

// Why a machine does not get the medium, if it does not. A slot that shares the medium's disk takes no number.
fn attach_refusal(
    library: &Library,
    machine: &Machine,
    medium: &Medium,
    port: u8,
) -> Option<Refusal>
    requires rules { IsLibrary (named library.now) }
    ensures { result ≡ first_refusal (attach_checks library.now machine.now medium.now port) }
{
    if is_frozen(library, medium) {
        return Some(Refusal::Frozen);
    }
    if machine.running {
        return Some(Refusal::Running);
    }
    if slot_at(machine, port).is_some() {
        return Some(Refusal::SlotTaken);
    }
    if has_medium(machine, library.place_of(medium.name.bytes()) as u32) {
        return Some(Refusal::AlreadyAttached);
    }
    None
}

/// Why `storageattach VM PORT NAME` is refused, if it is.
pub fn check_attach(store: &Store, vm: &[u8], port: u8, name: &[u8]) -> Result<(), Undone<Refusal>>
    requires sound { IsSoundStore store.now }
    requires port { port < PORT_LIMIT }
    ensures refused { (files : Files) → IfErr result (Refuses files store.now (Attach vm.now port name.now)) }
    ensures can { OnOk result (CanAttachTo store.now.library vm.now port name.now) }
    ensures no_fault { has_failed result ≡ false }
{
    let Some(machine) = store.library.machines.find(vm) else {
        return Err(Undone::Refused(Refusal::NoSuchMachine));
    };
    let Some(medium) = store.library.media.find(name) else {
        return Err(Undone::Refused(Refusal::NoSuchMedium));
    };
    match attach_refusal(&store.library, machine, medium, port) {
        Some(refusal) => Err(Undone::Refused(refusal)),
        None => Ok(()),
    }
}

// A copy of a machine with a slot of the medium. No number is drawn for it.
fn attached(
    alloc: Global,
    library: &Library,
    machine: &Machine,
    port: u8,
    name: &[u8],
) -> Result<Machine, NoMemory>
    requires rules { IsLibrary (named library.now) }
    requires there { IsTrue (has_name medium_entry_name name.now library.now.media) }
    ensures { (medium : AnyMedium) → find_by medium_entry_name name.now library.now.media ≡ Some medium
        → IfOk result (λ m. m ≡ machine_attached library.now machine.now port name.now medium.mode) }
{
    let place = library.place_of(name);
    let mode = library.media.get(place).mode;
    let mut machine = machine.copied(alloc)?;
    attach(alloc, &mut machine, port, place as u32, mode, library.inner)?;
    Ok(machine)
}

/// The turn of `storageattach VM PORT NAME`, where no check refuses it.
pub fn plan_attach(
    alloc: Global,
    store: &Store,
    vm: &[u8],
    port: u8,
    name: &[u8],
) -> Result<Turn, NoMemory>
    requires sound { IsSoundStore store.now }
    requires can { CanAttachTo store.now.library vm.now port name.now }
    ensures plans { (files : Files) → Holds store.now.library store.now.images files
        → IfOk result (Plans files store.now (Attach vm.now port name.now)) }
    ensures sound { IfOk result (IsSoundTurn store.now) }
{
    let machine = store.library.machine_of(vm);
    let machine = attached(alloc, &store.library, machine, port, name)?;
    turn_to(alloc, store, machine)
}

// ---- storageattach VM PORT none

/// Why `storageattach VM PORT none` is refused, if it is. A slot that shares its medium's disk is never kept by a snapshot.
pub fn check_detach(store: &Store, vm: &[u8], port: u8) -> Result<(), Undone<Refusal>>
    requires sound { IsSoundStore store.now }
    ensures refused { (files : Files) → IfErr result (Refuses files store.now (Detach vm.now port)) }
    ensures can { OnOk result (CanDetachFrom store.now.library vm.now port) }
    ensures no_fault { has_failed result ≡ false }
{
    let Some(machine) = store.library.machines.find(vm) else {
        return Err(Undone::Refused(Refusal::NoSuchMachine));
    };
    let Some(_) = slot_at(machine, port) else {
        return Err(Undone::Refused(Refusal::NoSuchSlot));
    };
    if machine.running {
        return Err(Undone::Refused(Refusal::Running));
    }
    Ok(())
}

// A copy of a machine without the slot at a port.
fn detached(alloc: Global, machine: &Machine, port: u8) -> Result<Machine, NoMemory>
    ensures { IfOk result (λ m. m ≡ machine_detached port machine.now) }
{
    let mut machine = machine.copied(alloc)?;
    detach(alloc, &mut machine, port)?;
    Ok(machine)
}

/// The turn of `storageattach VM PORT none`, where no check refuses it.
pub fn plan_detach(alloc: Global, store: &Store, vm: &[u8], port: u8) -> Result<Turn, NoMemory>
    requires sound { IsSoundStore store.now }
    requires can { CanDetachFrom store.now.library vm.now port }
    ensures plans { (files : Files) → Holds store.now.library store.now.images files
        → IfOk result (Plans files store.now (Detach vm.now port)) }
    ensures sound { IfOk result (IsSoundTurn store.now) }
{
    let machine = store.library.machine_of(vm);
    let machine = detached(alloc, machine, port)?;
    turn_to(alloc, store, machine)
}
