//! Starting machines, and powering them off. Neither is committed, since no file tells which machines run.

ghost use Rattle.std.specs.Prelude.{◌≡◌, ◌<◌, ◌&&◌, false, length, map, IfOk, IfErr, OnOk, IsTrue};
ghost use Rattle.std.specs.List.{AllByRecursion, list_any};
ghost use Rattle.vbm_ports.specs.Files.{Files};
ghost use Rattle.vbm_modes.specs.Modes.{is_locking};
ghost use Rattle.vbm_machines.specs.declared.Machine.{Machine as AnyMachine};
ghost use Rattle.vbm_machines.specs.declared.Slot.{Slot as AnySlot};
ghost use Rattle.vbm_named.specs.Names.{has_name, Rises};
ghost use Rattle.vbm_registry.specs.AtPlaces.{has_mode_at};
ghost use Rattle.vbm_registry.specs.Grammar.{machine_entry_name};
ghost use Rattle.vbm_registry.specs.Named.{name_in, named, slot_named, medium_names};
ghost use Rattle.vbm_registry.specs.Renumbered.{with_machine_renewed};
ghost use Rattle.vbm_registry.specs.Rules.{IsLibrary, is_held_directly};
ghost use Rattle.vbm_world.specs.declared.command.Command.TheVariants.{StartVm, PowerOff};
ghost use Rattle.vbm_store.specs.Serves.{IsSoundStore, Holds};
ghost use Rattle.vbm_store.specs.Undone.{has_failed};
ghost use Rattle.vbm_store.specs.Steps.{Refuses, Plans, IsSoundTurn};
ghost use Rattle.vbm_slots.specs.Running.{shares_at, is_locked_at, is_locked_in, CanStart, CanPowerOff, marked, shared_media};

use std::alloc::Global;
use vbm_intent::Plan;
use vbm_machines::{Held, Machine, Slot};
use vbm_modes::locks;
use vbm_ports::{Copied, Names, NoMemory, Text};
use vbm_registry::{Library, Media, Medium};
use vbm_store::{Edit, Store, Turn, Undone};
use vbm_world::{Answer, Refusal};

// Whether a slot shares its medium's disk.
fn is_shared(slot: &Slot) -> bool
    ensures { result ≡ is_held_directly slot.now.held }
{
    match slot.held {
        Held::Direct => true,
        Held::Own(_) | Held::Base => false,
    }
}

// Whether one of the slots shares the disk of the medium at a place.
fn share_medium(slots: &[Slot], place: u32) -> bool
    ensures { result ≡ list_any (shares_at place) slots.now }
{
    slots
        .iter()
        .any(|slot| is_shared(slot) && slot.medium == place)
}

// Whether whoever runs with the disk of the medium at a place locks it.
fn locks_at(media: &[Medium], place: u32) -> bool
    ensures { result ≡ has_mode_at is_locking media.now place }
{
    match media.get(place as usize) {
        None => false,
        Some(medium) => locks(medium.mode),
    }
}

// Whether whoever runs with the slots has locked the medium whose disk a slot shares.
fn is_locked_by(media: &[Medium], slots: &[Slot], slot: &Slot) -> bool
    ensures { result ≡ is_locked_at media.now slots.now slot.now }
{
    is_shared(slot) && locks_at(media, slot.medium) && share_medium(slots, slot.medium)
}

// Whether a machine, where it runs, has locked a medium of the slots.
fn has_locked(media: &[Medium], other: &Machine, slots: &[Slot]) -> bool
    ensures { result ≡ list_any (is_locked_at media.now other.now.slots) slots.now }
{
    slots
        .iter()
        .any(|slot| is_locked_by(media, other.slots.as_slice(), slot))
}

// Whether one of the machines runs, and has locked one.
fn some_has_locked(media: &[Medium], machines: &[Machine], slots: &[Slot]) -> bool
    ensures { result
        ≡ list_any (λ (other : AnyMachine). other.running && list_any (is_locked_at media.now other.slots) slots.now) machines.now }
{
    machines
        .iter()
        .any(|other| other.running && has_locked(media, other, slots))
}

// Whether a running machine has locked a medium of a machine.
fn is_locked(library: &Library, machine: &Machine) -> bool
    requires { IsLibrary (named library.now) }
    ensures { result ≡ is_locked_in library.now machine.now }
{
    let media = library.media.as_slice();
    let machines = library.machines.as_slice();
    some_has_locked(media, machines, machine.slots.as_slice())
}

/// Why `startvm` is refused, if it is.
pub fn check_start(store: &Store, name: &[u8]) -> Result<(), Undone<Refusal>>
    requires sound { IsSoundStore store.now }
    ensures refused { (files : Files) → IfErr result (Refuses files store.now (StartVm name.now)) }
    ensures can { OnOk result (CanStart store.now.library name.now) }
    ensures no_fault { has_failed result ≡ false }
{
    let Some(machine) = store.library.machines.find(name) else {
        return Err(Undone::Refused(Refusal::NoSuchMachine));
    };
    if machine.running {
        return Err(Undone::Refused(Refusal::Running));
    }
    if is_locked(&store.library, machine) {
        return Err(Undone::Refused(Refusal::Locked));
    }
    Ok(())
}

// A copy of the name of a slot's medium.
fn medium_name(alloc: Global, media: &Media, slot: &Slot) -> Result<Text, NoMemory>
    requires { slot.now.medium < length media.now }
    ensures { IfOk result (λ name. name ≡ name_in (medium_names media.now) slot.now.medium) }
{
    media.get(slot.medium as usize).name.copied(alloc)
}

// The names of the media whose disks slots share.
fn shared_media(alloc: Global, media: &Media, slots: &[Slot]) -> Result<Names, NoMemory>
    requires { AllByRecursion (λ (s : AnySlot). s.medium < length media.now) slots.now }
    ensures { IfOk result (λ names. names ≡ shared_media (map (slot_named (medium_names media.now)) slots.now)) }
{
    let mut names = Names::new(alloc);
    let mut rest = slots;
    while let [slot, after @ ..] = rest {
        if is_shared(slot) {
            names.push(medium_name(alloc, media, slot)?)?;
        }
        rest = after;
    }
    Ok(names)
}

// The library with a machine marked.
fn with_mark(
    alloc: Global,
    library: &Library,
    machine: &Machine,
    running: bool,
) -> Result<Library, NoMemory>
    requires rises { Rises machine_entry_name library.now.machines }
    requires there { IsTrue (has_name machine_entry_name machine.now.name library.now.machines) }
    ensures { IfOk result (λ l. l ≡ with_machine_renewed library.now (marked running machine.now)) }
{
    let mut machine = machine.copied(alloc)?;
    machine.running = running;
    library.with_machine_renewed(alloc, machine)
}

/// The turn of `startvm`, where no check refuses it. No slot is reset, since all share their media's disks.
pub fn plan_start(alloc: Global, store: &Store, name: &[u8]) -> Result<Turn, NoMemory>
    requires sound { IsSoundStore store.now }
    requires can { CanStart store.now.library name.now }
    ensures plans { (files : Files) → Holds store.now.library store.now.images files
        → IfOk result (Plans files store.now (StartVm name.now)) }
    ensures sound { IfOk result (IsSoundTurn store.now) }
{
    let machine = store.library.machine_of(name);
    let shared = shared_media(alloc, &store.library.media, machine.slots.as_slice())?;
    let library = with_mark(alloc, &store.library, machine, true)?;
    Ok(Turn {
        library,
        edit: Edit::Unchanged(shared),
        plan: Plan::new(alloc),
        answer: Answer::Done,
    })
}

/// Why `poweroff` is refused, if it is.
pub fn check_power_off(store: &Store, name: &[u8]) -> Result<(), Undone<Refusal>>
    requires sound { IsSoundStore store.now }
    ensures refused { (files : Files) → IfErr result (Refuses files store.now (PowerOff name.now)) }
    ensures can { OnOk result (CanPowerOff store.now.library name.now) }
    ensures no_fault { has_failed result ≡ false }
{
    let Some(machine) = store.library.machines.find(name) else {
        return Err(Undone::Refused(Refusal::NoSuchMachine));
    };
    if !machine.running {
        return Err(Undone::Refused(Refusal::NotRunning));
    }
    Ok(())
}

/// The turn of `poweroff`, where no check refuses it.
pub fn plan_power_off(alloc: Global, store: &Store, name: &[u8]) -> Result<Turn, NoMemory>
    requires sound { IsSoundStore store.now }
    requires can { CanPowerOff store.now.library name.now }
    ensures plans { (files : Files) → Holds store.now.library store.now.images files
        → IfOk result (Plans files store.now (PowerOff name.now)) }
    ensures sound { IfOk result (IsSoundTurn store.now) }
{
    let machine = store.library.machine_of(name);
    let library = with_mark(alloc, &store.library, machine, false)?;
    Ok(Turn {
        library,
        edit: Edit::Keep,
        plan: Plan::new(alloc),
        answer: Answer::Done,
    })
}
