//! Making and removing machines, and listing them.

ghost use Rattle.std.specs.Prelude.{◌≡◌, false, map, IfOk, IfErr, OnOk, IsTrue};
ghost use Rattle.vbm_ports.specs.Files.{Files};
ghost use Rattle.vbm_ports.specs.Names.{is_short_name};
ghost use Rattle.vbm_world.specs.declared.command.Command.TheVariants.{CreateVm, UnregisterVm, ListVms};
ghost use Rattle.vbm_store.specs.Serves.{IsSoundStore, Holds};
ghost use Rattle.vbm_store.specs.Undone.{has_failed};
ghost use Rattle.vbm_store.specs.Steps.{Answers, Refuses, Plans, IsSoundTurn};
ghost use Rattle.vbm_slots.specs.Machines.{new_entry, has_parts, line_of, CanCreateVm, CanUnregisterVm};

use std::alloc::Global;
use vbm_machines::{Machine, Machines};
use vbm_named::ByName;
use vbm_ports::{Copied, NoMemory, Sequence, Text};
use vbm_store::{Edit, Store, Turn, Undone, library_plan};
use vbm_world::{Answer, MACHINE_LIMIT, Refusal, VmLine, VmLines, Which};

// ---- createvm

// A machine without slots and snapshots, off.
fn new_machine(alloc: Global, name: &[u8]) -> Result<Machine, NoMemory>
    ensures { IfOk result (λ machine. machine ≡ new_entry name.now) }
{
    Ok(Machine {
        name: Text::new(alloc, name)?,
        running: false,
        slots: Sequence::new(alloc),
        snapshots: ByName::new(alloc),
        current: None,
    })
}

/// Why `createvm` is refused, if it is.
pub fn check_create_vm(store: &Store, name: &[u8]) -> Result<(), Undone<Refusal>>
    requires sound { IsSoundStore store.now }
    ensures refused { (files : Files) → IfErr result (Refuses files store.now (CreateVm name.now)) }
    ensures can { OnOk result (CanCreateVm store.now.library name.now) }
    ensures no_fault { has_failed result ≡ false }
{
    let machines = &store.library.machines;
    if machines.find(name).is_some() {
        return Err(Undone::Refused(Refusal::NameTaken));
    }
    if machines.len() >= MACHINE_LIMIT {
        return Err(Undone::Refused(Refusal::Full(Which::Machines)));
    }
    Ok(())
}

/// The turn of `createvm`, where no check refuses it.
pub fn plan_create_vm(alloc: Global, store: &Store, name: &[u8]) -> Result<Turn, NoMemory>
    requires sound { IsSoundStore store.now }
    requires name { IsTrue (is_short_name name.now) }
    requires can { CanCreateVm store.now.library name.now }
    ensures plans { (files : Files) → Holds store.now.library store.now.images files
        → IfOk result (Plans files store.now (CreateVm name.now)) }
    ensures sound { IfOk result (IsSoundTurn store.now) }
{
    let machine = new_machine(alloc, name)?;
    let library = store.library.with_machine(alloc, machine)?;
    let plan = library_plan(alloc, &library)?;
    Ok(Turn {
        library,
        edit: Edit::Keep,
        plan,
        answer: Answer::Done,
    })
}

// ---- unregistervm

// Whether a machine has slots or snapshots.
fn has_parts(machine: &Machine) -> bool
    ensures { result ≡ has_parts machine.now }
{
    machine.slots.len() > 0 || machine.snapshots.len() > 0
}

/// Why `unregistervm` is refused, if it is.
pub fn check_unregister_vm(store: &Store, name: &[u8]) -> Result<(), Undone<Refusal>>
    requires sound { IsSoundStore store.now }
    ensures refused { (files : Files) → IfErr result (Refuses files store.now (UnregisterVm name.now)) }
    ensures can { OnOk result (CanUnregisterVm store.now.library name.now) }
    ensures no_fault { has_failed result ≡ false }
{
    let Some(machine) = store.library.machines.find(name) else {
        return Err(Undone::Refused(Refusal::NoSuchMachine));
    };
    if has_parts(machine) {
        return Err(Undone::Refused(Refusal::InUse));
    }
    if machine.running {
        return Err(Undone::Refused(Refusal::Running));
    }
    Ok(())
}

/// The turn of `unregistervm`, where no check refuses it.
pub fn plan_unregister_vm(alloc: Global, store: &Store, name: &[u8]) -> Result<Turn, NoMemory>
    requires sound { IsSoundStore store.now }
    requires can { CanUnregisterVm store.now.library name.now }
    ensures plans { (files : Files) → Holds store.now.library store.now.images files
        → IfOk result (Plans files store.now (UnregisterVm name.now)) }
    ensures sound { IfOk result (IsSoundTurn store.now) }
{
    let library = store.library.without_machine(alloc, name)?;
    let plan = library_plan(alloc, &library)?;
    Ok(Turn {
        library,
        edit: Edit::Keep,
        plan,
        answer: Answer::Done,
    })
}

// ---- list vms

fn vm_line(alloc: Global, machine: &Machine) -> Result<VmLine, NoMemory>
    ensures { IfOk result (λ line. line ≡ line_of machine.now) }
{
    Ok(VmLine {
        name: machine.name.copied(alloc)?,
        running: machine.running,
    })
}

fn vm_lines(alloc: Global, machines: &Machines) -> Result<VmLines, NoMemory>
    ensures { IfOk result (λ lines. lines ≡ map line_of machines.now) }
{
    let mut lines = Sequence::new(alloc);
    for machine in machines.as_slice() {
        lines.push(vm_line(alloc, machine)?)?;
    }
    Ok(lines)
}

/// The answer to `list vms`.
pub fn answer_list_vms(alloc: Global, store: &Store) -> Result<Answer, NoMemory>
    requires sound { IsSoundStore store.now }
    ensures { (files : Files) → IfOk result (Answers files store.now ListVms) }
{
    Ok(Answer::VmList(vm_lines(alloc, &store.library.machines)?))
}
