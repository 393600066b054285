//! Commands on machines and on the modes of media: a check, which reads alone, then settling, then the plan.

ghost use Rattle.std.specs.Prelude.{◌≡◌, ◌<◌, false, IfOk, IfErr, IsTrue};
ghost use Rattle.vbm_ports.specs.Counts.{IsCounted};
ghost use Rattle.vbm_ports.specs.Disk.{OnlyReads};
ghost use Rattle.vbm_ports.specs.Names.{is_short_name};
ghost use Rattle.vbm_modes.specs.Modes.{is_own};
ghost use Rattle.vbm_world.specs.declared.limits.TheConstants.{PORT_LIMIT};
ghost use Rattle.vbm_world.specs.declared.command.Command.TheVariants as commands;
ghost use Rattle.vbm_store.specs.Undone.{has_failed};
ghost use Rattle.vbm_store.specs.Serves.{IsSoundStore, FitsDisk};
ghost use Rattle.vbm_store.specs.Steps.{Refuses, Plans, IsSoundTurn};

use std::alloc::Global;
use vbm_modes::Mode;
use vbm_ports::Disk;
use vbm_slots::{
    check_attach, check_create_vm, check_detach, check_mode, check_power_off, check_start,
    check_unregister_vm, plan_attach, plan_create_vm, plan_detach, plan_mode, plan_power_off,
    plan_start, plan_unregister_vm,
};
use vbm_store::{Store, Turn, Undone};
use vbm_world::Refusal;

/// The turn of `modifymedium --type`.
pub(crate) fn set_mode<D: Disk>(
    alloc: Global,
    store: &mut Store,
    disk: &mut D,
    name: &[u8],
    mode: Mode,
) -> Result<Turn, Undone<Refusal>>
    requires sound { IsSoundStore store.old }
    requires shared { is_own mode ≡ false }
    requires fits { D.tells → FitsDisk store.old (D.state disk.old) }
    ensures store { store.new ≡ store.old }
    ensures plans { D.tells → IfOk result (Plans (D.state disk.old).files store.old (commands.SetMode name.now mode)) }
    ensures refused { D.tells → IfErr result (Refuses (D.state disk.old).files store.old (commands.SetMode name.now mode)) }
    ensures sound { IfOk result (IsSoundTurn store.old) }
    ensures reads { OnlyReads D.tells (D.state disk.old) (D.state disk.new) }
    ensures faults { IsCounted (has_failed result) (D.state disk.old).faults (D.state disk.new).faults }
{
    check_mode(store, name)?;
    store.settle(disk)?;
    Ok(plan_mode(alloc, store, name, mode)?)
}

/// The turn of `createvm`.
pub(crate) fn create_vm<D: Disk>(
    alloc: Global,
    store: &mut Store,
    disk: &mut D,
    name: &[u8],
) -> Result<Turn, Undone<Refusal>>
    requires sound { IsSoundStore store.old }
    requires name { IsTrue (is_short_name name.now) }
    requires fits { D.tells → FitsDisk store.old (D.state disk.old) }
    ensures store { store.new ≡ store.old }
    ensures plans { D.tells → IfOk result (Plans (D.state disk.old).files store.old (commands.CreateVm name.now)) }
    ensures refused { D.tells → IfErr result (Refuses (D.state disk.old).files store.old (commands.CreateVm name.now)) }
    ensures sound { IfOk result (IsSoundTurn store.old) }
    ensures reads { OnlyReads D.tells (D.state disk.old) (D.state disk.new) }
    ensures faults { IsCounted (has_failed result) (D.state disk.old).faults (D.state disk.new).faults }
{
    check_create_vm(store, name)?;
    store.settle(disk)?;
    Ok(plan_create_vm(alloc, store, name)?)
}

/// The turn of `unregistervm`.
pub(crate) fn unregister_vm<D: Disk>(
    alloc: Global,
    store: &mut Store,
    disk: &mut D,
    vm: &[u8],
) -> Result<Turn, Undone<Refusal>>
    requires sound { IsSoundStore store.old }
    requires fits { D.tells → FitsDisk store.old (D.state disk.old) }
    ensures store { store.new ≡ store.old }
    ensures plans { D.tells → IfOk result (Plans (D.state disk.old).files store.old (commands.UnregisterVm vm.now)) }
    ensures refused { D.tells → IfErr result (Refuses (D.state disk.old).files store.old (commands.UnregisterVm vm.now)) }
    ensures sound { IfOk result (IsSoundTurn store.old) }
    ensures reads { OnlyReads D.tells (D.state disk.old) (D.state disk.new) }
    ensures faults { IsCounted (has_failed result) (D.state disk.old).faults (D.state disk.new).faults }
{
    check_unregister_vm(store, vm)?;
    store.settle(disk)?;
    Ok(plan_unregister_vm(alloc, store, vm)?)
}

/// The turn of `storageattach VM PORT NAME`.
pub(crate) fn attach_medium<D: Disk>(
    alloc: Global,
    store: &mut Store,
    disk: &mut D,
    vm: &[u8],
    port: u8,
    name: &[u8],
) -> Result<Turn, Undone<Refusal>>
    requires sound { IsSoundStore store.old }
    requires port { port < PORT_LIMIT }
    requires fits { D.tells → FitsDisk store.old (D.state disk.old) }
    ensures store { store.new ≡ store.old }
    ensures plans { D.tells → IfOk result (Plans (D.state disk.old).files store.old (commands.Attach vm.now port name.now)) }
    ensures refused { D.tells → IfErr result (Refuses (D.state disk.old).files store.old (commands.Attach vm.now port name.now)) }
    ensures sound { IfOk result (IsSoundTurn store.old) }
    ensures reads { OnlyReads D.tells (D.state disk.old) (D.state disk.new) }
    ensures faults { IsCounted (has_failed result) (D.state disk.old).faults (D.state disk.new).faults }
{
    check_attach(store, vm, port, name)?;
    store.settle(disk)?;
    Ok(plan_attach(alloc, store, vm, port, name)?)
}

/// The turn of `storageattach VM PORT none`.
pub(crate) fn detach_medium<D: Disk>(
    alloc: Global,
    store: &mut Store,
    disk: &mut D,
    vm: &[u8],
    port: u8,
) -> Result<Turn, Undone<Refusal>>
    requires sound { IsSoundStore store.old }
    requires fits { D.tells → FitsDisk store.old (D.state disk.old) }
    ensures store { store.new ≡ store.old }
    ensures plans { D.tells → IfOk result (Plans (D.state disk.old).files store.old (commands.Detach vm.now port)) }
    ensures refused { D.tells → IfErr result (Refuses (D.state disk.old).files store.old (commands.Detach vm.now port)) }
    ensures sound { IfOk result (IsSoundTurn store.old) }
    ensures reads { OnlyReads D.tells (D.state disk.old) (D.state disk.new) }
    ensures faults { IsCounted (has_failed result) (D.state disk.old).faults (D.state disk.new).faults }
{
    check_detach(store, vm, port)?;
    store.settle(disk)?;
    Ok(plan_detach(alloc, store, vm, port)?)
}

/// The turn of `startvm`.
pub(crate) fn start_vm<D: Disk>(
    alloc: Global,
    store: &mut Store,
    disk: &mut D,
    vm: &[u8],
) -> Result<Turn, Undone<Refusal>>
    requires sound { IsSoundStore store.old }
    requires fits { D.tells → FitsDisk store.old (D.state disk.old) }
    ensures store { store.new ≡ store.old }
    ensures plans { D.tells → IfOk result (Plans (D.state disk.old).files store.old (commands.StartVm vm.now)) }
    ensures refused { D.tells → IfErr result (Refuses (D.state disk.old).files store.old (commands.StartVm vm.now)) }
    ensures sound { IfOk result (IsSoundTurn store.old) }
    ensures reads { OnlyReads D.tells (D.state disk.old) (D.state disk.new) }
    ensures faults { IsCounted (has_failed result) (D.state disk.old).faults (D.state disk.new).faults }
{
    check_start(store, vm)?;
    store.settle(disk)?;
    Ok(plan_start(alloc, store, vm)?)
}

/// The turn of `poweroff`.
pub(crate) fn power_off<D: Disk>(
    alloc: Global,
    store: &mut Store,
    disk: &mut D,
    vm: &[u8],
) -> Result<Turn, Undone<Refusal>>
    requires sound { IsSoundStore store.old }
    requires fits { D.tells → FitsDisk store.old (D.state disk.old) }
    ensures store { store.new ≡ store.old }
    ensures plans { D.tells → IfOk result (Plans (D.state disk.old).files store.old (commands.PowerOff vm.now)) }
    ensures refused { D.tells → IfErr result (Refuses (D.state disk.old).files store.old (commands.PowerOff vm.now)) }
    ensures sound { IfOk result (IsSoundTurn store.old) }
    ensures reads { OnlyReads D.tells (D.state disk.old) (D.state disk.new) }
    ensures faults { IsCounted (has_failed result) (D.state disk.old).faults (D.state disk.new).faults }
{
    check_power_off(store, vm)?;
    store.settle(disk)?;
    Ok(plan_power_off(alloc, store, vm)?)
}
