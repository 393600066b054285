//! Commands that change the library: a check, which reads alone, then settling, then the plan.

ghost use Rattle.std.specs.Prelude.{◌≡◌, IfOk, IfErr, IsTrue};
ghost use Rattle.vbm_ports.specs.Counts.{IsCounted};
ghost use Rattle.vbm_ports.specs.Disk.{OnlyReads};
ghost use Rattle.vbm_ports.specs.Names.{is_medium_name};
ghost use Rattle.vbm_volume.specs.declared.flat.Variant.TheVariants as variants;
ghost use Rattle.vbm_world.specs.declared.command.Command.TheVariants as commands;
ghost use Rattle.vbm_store.specs.Undone.{has_failed};
ghost use Rattle.vbm_store.specs.Serves.{IsSoundStore, FitsDisk};
ghost use Rattle.vbm_store.specs.Steps.{Refuses, Plans, IsSoundTurn};

use std::alloc::Global;
use vbm_media::{check_close, check_create, check_open, plan_close, plan_create, plan_open};
use vbm_ports::Disk;
use vbm_store::{Store, Turn, Undone};
use vbm_volume::Variant;
use vbm_world::{Refusal, Size};

/// The turn of `createmedium`.
pub(crate) fn create_medium<D: Disk>(
    alloc: Global,
    store: &mut Store,
    disk: &mut D,
    name: &[u8],
    size: Size,
    variant: Variant,
) -> Result<Turn, Undone<Refusal>>
    requires sound { IsSoundStore store.old }
    requires name { IsTrue (is_medium_name name.now) }
    requires variant { variant ≡ variants.Standard }
    requires fits { D.tells → FitsDisk store.old (D.state disk.old) }
    ensures store { store.new ≡ store.old }
    ensures plans { D.tells → IfOk result (Plans (D.state disk.old).files store.old (commands.CreateMedium name.now size variant)) }
    ensures refused { D.tells → IfErr result (Refuses (D.state disk.old).files store.old (commands.CreateMedium name.now size variant)) }
    ensures sound { IfOk result (IsSoundTurn store.old) }
    ensures reads { OnlyReads D.tells (D.state disk.old) (D.state disk.new) }
    ensures faults { IsCounted (has_failed result) (D.state disk.old).faults (D.state disk.new).faults }
{
    check_create(store, disk, name, size)?;
    store.settle(disk)?;
    Ok(plan_create(alloc, store, name, size, variant)?)
}

/// The turn of `openmedium`.
pub(crate) fn open_medium<D: Disk>(
    alloc: Global,
    store: &mut Store,
    disk: &mut D,
    name: &[u8],
) -> Result<Turn, Undone<Refusal>>
    requires sound { IsSoundStore store.old }
    requires name { IsTrue (is_medium_name name.now) }
    requires fits { D.tells → FitsDisk store.old (D.state disk.old) }
    ensures store { store.new ≡ store.old }
    ensures plans { D.tells → IfOk result (Plans (D.state disk.old).files store.old (commands.OpenMedium name.now)) }
    ensures refused { D.tells → IfErr result (Refuses (D.state disk.old).files store.old (commands.OpenMedium name.now)) }
    ensures sound { IfOk result (IsSoundTurn store.old) }
    ensures reads { OnlyReads D.tells (D.state disk.old) (D.state disk.new) }
    ensures faults { IsCounted (has_failed result) (D.state disk.old).faults (D.state disk.new).faults }
{
    let image = check_open(alloc, store, disk, name)?;
    store.settle(disk)?;
    Ok(plan_open(alloc, store, image)?)
}

/// The turn of `closemedium`.
pub(crate) fn close_medium<D: Disk>(
    alloc: Global,
    store: &mut Store,
    disk: &mut D,
    name: &[u8],
    delete: bool,
) -> Result<Turn, Undone<Refusal>>
    requires sound { IsSoundStore store.old }
    requires name { IsTrue (is_medium_name name.now) }
    requires fits { D.tells → FitsDisk store.old (D.state disk.old) }
    ensures store { store.new ≡ store.old }
    ensures plans { D.tells → IfOk result (Plans (D.state disk.old).files store.old (commands.CloseMedium name.now delete)) }
    ensures refused { D.tells → IfErr result (Refuses (D.state disk.old).files store.old (commands.CloseMedium name.now delete)) }
    ensures sound { IfOk result (IsSoundTurn store.old) }
    ensures reads { OnlyReads D.tells (D.state disk.old) (D.state disk.new) }
    ensures faults { IsCounted (has_failed result) (D.state disk.old).faults (D.state disk.new).faults }
{
    check_close(store, name)?;
    store.settle(disk)?;
    Ok(plan_close(alloc, store, name, delete)?)
}
