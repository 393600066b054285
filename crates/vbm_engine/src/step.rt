//! Steps of an engine.

ghost use Rattle.std.specs.Prelude.{◌≤◌, Ok, OnOk, OnErr, ◌≡◌, IfOk, IfErr, false};
ghost use Rattle.vbm_ports.specs.Counts.{Rose, IsCounted};
ghost use Rattle.vbm_ports.specs.Crash.{Only};
ghost use Rattle.vbm_ports.specs.Disk.{Passes, OnlyReads};
ghost use Rattle.vbm_world.specs.World.{off};
ghost use Rattle.vbm_world.specs.Loose.{Unsettled};
ghost use Rattle.vbm_served.specs.Served.{IsServed};
ghost use Rattle.vbm_standing.specs.Stands.{Stands};
ghost use Rattle.vbm_store.specs.Kept.{AreKept};
ghost use Rattle.vbm_store.specs.Serves.{IsSoundStore, FitsDisk as StoreFits, StandsLoosely};
ghost use Rattle.vbm_store.specs.Undone.{has_failed};
ghost use Rattle.vbm_store.specs.Steps.{Decides, DecidesSound, Plans, Refuses, IsSoundTurn};
ghost use Rattle.vbm_engine.specs.Serves.{serves, IsSoundEngine, FitsDisk, IsReady};
ghost use Rattle.vbm_engine.specs.Steps.{Hands, HandsSound, IsInCommand, asks, step_failed};

use crate::engine::{Engine, Stepped};
use crate::machines::{
    attach_medium, create_vm, detach_medium, power_off, set_mode, start_vm, unregister_vm,
};
use crate::managing::{close_medium, create_medium, open_medium};
use std::alloc::Global;
use vbm_media::{answer_list, answer_show};
use vbm_ports::{Disk, Failed};
use vbm_slots::answer_list_vms;
use vbm_store::{Committed, Decision, Store, Turn, Undone};
use vbm_world::{Answer, Command, Refusal};

// Decides a command that changes the library or what runs.
fn decide_turn<D: Disk>(
    alloc: Global,
    store: &mut Store,
    disk: &mut D,
    command: &Command,
) -> Result<Turn, Undone<Refusal>>
    requires sound { IsSoundStore store.old }
    requires served { IsServed command.now }
    requires turns { asks command.now ≡ false }
    requires fits { D.tells → StoreFits store.old (D.state disk.old) }
    ensures store { store.new ≡ store.old }
    ensures plans { D.tells → IfOk result (Plans (D.state disk.old).files store.old command.now) }
    ensures refused { D.tells → IfErr result (Refuses (D.state disk.old).files store.old command.now) }
    ensures sound { IfOk result (IsSoundTurn store.old) }
    ensures reads { OnlyReads D.tells (D.state disk.old) (D.state disk.new) }
    ensures faults { IsCounted (has_failed result) (D.state disk.old).faults (D.state disk.new).faults }
{
    match command {
        Command::CreateMedium {
            name,
            size,
            variant,
        } => create_medium(alloc, store, disk, name.bytes(), *size, *variant),
        Command::OpenMedium { name } => open_medium(alloc, store, disk, name.bytes()),
        Command::CloseMedium { name, delete } => {
            close_medium(alloc, store, disk, name.bytes(), *delete)
        }
        Command::SetMode { name, mode } => set_mode(alloc, store, disk, name.bytes(), *mode),
        Command::CreateVm { name } => create_vm(alloc, store, disk, name.bytes()),
        Command::UnregisterVm { vm } => unregister_vm(alloc, store, disk, vm.bytes()),
        Command::Attach { vm, port, name } => {
            attach_medium(alloc, store, disk, vm.bytes(), *port, name.bytes())
        }
        Command::Detach { vm, port } => detach_medium(alloc, store, disk, vm.bytes(), *port),
        Command::StartVm { vm } => start_vm(alloc, store, disk, vm.bytes()),
        Command::PowerOff { vm } => power_off(alloc, store, disk, vm.bytes()),
        _ => unreachable!(),
    }
}

/// Decides a command. Until it is known to be done, the store is only read.
pub(crate) fn decide<D: Disk>(
    alloc: Global,
    store: &mut Store,
    disk: &mut D,
    command: &Command,
) -> Result<Decision, Undone<Refusal>>
    requires sound { IsSoundStore store.old }
    requires served { IsServed command.now }
    requires fits { D.tells → StoreFits store.old (D.state disk.old) }
    ensures store { store.new ≡ store.old }
    ensures decides { D.tells → Decides (D.state disk.old).files store.old command.now result }
    ensures sound { DecidesSound store.old result }
    ensures reads { OnlyReads D.tells (D.state disk.old) (D.state disk.new) }
    ensures faults { IsCounted (has_failed result) (D.state disk.old).faults (D.state disk.new).faults }
{
    match command {
        Command::ShowMediumInfo { name } => Ok(Decision::Answer(answer_show(store, name.bytes())?)),
        Command::ListHdds => Ok(Decision::Answer(answer_list(alloc, store)?)),
        Command::ListVms => Ok(Decision::Answer(answer_list_vms(alloc, store)?)),
        _ => Ok(Decision::Turn(decide_turn(alloc, store, disk, command)?)),
    }
}

impl Engine {
    /// Does a command, and answers it. A refused command changes nothing, and neither does one for which there is no memory. After
    /// `Broken` the store has to be opened again.
    pub fn step<D: Disk>(self, alloc: Global, disk: &mut D, command: &Command) -> Stepped
        requires sound { IsSoundEngine self }
        requires served { IsServed command.now }
        requires fits { D.tells → FitsDisk self (D.state disk.old) }
        ensures step { D.tells → Hands (D.state disk.old) (D.state disk.new) self command.now result }
        ensures sound { HandsSound result }
        ensures any_moment { D.tells → (u : Unsettled) → IsReady self (D.state disk.old) u
            → Passes (D.state disk.old) (D.state disk.new) (IsInCommand (serves self (D.state disk.old).files) command.now u) }
        ensures faults { IsCounted (step_failed result) (D.state disk.old).faults (D.state disk.new).faults }
    {
        let Engine { mut store } = self;
        match decide(alloc, &mut store, disk, command) {
            Ok(Decision::Answer(answer)) => Stepped::Next(Engine { store }, answer),
            Ok(Decision::Turn(turn)) => {
                let Turn {
                    library,
                    edit,
                    plan,
                    answer,
                } = turn;
                match store.turn(disk, library, edit, &plan) {
                    Committed::Done(store) => Stepped::Next(Engine { store }, answer),
                    Committed::NoMemory(store) => Stepped::NoMemory(Engine { store }),
                    Committed::Failed => Stepped::Broken,
                }
            }
            Err(Undone::Refused(refusal)) => {
                Stepped::Next(Engine { store }, Answer::Refused(refusal))
            }
            Err(Undone::Failed) => Stepped::Broken,
            Err(Undone::NoMemory) => Stepped::NoMemory(Engine { store }),
        }
    }

    /// Settles everything. It takes no memory.
    pub fn close<D: Disk>(self, disk: &mut D) -> Result<(), Failed>
        requires sound { IsSoundEngine self }
        requires fits { D.tells → FitsDisk self (D.state disk.old) }
        ensures settled { D.tells → OnOk result (Only (D.state disk.new).files (D.state disk.new).may_leave) }
        ensures stands { D.tells
            → OnOk result (Stands (D.state disk.new).files (Ok (off (serves self (D.state disk.old).files)))) }
        ensures any_moment { D.tells → (u : Unsettled) → IsReady self (D.state disk.old) u
            → Passes (D.state disk.old) (D.state disk.new) (StandsLoosely (off (serves self (D.state disk.old).files)) u) }
        ensures kept { D.tells
            → OnOk result (AreKept self.store.library (D.state disk.old).files self.store.library (D.state disk.new).files) }
        ensures faults { (D.state disk.old).faults ≤ (D.state disk.new).faults }
        ensures cause { OnErr result (Rose (D.state disk.old).faults (D.state disk.new).faults) }
        ensures no_fault { OnOk result ((D.state disk.new).faults ≡ (D.state disk.old).faults) }
    {
        disk.sync()
    }
}
