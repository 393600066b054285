//! Commands of the machine.

ghost use Rattle.std.specs.Prelude.{◌≡◌, Ok};
ghost use Rattle.vbm_ports.specs.Counts.{IsCounted};
ghost use Rattle.vbm_ports.specs.Disk.{Passes};
ghost use Rattle.vbm_ports.specs.Files.{Files};
ghost use Rattle.vbm_world.specs.Loose.{Unsettled, all_settled};
ghost use Rattle.vbm_served.specs.Served.{IsServed};
ghost use Rattle.vbm_standing.specs.Stands.{Stands};
ghost use Rattle.vbm_engine.specs.Serves.{serves, IsSoundEngine, IsReady};
ghost use Rattle.vbm_engine.specs.Steps.{IsInCommand};
ghost use Rattle.vbm_top.specs.Statuses.{is_disk_fault};
ghost use Rattle.vbm_top.specs.Streams.{stream};
ghost use Rattle.vbm_top.specs.Run.{CommandEnds, IsInRun, IsOfCommand, SyncsOrFails};

use crate::saying::write_store;
use crate::serving::{Turned, answer_command, close_with};
use crate::status::Status;
use std::alloc::Global;
use vbm_engine::{Engine, Opened, open};
use vbm_ports::{Disk, Sink};
use vbm_world::Command;

/// Does a command, writes the line of its answer, and closes the store.
fn serve<D: Disk, K: Sink>(
    alloc: Global,
    engine: Engine,
    disk: &mut D,
    sink: &mut K,
    command: &Command,
) -> Status
    requires sound { IsSoundEngine engine }
    requires served { IsServed command.now }
    requires ready { D.tells → (u : Unsettled) → IsReady engine (D.state disk.old) u }
    ensures ends { (files : Files) → (D.tells → Stands files (Ok (serves engine (D.state disk.old).files)))
        → CommandEnds D.tells command.now files (D.state disk.new)
        (stream K.tells K.written K.faults sink.old sink.new) result }
    ensures any_moment { D.tells
        → Passes (D.state disk.old) (D.state disk.new) (IsInCommand (serves engine (D.state disk.old).files) command.now all_settled) }
    ensures faults { IsCounted (is_disk_fault result) (D.state disk.old).faults (D.state disk.new).faults }
{
    match answer_command(alloc, engine, disk, sink, command) {
        Turned::Open(next, status) => close_with(next, disk, status),
        Turned::Broken => Status::DiskFault,
    }
}

/// Does a command of the machine over the store that the disk holds.
pub(crate) fn do_command<D: Disk, K: Sink>(
    alloc: Global,
    disk: &mut D,
    sink: &mut K,
    command: &Command,
) -> Status
    requires { IsServed command.now }
    ensures ends { CommandEnds D.tells command.now (D.state disk.old).files (D.state disk.new)
        (stream K.tells K.written K.faults sink.old sink.new) result }
    ensures any_moment { D.tells → Passes (D.state disk.old) (D.state disk.new) (IsInRun command.now (D.state disk.old)) }
    ensures synced { D.tells
        → SyncsOrFails D.tells (D.state disk.old) (D.state disk.new) result (IsOfCommand command.now (D.state disk.old).files) }
    ensures faults { IsCounted (is_disk_fault result) (D.state disk.old).faults (D.state disk.new).faults }
{
    match open(alloc, disk) {
        Opened::Open(engine) => serve(alloc, engine, disk, sink, command),
        Opened::Refused(bad) => write_store(alloc, sink, &bad),
        Opened::Fault => Status::DiskFault,
        Opened::NoMemory => Status::NoMemory,
    }
}
