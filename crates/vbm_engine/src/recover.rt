//! What is done with the log before a store is read.

ghost use Rattle.std.specs.Prelude.{◌≡◌, ◌+◌, ◌^◌, ◌≤◌, vec_len, IfOk, IfSome};
ghost use Rattle.vbm_ports.specs.Counts.{IsCounted};
ghost use Rattle.vbm_ports.specs.Crash.{Only};
ghost use Rattle.vbm_ports.specs.Disk.{Passes};
ghost use Rattle.vbm_intent.specs.Changes.{log_name};
ghost use Rattle.vbm_intent.specs.Log.{IsLikeRedone};
ghost use Rattle.vbm_engine.specs.Recovers.{IsWaiting, Recovers};
ghost use Rattle.vbm_store.specs.Undone.{has_failed};
ghost use Rattle.vbm_intent.specs.declared.limits.TheConstants.{LONGEST_BODY};

use std::alloc::Global;
use vbm_intent::{INDEX_ROOM, LOG_HEAD_LEN, Log, Redone, record_size, redo};
use vbm_ports::{Disk, Failed, NoMemory};
use vbm_store::Undone;

/// The log's gate is open, but no record is behind it that fits the files.
#[derive(Clone, Copy, Debug, PartialEq, Eq)]
pub(crate) struct BadLog;

/// Makes the changes that wait in the log, and shuts it.
pub(crate) fn recover<D: Disk>(alloc: Global, disk: &mut D) -> Result<Log, Undone<BadLog>>
    ensures recovers { D.tells → Recovers (D.state disk.old) (D.state disk.new) result }
    ensures any_moment { D.tells → Only (D.state disk.old).files (D.state disk.old).may_leave
        → Passes (D.state disk.old) (D.state disk.new) (IsLikeRedone (D.state disk.old).files) }
    ensures faults { IsCounted (has_failed result) (D.state disk.old).faults (D.state disk.new).faults }
{
    match record_size(disk) {
        Ok(size) => recover_record(alloc, disk, size),
        Err(Failed) => Err(Undone::Failed),
    }
}

/// The same, where this is the size of the record that waits, if one does.
pub(crate) fn recover_record<D: Disk>(
    alloc: Global,
    disk: &mut D,
    size: Option<u32>,
) -> Result<Log, Undone<BadLog>>
    requires told { D.tells → IsWaiting size ((D.state disk.old).files log_name) }
    requires bound { IfSome size (λ n. n ≤ LONGEST_BODY) }
    ensures recovers { D.tells → Recovers (D.state disk.old) (D.state disk.new) result }
    ensures any_moment { D.tells → Only (D.state disk.old).files (D.state disk.old).may_leave
        → Passes (D.state disk.old) (D.state disk.new) (IsLikeRedone (D.state disk.old).files) }
    ensures faults { IsCounted (has_failed result) (D.state disk.old).faults (D.state disk.new).faults }
{
    let Ok(mut room) = room_for(alloc, size) else {
        return Err(Undone::NoMemory);
    };
    match redo(disk, room.as_mut_slice()) {
        Redone::Done(log) => Ok(log),
        Redone::BadLog => Err(Undone::Refused(BadLog)),
        Redone::Failed => Err(Undone::Failed),
    }
}

// Room for the record that waits, if one does, and for an index of its changes.
fn room_for(alloc: Global, size: Option<u32>) -> Result<Vec<u8>, NoMemory>
    requires { IfSome size (λ n. n ≤ LONGEST_BODY) }
    ensures { IfOk result (λ room. IfSome size (λ n. LOG_HEAD_LEN + n ≤ vec_len room)) }
{
    let len = match size {
        Some(n) => LOG_HEAD_LEN + n as usize + INDEX_ROOM as usize,
        None => 0,
    };
    vec![in alloc; 0; len].map_err(|_| NoMemory)
}
