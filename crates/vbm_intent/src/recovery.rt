//! What is done with the log that a crash left.

ghost use Rattle.std.specs.Prelude.{◌≡◌, ◌+◌, ◌^◌, ◌≤◌, ℕ, List, length, drop, IfOk, IfSome, MatchOption, OnOk, OnErr};
ghost use Rattle.vbm_ports.specs.Files.{Files, bytes_of};
ghost use Rattle.vbm_ports.specs.Counts.{Rose, IsCounted};
ghost use Rattle.vbm_ports.specs.Crash.{Only};
ghost use Rattle.vbm_ports.specs.Disk.{OnlyReads};
ghost use Rattle.vbm_intent.specs.Changes.{log_name};
ghost use Rattle.vbm_intent.specs.Record.{IsPlan};
ghost use Rattle.vbm_intent.specs.Log.{IsOpen, IsShutInAll, IsPending, IsBadLog, RedoesTo, recorded_size};
ghost use Rattle.vbm_intent.specs.Redone.{OnDone, OnBadLog, OnFailed, is_failed, RedoesAtAnyMoment};

use crate::Log;
use crate::apply::apply;
use crate::check::pending;
use crate::limits::{LOG_HEAD_LEN, LONGEST_BODY};
use crate::log::{CLOSED, OPEN, set_gate};
use crate::record::{Changes, u32_at};
use vbm_ports::{Disk, Failed, LOG_NAME};

/// How redo ended.
#[derive(Drop)]
pub enum Redone {
    /// The changes of the log are made, and it is shut.
    Done(Log),
    /// A device failed.
    Failed,
    /// The gate is open, but no record is behind it that fits the files. Nothing was changed.
    BadLog,
}

/// The length in bytes of the body of the record that waits behind an open gate, at most [`LONGEST_BODY`], or `None` where the gate
/// is not open.
pub fn record_size<D: Disk>(disk: &mut D) -> Result<Option<u32>, Failed>
    ensures answer { D.tells → IfOk result (λ size. MatchOption size (IsOpen ((D.state disk.old).files log_name) → ⊥)
        (λ n. IsOpen ((D.state disk.old).files log_name) × (n ≡ recorded_size ((D.state disk.old).files log_name)))) }
    ensures bound { IfOk result (λ size. IfSome size (λ n. n ≤ LONGEST_BODY)) }
    ensures reads { OnlyReads D.tells (D.state disk.old) (D.state disk.new) }
    ensures cause { OnErr result (Rose (D.state disk.old).faults (D.state disk.new).faults) }
    ensures no_fault { OnOk result ((D.state disk.new).faults ≡ (D.state disk.old).faults) }
{
    let len = disk.length(LOG_NAME)?.unwrap_or(0);
    if len < LOG_HEAD_LEN as u64 {
        return Ok(None);
    }
    let mut head = [0u8; LOG_HEAD_LEN];
    disk.read(LOG_NAME, 0, &mut head)?;
    if head[0] != OPEN {
        return Ok(None);
    }
    Ok(Some(u32_at(&head, 8).min(LONGEST_BODY)))
}

/// Makes the changes of the record that waits behind an open gate, and shuts the log. It takes no memory.
///
/// `buf` must hold [`LOG_HEAD_LEN`] bytes more than `record_size` tells. With another `INDEX_ROOM` bytes a record is judged in the time
/// that it takes to sort its changes; with less, in the square of their count. A bad record is found before the first change is made, and
/// bytes behind its body are not read. Where the gate is not open, this does what `Log::start` does.
pub fn redo<D: Disk>(disk: &mut D, buf: &mut [u8]) -> Redone
    requires room { D.tells → IsOpen ((D.state disk.old).files log_name)
        → LOG_HEAD_LEN + recorded_size ((D.state disk.old).files log_name) ≤ length buf.old }
    ensures done { D.tells → OnDone result (RedoesTo (D.state disk.new).files (D.state disk.old).files) }
    ensures settled { D.tells → OnDone result (Only (D.state disk.new).files (D.state disk.new).may_leave) }
    ensures shut { D.tells → OnDone result (IsShutInAll (D.state disk.new).may_leave) }
    ensures bad_log { D.tells → OnBadLog result (IsBadLog (D.state disk.old).files) }
    ensures untouched { D.tells → OnBadLog result ((D.state disk.new).files ≡ (D.state disk.old).files) }
    ensures images { OnBadLog result ((image : Files) → (D.state disk.new).may_leave image → (D.state disk.old).may_leave image) }
    ensures any_moment { D.tells → RedoesAtAnyMoment (D.state disk.old) (D.state disk.new) }
    ensures faults { (D.state disk.old).faults ≤ (D.state disk.new).faults }
    ensures cause { OnFailed result (Rose (D.state disk.old).faults (D.state disk.new).faults) }
    ensures counts { IsCounted (is_failed result) (D.state disk.old).faults (D.state disk.new).faults }
{
    match record_size(disk) {
        Err(Failed) => Redone::Failed,
        Ok(None) => match Log::start(disk) {
            Ok(log) => Redone::Done(log),
            Err(Failed) => Redone::Failed,
        },
        Ok(Some(size)) => redo_open(disk, size, buf),
    }
}

/// Makes the changes behind an open gate. The record is read to the front of `buf`, and the rest is room for an index.
fn redo_open<D: Disk>(disk: &mut D, size: u32, buf: &mut [u8]) -> Redone
    requires opens { D.tells → IsOpen ((D.state disk.old).files log_name) }
    requires size { D.tells → size ≡ recorded_size ((D.state disk.old).files log_name) }
    requires room { D.tells → LOG_HEAD_LEN + size ≤ length buf.old }
    ensures done { D.tells → OnDone result (RedoesTo (D.state disk.new).files (D.state disk.old).files) }
    ensures settled { D.tells → OnDone result (Only (D.state disk.new).files (D.state disk.new).may_leave) }
    ensures shut { D.tells → OnDone result (IsShutInAll (D.state disk.new).may_leave) }
    ensures bad_log { D.tells → OnBadLog result (IsBadLog (D.state disk.old).files) }
    ensures untouched { D.tells → OnBadLog result ((D.state disk.new).files ≡ (D.state disk.old).files) }
    ensures images { OnBadLog result ((image : Files) → (D.state disk.new).may_leave image → (D.state disk.old).may_leave image) }
    ensures any_moment { D.tells → RedoesAtAnyMoment (D.state disk.old) (D.state disk.new) }
    ensures faults { (D.state disk.old).faults ≤ (D.state disk.new).faults }
    ensures cause { OnFailed result (Rose (D.state disk.old).faults (D.state disk.new).faults) }
    ensures counts { IsCounted (is_failed result) (D.state disk.old).faults (D.state disk.new).faults }
{
    let end = buf.len().min(LOG_HEAD_LEN + size as usize);
    let (log, room) = buf.split_at_mut(end);
    let Ok(got) = disk.read(LOG_NAME, 0, log) else {
        return Redone::Failed;
    };
    if got < LOG_HEAD_LEN {
        return Redone::BadLog;
    }
    match pending(disk, &log[8..got], room) {
        Err(Failed) => Redone::Failed,
        Ok(None) => Redone::BadLog,
        Ok(Some(changes)) => match finish(disk, changes) {
            Ok(log) => Redone::Done(log),
            Err(Failed) => Redone::Failed,
        },
    }
}

/// Makes the changes that are pending, and closes the gate.
fn finish<D: Disk>(disk: &mut D, changes: Changes) -> Result<Log, Failed>
    requires plan { IsPlan changes }
    requires pending { D.tells → IsPending (D.state disk.old).files changes }
    ensures done { D.tells → OnOk result (RedoesTo (D.state disk.new).files (D.state disk.old).files) }
    ensures settled { D.tells → OnOk result (Only (D.state disk.new).files (D.state disk.new).may_leave) }
    ensures shut { D.tells → OnOk result (IsShutInAll (D.state disk.new).may_leave) }
    ensures any_moment { D.tells → RedoesAtAnyMoment (D.state disk.old) (D.state disk.new) }
    ensures faults { (D.state disk.old).faults ≤ (D.state disk.new).faults }
    ensures cause { OnErr result (Rose (D.state disk.old).faults (D.state disk.new).faults) }
    ensures no_fault { OnOk result ((D.state disk.new).faults ≡ (D.state disk.old).faults) }
{
    disk.sync()?;
    apply(disk, changes)?;
    set_gate(disk, CLOSED)?;
    Ok(Log { _made: () })
}
