//! The settling of all staged entries.

ghost use Rattle.std.specs.Prelude.{◌≡◌, ◌+◌, ◌≤◌, ◌<◌, All, OnOk, OnErr, is_err};
ghost use Rattle.vbm_ports.specs.Counts.{IsCounted};
ghost use Rattle.vbm_ports.specs.Crash.{Only};
ghost use Rattle.vbm_ports.specs.Disk.{Passes};
ghost use Rattle.vbm_intent.specs.Changes.{changed, Fits};
ghost use Rattle.vbm_intent.specs.Log.{IsShutInAll, SameBesidesLog, IsBeforeOrAfter};
ghost use Rattle.vbm_image.specs.Image.{IsInForm, FitsIn};
ghost use Rattle.vbm_guest.specs.declared.flushing.TheConstants.{MOST_STAGED};
ghost use Rattle.vbm_guest.specs.Edited.{AreNamedApart};
ghost use Rattle.vbm_guest.specs.Flushing.{settling_all, staged_in, AreTakenAsSettled, MayBeTaken, ServesSame, Settled, MaySettle};
ghost use Rattle.vbm_guest.specs.Memory.{HasRoomFor};

use crate::planning::{count_staged, plan_all};
use vbm_image::{Images, take_as_settled};
use vbm_intent::{Log, Plan};
use vbm_ports::{Disk, Failed};

/// So many staged entries settle themselves.
pub const MOST_STAGED: u32 = 4096;

/// Settles all staged entries by one commit, or only syncs the disk where none is staged. It takes no memory: the plan, which is
/// empty before and after, has the room. It fails where the disk does; then the entries stay staged.
pub fn guest_flush<D: Disk>(
    disk: &mut D,
    log: &mut Log,
    images: &mut Images,
    plan: &mut Plan,
) -> Result<(), Failed>
    requires form { All IsInForm images.old.items }
    requires names { AreNamedApart images.old.items }
    requires room { HasRoomFor (staged_in images.old.items) plan.old }
    requires few { staged_in images.old.items ≤ 8192 }
    requires shut { D.tells → IsShutInAll (D.state disk.old).may_leave }
    requires fits { D.tells → All (FitsIn (D.state disk.old).files) images.old.items }
    ensures images { OnOk result (AreTakenAsSettled images.old.items images.new.items) }
    ensures none { OnOk result (staged_in images.new.items ≡ 0) }
    ensures stay { OnErr result (images.new ≡ images.old) }
    ensures spare { images.new.spare ≡ images.old.spare }
    ensures form { All IsInForm images.new.items }
    ensures room { HasRoomFor (staged_in images.old.items) plan.new }
    ensures settled { D.tells → OnOk result (Settled images.old.items images.new.items (D.state disk.old).files (D.state disk.new)) }
    ensures serves { D.tells
        → OnOk result (ServesSame (D.state disk.old).files images.old.items (D.state disk.new).files images.new.items) }
    ensures fits { D.tells → OnOk result (All (FitsIn (D.state disk.new).files) images.new.items) }
    ensures any_moment { D.tells → Passes (D.state disk.old) (D.state disk.new)
        (IsBeforeOrAfter (settling_all images.old.items) (D.state disk.old).files (D.state disk.old).may_leave) }
    ensures faults { IsCounted (is_err result) (D.state disk.old).faults (D.state disk.new).faults }
{
    plan_all(plan, images);
    let settled = commit_or_sync(disk, log, plan);
    plan.clear();
    settled?;
    take_all_as_settled(images);
    Ok(())
}

// Commits a plan. For one with no changes the disk is only synced.
fn commit_or_sync<D: Disk>(disk: &mut D, log: &mut Log, plan: &Plan) -> Result<(), Failed>
    requires shut { D.tells → IsShutInAll (D.state disk.old).may_leave }
    requires fits { D.tells → Fits plan.now.changes (D.state disk.old).files }
    ensures files { D.tells
        → OnOk result (SameBesidesLog (D.state disk.new).files (changed plan.now.changes (D.state disk.old).files)) }
    ensures settled { D.tells → OnOk result (Only (D.state disk.new).files (D.state disk.new).may_leave) }
    ensures shut { D.tells → OnOk result (IsShutInAll (D.state disk.new).may_leave) }
    ensures any_moment { D.tells → Passes (D.state disk.old) (D.state disk.new)
        (IsBeforeOrAfter plan.now.changes (D.state disk.old).files (D.state disk.old).may_leave) }
    ensures faults { IsCounted (is_err result) (D.state disk.old).faults (D.state disk.new).faults }
{
    if plan.size() == 0 {
        return disk.sync();
    }
    log.commit(disk, plan)
}

// Takes the staged entries of all images as settled.
fn take_all_as_settled(images: &mut Images)
    requires { All IsInForm images.old.items }
    ensures images { AreTakenAsSettled images.old.items images.new.items }
    ensures form { All IsInForm images.new.items }
    ensures spare { images.new.spare ≡ images.old.spare }
{
    for i in 0..images.len() {
        take_as_settled(images.get_mut(i));
    }
}

/// Settles all staged entries where `MOST_STAGED` of them are staged, and else does nothing. It takes no memory. It fails where
/// the disk does; then the entries stay staged.
pub fn settle_if_full<D: Disk>(
    disk: &mut D,
    log: &mut Log,
    images: &mut Images,
    plan: &mut Plan,
) -> Result<(), Failed>
    requires form { All IsInForm images.old.items }
    requires names { AreNamedApart images.old.items }
    requires room { HasRoomFor (staged_in images.old.items) plan.old }
    requires few { staged_in images.old.items ≤ 8192 }
    requires shut { D.tells → IsShutInAll (D.state disk.old).may_leave }
    requires fits { D.tells → All (FitsIn (D.state disk.old).files) images.old.items }
    ensures images { MayBeTaken images.old.items images.new.items }
    ensures stay { OnErr result (images.new ≡ images.old) }
    ensures few { OnOk result (staged_in images.new.items < MOST_STAGED) }
    ensures spare { images.new.spare ≡ images.old.spare }
    ensures form { All IsInForm images.new.items }
    ensures room { HasRoomFor (staged_in images.new.items) plan.new }
    ensures settled { D.tells
        → OnOk result (MaySettle images.old.items images.new.items (D.state disk.old) (D.state disk.new)) }
    ensures serves { D.tells
        → OnOk result (ServesSame (D.state disk.old).files images.old.items (D.state disk.new).files images.new.items) }
    ensures fits { D.tells → OnOk result (All (FitsIn (D.state disk.new).files) images.new.items) }
    ensures shut { D.tells → OnOk result (IsShutInAll (D.state disk.new).may_leave) }
    ensures any_moment { D.tells → Passes (D.state disk.old) (D.state disk.new)
        (IsBeforeOrAfter (settling_all images.old.items) (D.state disk.old).files (D.state disk.old).may_leave) }
    ensures faults { IsCounted (is_err result) (D.state disk.old).faults (D.state disk.new).faults }
{
    if count_staged(images) < MOST_STAGED {
        return Ok(());
    }
    guest_flush(disk, log, images, plan)
}
