//! Stores that are open.

ghost use Rattle.std.specs.Prelude.{◌≡◌, OnOk, is_err};
ghost use Rattle.vbm_ports.specs.Counts.{IsCounted};
ghost use Rattle.vbm_ports.specs.Crash.{Only};
ghost use Rattle.vbm_ports.specs.Disk.{Passes, OnlyReads};
ghost use Rattle.vbm_intent.specs.Changes.{changed, Fits};
ghost use Rattle.vbm_intent.specs.Log.{IsShutInAll, SameBesidesLog, IsBeforeOrAfter};
ghost use Rattle.vbm_world.specs.Loose.{Unsettled};
ghost use Rattle.vbm_store.specs.Serves.{media_images, IsSoundStore, IsReady};
ghost use Rattle.vbm_store.specs.Commits.{HandsBack, Commits, OnNoMemory, commit_failed};

use crate::changed::Changed;
use crate::images::{Edit, Images, apply, reserve};
use vbm_image::Image;
use vbm_intent::{Log, Plan};
use vbm_ports::{Disk, Failed};
use vbm_registry::Library;

/// A store that is open.
#[derive(Drop)]
pub struct Store {
    /// The library, with the marks of the machines that run, which its file does not tell.
    pub library: Library,
    /// The media that have changed since a start.
    pub changed: Changed,
    pub images: Images,
    pub log: Log,
}

/// How a commit ended.
#[derive(Drop)]
pub enum Committed {
    /// The store behind it.
    Done(Store),
    /// The store as it was: there was no memory.
    NoMemory(Store),
    /// The disk failed. The store has to be opened again.
    Failed,
}

impl Store {
    /// The images of the media, in the order of their names.
    pub fn media_images(&self) -> &[Image]
        requires { IsSoundStore self.now }
        ensures { result.now ≡ media_images self.now }
    {
        &self.images.as_slice()[..self.library.media.len()]
    }

    /// Settles what guests wrote and have not flushed. No command of today leaves anything unsettled, so there is nothing to do.
    pub fn settle<D: Disk>(&mut self, _disk: &mut D) -> Result<(), Failed>
        ensures same { self.new ≡ self.old }
        ensures ready { D.tells → (u : Unsettled)
            → IsReady self.old (D.state _disk.old) u → IsReady self.new (D.state _disk.new) u }
        ensures reads { OnlyReads D.tells (D.state _disk.old) (D.state _disk.new) }
        ensures faults { IsCounted (is_err result) (D.state _disk.old).faults (D.state _disk.new).faults }
    {
        Ok(())
    }

    /// Commits a plan, and then holds this library, and its images as they are edited. All memory that this takes is taken before the
    /// commit. Where the plan is empty, the disk is settled.
    pub fn turn<D: Disk>(self, disk: &mut D, library: Library, edit: Edit, plan: &Plan) -> Committed
        requires shut { D.tells → IsShutInAll (D.state disk.old).may_leave }
        requires fits { D.tells → Fits plan.now.changes (D.state disk.old).files }
        ensures store { HandsBack self library edit result }
        ensures commits { D.tells → Commits (D.state disk.old) (D.state disk.new) plan.now.changes result }
        ensures reads { OnNoMemory result (OnlyReads D.tells (D.state disk.old) (D.state disk.new)) }
        ensures any_moment { D.tells → Passes (D.state disk.old) (D.state disk.new)
            (IsBeforeOrAfter plan.now.changes (D.state disk.old).files (D.state disk.old).may_leave) }
        ensures faults { IsCounted (commit_failed result) (D.state disk.old).faults (D.state disk.new).faults }
    {
        let Store {
            library: held,
            mut changed,
            images,
            mut log,
        } = self;
        let mut items = images.into_vec();
        if reserve(&mut items, &edit).is_err() {
            return Committed::NoMemory(Store {
                library: held,
                changed,
                images: Images::from_vec(items),
                log,
            });
        }
        match commit_plan(disk, &mut log, plan) {
            Ok(()) => {
                changed.apply(&edit);
                apply(&mut items, edit);
                Committed::Done(Store {
                    library,
                    changed,
                    images: Images::from_vec(items),
                    log,
                })
            }
            Err(Failed) => Committed::Failed,
        }
    }
}

// Commits a plan, or settles the disk where it is empty.
fn commit_plan<D: Disk>(disk: &mut D, log: &mut Log, plan: &Plan) -> Result<(), Failed>
    requires shut { D.tells → IsShutInAll (D.state disk.old).may_leave }
    requires fits { D.tells → Fits plan.now.changes (D.state disk.old).files }
    ensures ok { D.tells
        → OnOk result (SameBesidesLog (D.state disk.new).files (changed plan.now.changes (D.state disk.old).files)) }
    ensures settled { D.tells → OnOk result (Only (D.state disk.new).files (D.state disk.new).may_leave) }
    ensures shut { D.tells → OnOk result (IsShutInAll (D.state disk.new).may_leave) }
    ensures any_moment { D.tells → Passes (D.state disk.old) (D.state disk.new)
        (IsBeforeOrAfter plan.now.changes (D.state disk.old).files (D.state disk.old).may_leave) }
    ensures faults { IsCounted (is_err result) (D.state disk.old).faults (D.state disk.new).faults }
{
    if plan.size() == 0 {
        return disk.sync();
    }
    log.commit(disk, plan)
}
