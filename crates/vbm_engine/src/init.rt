//! Making a library.

ghost use Rattle.std.specs.Prelude.{◌≡◌, ◌≤◌, ◌⊎◌, None, IfOk};
ghost use Rattle.vbm_ports.specs.Counts.{IsCounted};
ghost use Rattle.vbm_ports.specs.Crash.{Only};
ghost use Rattle.vbm_ports.specs.Disk.{Passes, OnlyReads};
ghost use Rattle.vbm_ids.specs.Identifier.{IsSeed};
ghost use Rattle.vbm_intent.specs.Log.{IsLikeRedone};
ghost use Rattle.vbm_registry.specs.Library.{library_name};
ghost use Rattle.vbm_engine.specs.Opens.{empty_library, Makes, SyncsFirst, RefusesBadLog, making_failed, StandsNew, IsMaking};
ghost use Rattle.vbm_engine.specs.Recovers.{IsSettled};
ghost use Rattle.vbm_engine.specs.Inits.{IsNewPlan, MakesOver, IsOver};

use crate::engine::Made;
use crate::recover::{BadLog, recover};
use std::alloc::Global;
use uuid::Uuid;
use vbm_intent::{Log, Plan};
use vbm_machines::Machines;
use vbm_ports::{Disk, Failed, LIBRARY_NAME, NoMemory, Sequence};
use vbm_registry::{BadStore, Library, Media};
use vbm_store::{Undone, plan_library};

fn empty_library(alloc: Global, seed: Uuid) -> Library
    ensures { result ≡ empty_library seed }
{
    Library {
        seed,
        next: 0,
        inner: 0,
        media: Media::new(alloc),
        inners: Sequence::new(alloc),
        machines: Machines::new(alloc),
        making: None,
        merging: Sequence::new(alloc),
    }
}

// The seed of these bytes: their type says that they are sixteen, and bytes.
fn seed_of(bytes: &[u8; 16]) -> Uuid
    ensures value { result ≡ bytes.now }
    ensures seed { IsSeed bytes.now }
{
    Uuid::from_bytes(*bytes)
}

// The writing of an empty library.
fn new_plan(alloc: Global, seed: Uuid) -> Result<Plan, NoMemory>
    ensures { IfOk result (λ plan. IsNewPlan seed plan.changes) }
{
    let library = empty_library(alloc, seed_of(&seed.into_bytes()));
    let mut plan = Plan::new(alloc);
    plan_library(alloc, &mut plan, &library)?;
    Ok(plan)
}

// Makes a library where there is none.
fn make_absent<D: Disk>(alloc: Global, disk: &mut D, mut log: Log, seed: Uuid) -> Made
    requires settled { D.tells → IsSettled (D.state disk.old) }
    requires absent { D.tells → (D.state disk.old).files library_name ≡ None }
    ensures made { D.tells → MakesOver seed (D.state disk.old) (D.state disk.new) result }
    ensures any_moment { D.tells → Passes (D.state disk.old) (D.state disk.new) (IsOver seed (D.state disk.old)) }
    ensures refused { RefusesBadLog result }
    ensures faults { IsCounted (making_failed result) (D.state disk.old).faults (D.state disk.new).faults }
{
    let Ok(plan) = new_plan(alloc, seed) else {
        return Made::NoMemory;
    };
    match log.commit(disk, &plan) {
        Ok(()) => Made::Done,
        Err(Failed) => Made::Failed,
    }
}

// Makes a library over a shut log, unless there is one.
fn make_over<D: Disk>(alloc: Global, disk: &mut D, log: Log, seed: Uuid) -> Made
    requires settled { D.tells → IsSettled (D.state disk.old) }
    ensures made { D.tells → MakesOver seed (D.state disk.old) (D.state disk.new) result }
    ensures any_moment { D.tells → Passes (D.state disk.old) (D.state disk.new) (IsOver seed (D.state disk.old)) }
    ensures refused { RefusesBadLog result }
    ensures faults { IsCounted (making_failed result) (D.state disk.old).faults (D.state disk.new).faults }
{
    match disk.length(LIBRARY_NAME) {
        Err(Failed) => Made::Failed,
        Ok(Some(_)) => Made::There,
        Ok(None) => make_absent(alloc, disk, log, seed),
    }
}

// Makes a library over files that are settled.
fn make_settled<D: Disk>(alloc: Global, disk: &mut D, seed: Uuid) -> Made
    requires { D.tells → Only (D.state disk.old).files (D.state disk.old).may_leave }
    ensures made { D.tells → Makes seed (D.state disk.old) (D.state disk.new) result }
    ensures any_moment { D.tells → Passes (D.state disk.old) (D.state disk.new)
        (λ image. IsLikeRedone (D.state disk.old).files image ⊎ StandsNew seed (D.state disk.old).files image) }
    ensures refused { RefusesBadLog result }
    ensures faults { IsCounted (making_failed result) (D.state disk.old).faults (D.state disk.new).faults }
{
    match recover(alloc, disk) {
        Ok(log) => make_over(alloc, disk, log, seed),
        Err(Undone::Refused(BadLog)) => Made::Refused(BadStore::BadLog),
        Err(Undone::Failed) => Made::Failed,
        Err(Undone::NoMemory) => Made::NoMemory,
    }
}

/// Makes an empty library whose identifiers have this seed, unless there is a library. Every other file stays.
///
/// The log of an earlier library, if one is there, is redone first.
pub fn make_library<D: Disk>(alloc: Global, disk: &mut D, seed: Uuid) -> Made
    ensures made { D.tells → Makes seed (D.state disk.old) (D.state disk.new) result }
    ensures any_moment { D.tells → Passes (D.state disk.old) (D.state disk.new)
        (λ image. (D.state disk.old).may_leave image ⊎ IsLikeRedone (D.state disk.old).files image ⊎ StandsNew seed (D.state disk.old).files image) }
    ensures synced { D.tells → SyncsFirst (D.state disk.old) (D.state disk.new) (IsMaking seed (D.state disk.old).files)
        ⊎ ((result ≡ Made.Failed) × OnlyReads D.tells (D.state disk.old) (D.state disk.new)) }
    ensures refused { RefusesBadLog result }
    ensures faults { IsCounted (making_failed result) (D.state disk.old).faults (D.state disk.new).faults }
{
    match disk.sync() {
        Ok(()) => make_settled(alloc, disk, seed),
        Err(Failed) => Made::Failed,
    }
}
