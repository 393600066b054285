//! What has a medium.

ghost use Rattle.std.specs.Prelude.{◌≡◌, ◌≤◌, length};
ghost use Rattle.std.specs.List.{AllByRecursion};
ghost use Rattle.vbm_world.specs.declared.limits.TheConstants.{SNAPSHOT_LIMIT, PORT_LIMIT};
ghost use Rattle.vbm_machines.specs.declared.Snapshot.{Snapshot};
ghost use Rattle.vbm_machines.specs.Holders.{holding, holders};

use crate::{Machine, Slot};

// How many slots have a medium.
fn holding(slots: &[Slot], medium: u32) -> usize
    ensures { result ≡ holding medium slots.now }
{
    slots.iter().filter(|slot| slot.medium == medium).count()
}

/// How many slots and places of snapshots have the medium at a place.
pub fn holders_of(machine: &Machine, medium: u32) -> u32
    requires snapshots { length machine.now.snapshots ≤ SNAPSHOT_LIMIT }
    requires slots { length machine.now.slots ≤ PORT_LIMIT }
    requires places { AllByRecursion (λ (s : Snapshot). length s.slots ≤ PORT_LIMIT) machine.now.snapshots }
    ensures { result ≡ holders medium machine.now }
{
    let mut count = holding(machine.slots.as_slice(), medium);
    for snapshot in machine.snapshots.as_slice() {
        count += holding(snapshot.slots.as_slice(), medium);
    }
    count as u32
}
