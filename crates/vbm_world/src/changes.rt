//! Worlds with a machine in the place of another.

ghost use Rattle.std.specs.Prelude.{◌≡◌, ◌+◌, false, IfOk};
ghost use Rattle.vbm_named.specs.Names.{change_by};
ghost use Rattle.vbm_world.specs.World.{machine_name};
ghost use Rattle.vbm_world.specs.Places.{with_machine};
ghost use Rattle.vbm_world.specs.Refusals.{is_short};
ghost use Rattle.vbm_world.specs.Seen.{seen};

use crate::world::{World, WorldMachine, WorldMachines, WorldSlots};
use std::alloc::Global;
use vbm_ids::NUMBER_LIMIT;
use vbm_named::names::is_same;
use vbm_ports::{Copied, NoMemory, Sequence};

// Whether a counter has not so many numbers left.
pub(crate) fn is_short(counter: u64, drawn: u64) -> bool
    ensures { result ≡ is_short counter drawn }
{
    u128::from(counter) + u128::from(drawn) > u128::from(NUMBER_LIMIT)
}

impl WorldMachine {
    // This machine with other slots.
    pub(crate) fn with_slots(
        &self,
        alloc: Global,
        slots: WorldSlots,
    ) -> Result<WorldMachine, NoMemory>
        ensures { IfOk result (λ machine. machine ≡ record self.now { slots = slots }) }
    {
        Ok(WorldMachine {
            name: self.name.copied(alloc)?,
            running: self.running,
            slots,
            snapshots: self.snapshots.copied(alloc)?,
            current: Copied::copied(&self.current, alloc)?,
        })
    }
}

impl World {
    // Whether so many numbers of inner images are not left.
    pub(crate) fn is_short(&self, drawn: u64) -> bool
        ensures { result ≡ is_short self.now.inner drawn }
    {
        is_short(self.inner, drawn)
    }

    // The machines, with one in the place of that of its name.
    pub(crate) fn machines_with(
        &self,
        alloc: Global,
        new: &WorldMachine,
    ) -> Result<WorldMachines, NoMemory>
        ensures { IfOk result (λ machines. machines ≡ change_by machine_name new.now.name (λ _. new.now) self.now.machines) }
    {
        let mut machines = Sequence::new(alloc);
        for machine in self.machines.as_slice() {
            if is_same(machine.name.bytes(), new.name.bytes()) {
                machines.push(new.copied(alloc)?)?;
            } else {
                machines.push(machine.copied(alloc)?)?;
            }
        }
        Ok(machines)
    }

    // This world with a machine in the place of that of its name, for which so many numbers of inner images were drawn.
    pub(crate) fn with_machine(
        &self,
        alloc: Global,
        machine: WorldMachine,
        drawn: u64,
    ) -> Result<World, NoMemory>
        requires { is_short self.now.inner drawn ≡ false }
        ensures { IfOk result (λ world. world ≡ record self.now {
          inner = self.now.inner + drawn;
          machines = change_by machine_name machine.name (λ _. machine) self.now.machines;
        }) }
    {
        Ok(World {
            seed: self.seed,
            next: self.next,
            inner: self.inner + drawn,
            media: self.media.copied(alloc)?,
            machines: self.machines_with(alloc, &machine)?,
            shelf: self.shelf.copied(alloc)?,
        })
    }

    // This world with other slots of a machine, for which so many numbers of inner images were drawn.
    pub(crate) fn with_slots_of(
        &self,
        alloc: Global,
        machine: &WorldMachine,
        slots: WorldSlots,
        drawn: u64,
    ) -> Result<World, NoMemory>
        requires { is_short self.now.inner drawn ≡ false }
        ensures outcome { IfOk result (λ world. seen world ≡ with_machine (seen self.now) (record machine.now { slots = slots }) drawn) }
        ensures shelf { IfOk result (λ world. world.shelf ≡ self.now.shelf) }
    {
        let machine = machine.with_slots(alloc, slots)?;
        self.with_machine(alloc, machine, drawn)
    }
}
