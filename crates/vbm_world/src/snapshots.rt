//! Snapshots of machines: they are restored and listed.

ghost use Rattle.std.specs.Prelude.{◌≡◌, map, IfOk, Some, None};
ghost use Rattle.vbm_world.specs.Seen.{seen, outcome_of};
ghost use Rattle.vbm_world.specs.declared.command.Answer.TheVariants.{Done};
ghost use Rattle.vbm_world.specs.Refusals.{first_refusal};
ghost use Rattle.vbm_world.specs.Outcomes.{unless_refused};
ghost use Rattle.vbm_world.specs.Snapshots.{restored, restore_checks, restore_snapshot, restore_current};
ghost use Rattle.vbm_world.specs.Snapshots.{snapshot_line, list_snapshots};

use crate::command::{Answer, Refusal, SnapLine, SnapLines};
use crate::lookups::drawn_for;
use crate::media::Stepped;
use crate::world::{World, WorldMachine, WorldSnapshot};
use std::alloc::Global;
use vbm_ports::{Copied, NoMemory, Sequence};

// A snapshot as a list shows it.
fn snapshot_line(alloc: Global, snapshot: &WorldSnapshot) -> Result<SnapLine, NoMemory>
    ensures { IfOk result (λ line. line ≡ snapshot_line snapshot.now) }
{
    Ok(SnapLine {
        name: snapshot.name.copied(alloc)?,
        parent: Copied::copied(&snapshot.parent, alloc)?,
    })
}

impl WorldMachine {
    fn snapshot_lines(&self, alloc: Global) -> Result<SnapLines, NoMemory>
        ensures { IfOk result (λ lines. lines ≡ map snapshot_line self.now.snapshots) }
    {
        let mut lines = Sequence::new(alloc);
        for snapshot in self.snapshots.as_slice() {
            lines.push(snapshot_line(alloc, snapshot)?)?;
        }
        Ok(lines)
    }

    // This machine with the slots of a snapshot, which is current.
    fn restored(&self, alloc: Global, snapshot: &WorldSnapshot) -> Result<WorldMachine, NoMemory>
        ensures { IfOk result (λ machine. machine ≡
            record self.now { slots = snapshot.now.slots; current = Some snapshot.now.name }) }
    {
        Ok(WorldMachine {
            name: self.name.copied(alloc)?,
            running: self.running,
            slots: snapshot.slots.copied(alloc)?,
            snapshots: self.snapshots.copied(alloc)?,
            current: Some(snapshot.name.copied(alloc)?),
        })
    }
}

impl World {
    fn restore_refusal(&self, machine: &WorldMachine, snapshot: &WorldSnapshot) -> Option<Refusal>
        ensures { result ≡ first_refusal (restore_checks (seen self.now) machine.now snapshot.now) }
    {
        if machine.running {
            return Some(Refusal::Running);
        }
        if self.is_short(drawn_for(snapshot.slots.as_slice())) {
            return Some(Refusal::IdsSpent);
        }
        None
    }

    // Restores a snapshot of a machine, where no check refuses it.
    fn restore_to(&self, alloc: Global, machine: &WorldMachine, snapshot: &WorldSnapshot) -> Stepped
        requires allowed { first_refusal (restore_checks (seen self.now) machine.now snapshot.now) ≡ None }
        ensures outcome { IfOk result (λ r. outcome_of r ≡ (Done, restored (seen self.now) machine.now snapshot.now)) }
        ensures shelf { IfOk result (λ r. r.0.shelf ≡ self.now.shelf) }
    {
        let drawn = drawn_for(snapshot.slots.as_slice());
        let after = machine.restored(alloc, snapshot)?;
        Ok((self.with_machine(alloc, after, drawn)?, Answer::Done))
    }

    // Restores a snapshot that was found.
    fn restore_found(
        &self,
        alloc: Global,
        machine: &WorldMachine,
        snapshot: &WorldSnapshot,
    ) -> Stepped
        ensures outcome { IfOk result (λ r. outcome_of r ≡ unless_refused (seen self.now)
            (restore_checks (seen self.now) machine.now snapshot.now)
            (Done, restored (seen self.now) machine.now snapshot.now)) }
        ensures shelf { IfOk result (λ r. r.0.shelf ≡ self.now.shelf) }
    {
        match self.restore_refusal(machine, snapshot) {
            Some(refusal) => self.refused(alloc, refusal),
            None => self.restore_to(alloc, machine, snapshot),
        }
    }

    pub(crate) fn restore_snapshot(&self, alloc: Global, vm: &[u8], name: &[u8]) -> Stepped
        ensures outcome { IfOk result (λ r. outcome_of r ≡ restore_snapshot (seen self.now) vm.now name.now) }
        ensures shelf { IfOk result (λ r. r.0.shelf ≡ self.now.shelf) }
    {
        let Some(machine) = self.machine(vm) else {
            return self.refused(alloc, Refusal::NoSuchMachine);
        };
        match machine.snapshot(name) {
            Some(snapshot) => self.restore_found(alloc, machine, snapshot),
            None => self.refused(alloc, Refusal::NoSuchSnapshot),
        }
    }

    pub(crate) fn restore_current(&self, alloc: Global, vm: &[u8]) -> Stepped
        ensures outcome { IfOk result (λ r. outcome_of r ≡ restore_current (seen self.now) vm.now) }
        ensures shelf { IfOk result (λ r. r.0.shelf ≡ self.now.shelf) }
    {
        let Some(machine) = self.machine(vm) else {
            return self.refused(alloc, Refusal::NoSuchMachine);
        };
        match machine.current_snapshot() {
            Some(snapshot) => self.restore_found(alloc, machine, snapshot),
            None if machine.running => self.refused(alloc, Refusal::Running),
            None => self.refused(alloc, Refusal::NoCurrent),
        }
    }

    pub(crate) fn list_snapshots(&self, alloc: Global, vm: &[u8]) -> Stepped
        ensures outcome { IfOk result (λ r. outcome_of r ≡ list_snapshots (seen self.now) vm.now) }
        ensures shelf { IfOk result (λ r. r.0.shelf ≡ self.now.shelf) }
    {
        let Some(machine) = self.machine(vm) else {
            return self.refused(alloc, Refusal::NoSuchMachine);
        };
        let lines = machine.snapshot_lines(alloc)?;
        let current = Copied::copied(&machine.current, alloc)?;
        Ok((self.copied(alloc)?, Answer::SnapList { current, lines }))
    }
}
