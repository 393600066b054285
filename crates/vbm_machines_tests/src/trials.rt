//! A machine that is edited, and the numbers of its new images.

ghost use Rattle.std.specs.Prelude.{◌≡◌, ◌↔◌, ◌<◌, ◌≤◌, length, [], None, IsTrue, IsFalse, IfSome, IfOk};
ghost use Rattle.std.specs.List.{AllByRecursion};
ghost use Rattle.vbm_named.specs.Names.{find_by, has_name};
ghost use Rattle.vbm_world.specs.declared.limits.TheConstants.{PORT_LIMIT};
ghost use Rattle.vbm_machines.specs.declared.Slot.{Slot};
ghost use Rattle.vbm_machines.specs.declared.Snapshot.{Snapshot};
ghost use Rattle.vbm_machines.specs.Snapshots.{name_of_snapshot, HasPlaces};

use std::alloc::Global;
use std::process::Abort;
use std::test::Fail;
use vbm_machines::{
    Held, Machine, Slot, Slots, Snapshot, Snapshots, attach, dependents, numbers_to_restore,
    numbers_to_take, remove, restore_to, take,
};
use vbm_modes::Mode;
use vbm_ports::Text;
use vbm_world::{PORT_LIMIT, SNAPSHOT_LIMIT};

/// The modes of the media.
pub(crate) const MODES: [Mode; 3] = [Mode::Normal, Mode::Writethrough, Mode::Immutable];

/// Whether all slots have media of a list of this length.
pub(crate) fn are_listed(slots: &[Slot], media: usize) -> bool
    ensures { IsTrue result ↔ AllByRecursion (λ (s : Slot). s.medium < media) slots.now }
{
    slots.iter().all(|slot| (slot.medium as usize) < media)
}

fn is_below(parent: Option<u32>, limit: u32) -> bool
    ensures { IsTrue result ↔ IfSome parent (λ place. place < limit) }
{
    match parent {
        Some(place) => place < limit,
        None => true,
    }
}

/// Whether all parents have places below a limit.
pub(crate) fn are_below(snapshots: &[Snapshot], limit: u32) -> bool
    ensures { IsTrue result ↔ AllByRecursion (λ (s : Snapshot). IfSome s.parent (λ place. place < limit)) snapshots.now }
{
    snapshots
        .iter()
        .all(|snapshot| is_below(snapshot.parent, limit))
}

/// Whether all snapshots have few places.
pub(crate) fn are_small(snapshots: &[Snapshot]) -> bool
    ensures { IsTrue result ↔ AllByRecursion (λ (s : Snapshot). length s.slots ≤ PORT_LIMIT) snapshots.now }
{
    snapshots
        .iter()
        .all(|snapshot| snapshot.slots.len() <= PORT_LIMIT as usize)
}

/// Whether no snapshot has a name.
pub(crate) fn is_new(snapshots: &Snapshots, name: &[u8]) -> bool
    ensures none { IsTrue result → find_by name_of_snapshot name.now snapshots.now ≡ None }
    ensures another { IsTrue result → IsFalse (has_name name_of_snapshot name.now snapshots.now) }
{
    snapshots.find(name).is_none()
}

/// So many numbers, from a first one on.
pub(crate) fn numbers(alloc: Global, first: u64, count: usize) -> Result<Vec<u64>, Fail>
    ensures { IfOk result (λ fresh. length fresh.items ≡ count) }
{
    let mut fresh = Vec::new(alloc);
    for i in 0..count {
        fresh.push(first.wrapping_add(i as u64))?;
    }
    Ok(fresh)
}

/// A machine with a normal medium, a write-through one and an immutable one, whose image has number 0.
pub(crate) fn machine(alloc: Global) -> Result<Machine, Fail>
    ensures empty { IfOk result (λ machine. machine.snapshots ≡ []) }
    ensures current { IfOk result (λ machine. machine.current ≡ None) }
{
    let mut machine = Machine {
        name: Text::new(alloc, b"v")?,
        running: false,
        slots: Slots::new(alloc),
        snapshots: Snapshots::new(alloc),
        current: None,
    };
    attach(alloc, &mut machine, 2, 2, Mode::Immutable, 0)?;
    attach(alloc, &mut machine, 0, 0, Mode::Normal, 1)?;
    attach(alloc, &mut machine, 1, 1, Mode::Writethrough, 1)?;
    Ok(machine)
}

/// A machine, and the number of its next image.
#[derive(Drop)]
pub(crate) struct Trial {
    pub(crate) machine: Machine,
    pub(crate) next: u64,
}

impl Trial {
    #[tactic(auto, using(crate::proofs::TrialPlaces::empty_has_places))]
    pub(crate) fn new(alloc: Global) -> Result<Trial, Fail>
        ensures { IfOk result (λ trial. HasPlaces trial.machine) }
    {
        Ok(Trial {
            machine: machine(alloc)?,
            next: 1,
        })
    }

    // So many new numbers.
    fn draw(&mut self, alloc: Global, count: usize) -> Result<Vec<u64>, Fail>
        ensures fresh { IfOk result (λ fresh. length fresh.items ≡ count) }
        ensures machine { self.new.machine ≡ self.old.machine }
    {
        let fresh = numbers(alloc, self.next, count)?;
        self.next = self.next.wrapping_add(count as u64);
        Ok(fresh)
    }

    pub(crate) fn take(&mut self, rt: &impl Abort, alloc: Global, name: &[u8]) -> Result<(), Fail>
        requires { HasPlaces self.old.machine }
        ensures { HasPlaces self.new.machine }
    {
        assert!(rt; self.machine.snapshots.len() < SNAPSHOT_LIMIT);
        assert!(rt; is_new(&self.machine.snapshots, name));
        assert!(rt; are_listed(self.machine.slots.as_slice(), MODES.len()));
        let count = numbers_to_take(&self.machine, &MODES);
        let fresh = self.draw(alloc, count)?;
        let name = Text::new(alloc, name)?;
        take(alloc, &mut self.machine, name, &MODES, &fresh)?;
        Ok(())
    }

    pub(crate) fn restore(&mut self, alloc: Global, at: u32) -> Result<(), Fail>
        requires places { HasPlaces self.old.machine }
        requires there { at < length self.old.machine.snapshots }
        ensures { HasPlaces self.new.machine }
    {
        let count = numbers_to_restore(&self.machine, at);
        let fresh = self.draw(alloc, count)?;
        restore_to(alloc, &mut self.machine, at, &fresh)?;
        Ok(())
    }

    pub(crate) fn remove(&mut self, rt: &impl Abort, alloc: Global, at: u32) -> Result<(), Fail>
        requires places { HasPlaces self.old.machine }
        requires there { at < length self.old.machine.snapshots }
        ensures { HasPlaces self.new.machine }
    {
        assert!(rt; dependents(&self.machine, at) <= 1);
        remove(alloc, &mut self.machine, at)?;
        Ok(())
    }

    /// The place of the snapshot of a name.
    pub(crate) fn place(&self, rt: &impl Abort, name: &[u8]) -> u32
        requires { HasPlaces self.now.machine }
        ensures { result < length self.now.machine.snapshots }
    {
        let snapshots = &self.machine.snapshots;
        for i in 0..snapshots.len() {
            if snapshots.get(i).name.bytes() == name {
                return i as u32;
            }
        }
        panic!(rt; "no such snapshot")
    }

    /// The name of the snapshot at a place, `-` for none.
    pub(crate) fn name(&self, place: Option<u32>) -> &[u8] {
        let Some(place) = place else {
            return b"-";
        };
        match self.machine.snapshots.as_slice().get(place as usize) {
            Some(snapshot) => snapshot.name.bytes(),
            None => b"-",
        }
    }

    /// The name of the parent of a snapshot, `-` for none.
    pub(crate) fn parent(&self, at: u32) -> &[u8]
        requires { at < length self.now.machine.snapshots }
    {
        self.name(self.machine.snapshots.get(at as usize).parent)
    }
}

/// The images of three slots.
pub(crate) fn held(rt: &impl Abort, slots: &Slots) -> [Held; 3] {
    match slots.as_slice() {
        [a, b, c] => [a.held, b.held, c.held],
        _ => panic!(rt; "not three slots"),
    }
}

/// The media of three slots.
pub(crate) fn media(rt: &impl Abort, slots: &Slots) -> [u32; 3] {
    match slots.as_slice() {
        [a, b, c] => [a.medium, b.medium, c.medium],
        _ => panic!(rt; "not three slots"),
    }
}
