//! How often the images of a library are held, used and stood on.

ghost use Rattle.std.specs.Prelude.{◌≡◌, ◌++◌, ℕ, List, [], ◌∷◌, OnOk, IfOk};
ghost use Rattle.vbm_machines.specs.declared.Slot.{Slot};
ghost use Rattle.vbm_registry.specs.declared.library.ImageRef.{ImageRef};
ghost use Rattle.vbm_registry.specs.declared.library.ImageRef.TheVariants as refs;
ghost use Rattle.vbm_registry.specs.Tallies.{times, slot_times};
ghost use Rattle.vbm_registry.specs.AtPlaces.{is_same_image, slots_in_snapshots, slots_in_machine, slots_in_machines, one_more_if, or_zero, CountsSlots, CountsChildren};

use crate::library::{ImageRef, Inner};
use indexmap::IndexMap;
use std::alloc::Global;
use vbm_machines::{Held, Machine, Slot, Snapshot};
use vbm_ports::NoMemory;

/// How often each image was counted, up to 255.
#[derive(Drop)]
pub(crate) struct Tally {
    media: IndexMap<u32, u8>,
    inners: IndexMap<u64, u8>,
}

fn or_zero(count: Option<u8>) -> u8
    ensures { result ≡ or_zero count }
{
    match count {
        None => 0,
        Some(count) => count,
    }
}

impl Tally {
    fn new(alloc: Global) -> Tally
        ensures { (image : ImageRef) → times result image ≡ 0 }
    {
        Tally {
            media: IndexMap::new(alloc),
            inners: IndexMap::new(alloc),
        }
    }

    /// How often an image was counted.
    pub(crate) fn of(&self, image: ImageRef) -> u8
        ensures { result ≡ times self.now image }
    {
        match image {
            ImageRef::Medium(place) => or_zero(self.media.get(&place).copied()),
            ImageRef::Inner(number) => or_zero(self.inners.get(&number).copied()),
        }
    }

    // Counts an image once more.
    fn add(&mut self, image: ImageRef) -> Result<(), NoMemory>
        ensures { OnOk result ((other : ImageRef) → times self.new other ≡ one_more_if (is_same_image other image) (times self.old other)) }
    {
        match image {
            ImageRef::Medium(place) => match self.media.entry(place) {
                Ok(entry) => {
                    let count = entry.or_insert(0);
                    *count = count.saturating_add(1);
                    Ok(())
                }
                Err(_) => Err(NoMemory),
            },
            ImageRef::Inner(number) => match self.inners.entry(number) {
                Ok(entry) => {
                    let count = entry.or_insert(0);
                    *count = count.saturating_add(1);
                    Ok(())
                }
                Err(_) => Err(NoMemory),
            },
        }
    }

    // Counts an image once more, if it is a medium's.
    fn add_medium(&mut self, image: ImageRef) -> Result<(), NoMemory>
        ensures { OnOk result ((place : ℕ) → times self.new (refs.Medium place)
            ≡ one_more_if (is_same_image (refs.Medium place) image) (times self.old (refs.Medium place))) }
    {
        match image {
            ImageRef::Medium(_) => {
                self.add(image)?;
                Ok(())
            }
            ImageRef::Inner(_) => Ok(()),
        }
    }
}

/// How many slots hold each image, and how many use it themselves.
#[derive(Drop)]
pub(crate) struct SlotTally {
    pub(crate) held: Tally,
    pub(crate) used: Tally,
}

impl SlotTally {
    // Counts the images of one more slot.
    fn add(&mut self, slot: &Slot) -> Result<(), NoMemory>
        ensures { OnOk result ((before : List Slot) → CountsSlots (slot_times self.old) before → CountsSlots (slot_times self.new) (before ++ slot.now ∷ [])) }
    {
        match slot.held {
            Held::Direct => self.used.add(ImageRef::Medium(slot.medium)),
            Held::Own(number) => self.held.add(ImageRef::Inner(number)),
            Held::Base => self.held.add(ImageRef::Medium(slot.medium)),
        }
    }

    fn add_slots(&mut self, slots: &[Slot]) -> Result<(), NoMemory>
        ensures { OnOk result ((before : List Slot) → CountsSlots (slot_times self.old) before → CountsSlots (slot_times self.new) (before ++ slots.now)) }
    {
        for i in 0..slots.len() {
            self.add(&slots[i])?;
        }
        Ok(())
    }

    fn add_snapshots(&mut self, snapshots: &[Snapshot]) -> Result<(), NoMemory>
        ensures { OnOk result ((before : List Slot) → CountsSlots (slot_times self.old) before → CountsSlots (slot_times self.new) (before ++ slots_in_snapshots snapshots.now)) }
    {
        for i in 0..snapshots.len() {
            self.add_slots(snapshots[i].slots.as_slice())?;
        }
        Ok(())
    }

    fn add_machine(&mut self, machine: &Machine) -> Result<(), NoMemory>
        ensures { OnOk result ((before : List Slot) → CountsSlots (slot_times self.old) before → CountsSlots (slot_times self.new) (before ++ slots_in_machine machine.now)) }
    {
        self.add_slots(machine.slots.as_slice())?;
        self.add_snapshots(machine.snapshots.as_slice())
    }

    fn add_machines(&mut self, machines: &[Machine]) -> Result<(), NoMemory>
        ensures { OnOk result ((before : List Slot) → CountsSlots (slot_times self.old) before → CountsSlots (slot_times self.new) (before ++ slots_in_machines machines.now)) }
    {
        for i in 0..machines.len() {
            self.add_machine(&machines[i])?;
        }
        Ok(())
    }

    /// Counts the images of all slots and places of snapshots.
    pub(crate) fn new(alloc: Global, machines: &[Machine]) -> Result<SlotTally, NoMemory>
        ensures { IfOk result (λ t. CountsSlots (slot_times t) (slots_in_machines machines.now)) }
    {
        let mut tally = SlotTally {
            held: Tally::new(alloc),
            used: Tally::new(alloc),
        };
        tally.add_machines(machines)?;
        Ok(tally)
    }
}

/// Counts the inner images that stand on each medium's image.
pub(crate) fn children_of(alloc: Global, inners: &[Inner]) -> Result<Tally, NoMemory>
    ensures { IfOk result (λ t. CountsChildren (times t) inners.now) }
{
    let mut children = Tally::new(alloc);
    for i in 0..inners.len() {
        children.add_medium(inners[i].parent)?;
    }
    Ok(children)
}
