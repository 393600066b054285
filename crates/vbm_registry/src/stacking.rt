//! Which images stand on which, and whether slots stand on what the snapshot above them holds.

ghost use Rattle.std.specs.Prelude.{◌≡◌, ℕ, nat_eq, IfOk};
ghost use Rattle.std.specs.List.{list_all};
ghost use Rattle.indexmap.specs.IndexMap.{get};
ghost use Rattle.vbm_modes.specs.Modes.{is_own};
ghost use Rattle.vbm_world.specs.World.{is_normal};
ghost use Rattle.vbm_registry.specs.Tallies.{images_seen};
ghost use Rattle.vbm_registry.specs.AtPlaces.{is_same_image, parent_at, images_at, has_mode_at, merging_at, mergings_at, is_held_at, slot_holds, is_common_at, has_holder, is_above_at, is_some_above_at, is_parent_above_at, is_child_stacked, is_slot_stacked, has_slot_with, is_passed_on, are_slots_under, upper_slots, is_snapshot_stacked, is_machine_stacked};

use crate::library::{ImageRef, Inner, Library, Merging};
use crate::media::Medium;
use indexmap::IndexMap;
use std::alloc::Global;
use vbm_machines::{Held, Machine, Slot, Snapshot};
use vbm_modes::Mode;
use vbm_ports::NoMemory;

pub(crate) fn is_same(a: ImageRef, b: ImageRef) -> bool
    ensures { result ≡ is_same_image a b }
{
    match (a, b) {
        (ImageRef::Medium(a), ImageRef::Medium(b)) => a == b,
        (ImageRef::Inner(a), ImageRef::Inner(b)) => a == b,
        _ => false,
    }
}

/// Whether the medium at a place is normal.
pub(crate) fn is_normal_at(media: &[Medium], place: u32) -> bool
    ensures { result ≡ has_mode_at is_normal media.now place }
{
    match media.get(place as usize) {
        None => false,
        Some(medium) => matches!(medium.mode, Mode::Normal),
    }
}

// Whether machines have images of their own on the medium at a place.
fn is_own_at(media: &[Medium], place: u32) -> bool
    ensures { result ≡ has_mode_at is_own media.now place }
{
    match media.get(place as usize) {
        None => false,
        Some(medium) => matches!(medium.mode, Mode::Immutable | Mode::MultiAttach),
    }
}

fn is_common(media: &[Medium], image: ImageRef) -> bool
    ensures { result ≡ is_common_at media.now image }
{
    match image {
        ImageRef::Medium(place) => is_own_at(media, place),
        ImageRef::Inner(_) => false,
    }
}

fn holds(image: ImageRef, slot: &Slot) -> bool
    ensures { result ≡ slot_holds image slot.now }
{
    match slot.held {
        Held::Direct => false,
        Held::Own(number) => is_same(image, ImageRef::Inner(number)),
        Held::Base => is_same(image, ImageRef::Medium(slot.medium)),
    }
}

// Whether the slot at a port holds an image.
fn is_held_in(slots: &[Slot], port: u8, image: ImageRef) -> bool
    ensures { result ≡ has_holder port image slots.now }
{
    let mut rest = slots;
    while let [slot, after @ ..] = rest {
        if slot.port == port && holds(image, slot) {
            return true;
        }
        rest = after;
    }
    false
}

fn is_above(media: &[Medium], upper: &[Slot], port: u8, image: ImageRef) -> bool
    ensures { result ≡ is_above_at media.now upper.now port image }
{
    is_held_in(upper, port, image) || is_common(media, image)
}

fn is_some_above(media: &[Medium], upper: &[Slot], port: u8, image: Option<ImageRef>) -> bool
    ensures { result ≡ is_some_above_at media.now upper.now port image }
{
    match image {
        None => false,
        Some(image) => is_above(media, upper, port, image),
    }
}

/// The merging into an image.
fn merging_into(mergings: &[Merging], image: ImageRef) -> Option<Merging>
    ensures { result ≡ merging_at image mergings.now }
{
    let mut rest = mergings;
    while let [merging, after @ ..] = rest {
        if is_same(merging.parent, image) {
            return Some(*merging);
        }
        rest = after;
    }
    None
}

/// How many mergings there are into an image.
pub(crate) fn mergings_into(mergings: &[Merging], image: ImageRef) -> usize
    ensures { result ≡ mergings_at image mergings.now }
{
    mergings
        .iter()
        .filter(|merging| is_same(merging.parent, image))
        .count()
}

// The parent of each inner image, by its number.
fn parents_of(alloc: Global, inners: &[Inner]) -> Result<IndexMap<u64, ImageRef>, NoMemory>
    ensures { IfOk result (λ m. (n : ℕ) → get nat_eq m n ≡ parent_at inners.now n) }
{
    let mut parents = IndexMap::new(alloc);
    for i in 0..inners.len() {
        if parents.insert(inners[i].number, inners[i].parent).is_err() {
            return Err(NoMemory);
        }
    }
    Ok(parents)
}

/// What slots are judged by.
#[derive(Drop)]
pub(crate) struct Images<'a> {
    pub(crate) media: &'a [Medium],
    parents: IndexMap<u64, ImageRef>,
    pub(crate) merging: &'a [Merging],
}

impl<'a> Images<'a> {
    /// The images of a library.
    pub(crate) fn new(alloc: Global, library: &'a Library) -> Result<Images<'a>, NoMemory>
        ensures { IfOk result (λ images. images_seen images ≡ images_at library.now) }
    {
        Ok(Images {
            media: library.media.as_slice(),
            parents: parents_of(alloc, library.inners.as_slice())?,
            merging: library.merging.as_slice(),
        })
    }

    /// The parent of the inner image of a number.
    pub(crate) fn parent(&self, number: u64) -> Option<ImageRef>
        ensures { result ≡ (images_seen self.now).parent number }
    {
        match self.parents.get(&number) {
            Some(parent) => Some(*parent),
            None => None,
        }
    }

    fn is_parent_above(&self, upper: &[Slot], port: u8, child: u64, parent: ImageRef) -> bool
        ensures { result ≡ is_parent_above_at (images_seen self.now) upper.now port child parent (merging_at parent (images_seen self.now).merging) }
    {
        match (parent, merging_into(self.merging, parent)) {
            (_, None) => is_above(self.media, upper, port, parent),
            (ImageRef::Medium(_), Some(merging)) => merging.child == child,
            (ImageRef::Inner(number), Some(merging)) => {
                merging.child == child
                    && is_some_above(self.media, upper, port, self.parent(number))
            }
        }
    }

    fn is_child_stacked(&self, upper: &[Slot], port: u8, child: u64) -> bool
        ensures { result ≡ is_child_stacked (images_seen self.now) upper.now port child ((images_seen self.now).parent child) }
    {
        match self.parent(child) {
            None => false,
            Some(parent) => self.is_parent_above(upper, port, child, parent),
        }
    }

    // Whether a slot stands on what the snapshot above it holds.
    fn is_stacked(&self, upper: &[Slot], slot: &Slot) -> bool
        ensures { result ≡ is_slot_stacked (images_seen self.now) upper.now slot.now }
    {
        match slot.held {
            Held::Direct | Held::Base => true,
            Held::Own(number) => self.is_child_stacked(upper, slot.port, number),
        }
    }

    fn are_stacked(&self, upper: &[Slot], slots: &[Slot]) -> bool
        ensures { result ≡ list_all (is_slot_stacked (images_seen self.now) upper.now) slots.now }
    {
        let mut rest = slots;
        while let [slot, after @ ..] = rest {
            if !self.is_stacked(upper, slot) {
                return false;
            }
            rest = after;
        }
        true
    }

    fn are_passed_on(&self, upper: &[Slot], slots: &[Slot]) -> bool
        ensures { result ≡ list_all (is_passed_on (images_seen self.now).media slots.now) upper.now }
    {
        let mut rest = upper;
        while let [slot, after @ ..] = rest {
            if !is_passed_on(self.media, slots, slot) {
                return false;
            }
            rest = after;
        }
        true
    }

    // Whether slots stand on what the snapshot above them holds, and have its normal media.
    fn are_under(&self, upper: &[Slot], slots: &[Slot]) -> bool
        ensures { result ≡ are_slots_under (images_seen self.now) upper.now slots.now }
    {
        self.are_stacked(upper, slots) && self.are_passed_on(upper, slots)
    }

    fn is_snapshot_under(&self, snapshots: &[Snapshot], snapshot: &Snapshot) -> bool
        ensures { result ≡ is_snapshot_stacked (images_seen self.now) snapshots.now snapshot.now }
    {
        self.are_under(
            upper_slots(snapshots, snapshot.parent),
            snapshot.slots.as_slice(),
        )
    }

    fn are_snapshots_under(&self, snapshots: &[Snapshot]) -> bool
        ensures { result ≡ list_all (is_snapshot_stacked (images_seen self.now) snapshots.now) snapshots.now }
    {
        let mut rest = snapshots;
        while let [snapshot, after @ ..] = rest {
            if !self.is_snapshot_under(snapshots, snapshot) {
                return false;
            }
            rest = after;
        }
        true
    }

    // Whether the slots of a machine and of its snapshots stand on what is above them.
    fn is_machine_under(&self, machine: &Machine) -> bool
        ensures { result ≡ is_machine_stacked (images_seen self.now) machine.now }
    {
        let snapshots = machine.snapshots.as_slice();
        self.are_under(
            upper_slots(snapshots, machine.current),
            machine.slots.as_slice(),
        ) && self.are_snapshots_under(snapshots)
    }

    /// The same of each machine.
    pub(crate) fn are_machines_under(&self, machines: &[Machine]) -> bool
        ensures { result ≡ list_all (is_machine_stacked (images_seen self.now)) machines.now }
    {
        let mut rest = machines;
        while let [machine, after @ ..] = rest {
            if !self.is_machine_under(machine) {
                return false;
            }
            rest = after;
        }
        true
    }
}

fn has_slot_with(slots: &[Slot], port: u8, medium: u32) -> bool
    ensures { result ≡ has_slot_with port medium slots.now }
{
    let mut rest = slots;
    while let [slot, after @ ..] = rest {
        if slot.port == port && slot.medium == medium {
            return true;
        }
        rest = after;
    }
    false
}

// Whether slots have the medium of a slot above them, if it is normal.
fn is_passed_on(media: &[Medium], lower: &[Slot], slot: &Slot) -> bool
    ensures { result ≡ is_passed_on media.now lower.now slot.now }
{
    !is_normal_at(media, slot.medium) || has_slot_with(lower, slot.port, slot.medium)
}

// The places of the snapshot at a place, none where there is none.
fn upper_slots(snapshots: &[Snapshot], place: Option<u32>) -> &[Slot]
    ensures { result.now ≡ upper_slots place snapshots.now }
{
    match place {
        None => &[],
        Some(place) => match snapshots.get(place as usize) {
            None => &[],
            Some(snapshot) => snapshot.slots.as_slice(),
        },
    }
}
