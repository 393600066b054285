//! The slots of machines: what an attachment, a detachment, a start and a snapshot make of them.

ghost use Rattle.std.specs.Prelude.{◌≡◌, ◌<◌, ◌≤◌, ◌++◌, List, [], ◌∷◌, map, length, count_by, slice_get, slice_index, Some, IfOk, OnOk, OnErr};
ghost use Rattle.std.specs.List.{AllByRecursion};
ghost use Rattle.vbm_modes.specs.Modes.{is_own};
ghost use Rattle.vbm_world.specs.declared.world.WorldSlot.{WorldSlot};
ghost use Rattle.vbm_world.specs.Slots.{put_slot, without_port};
ghost use Rattle.vbm_machines.specs.Slots.{is_image, has_image, with_image, numbers_for, renewed, kept_held, kept_place};
ghost use Rattle.vbm_machines.specs.Slots.{new_slot, slot_entered, slots_but, resets_at_start};
ghost use Rattle.vbm_machines.specs.Slots.{KeepsPorts};
ghost use Rattle.vbm_machines.specs.Snapshots.{machine_in};

use crate::{Held, Machine, Slot, Slots};
use std::alloc::Global;
use vbm_modes::{AttachKind, Mode, attach_kind, resets};
use vbm_ports::{NoMemory, Sequence};

// ---- new images

// Whether a slot uses an image besides its medium's own.
fn has_image(slot: &Slot) -> bool
    ensures { result ≡ has_image slot.now }
{
    match slot.held {
        Held::Direct => false,
        Held::Own(_) | Held::Base => true,
    }
}

// Whether a start resets a slot.
fn resets_at_start(modes: &[Mode], slot: &Slot) -> bool
    requires { slot.now.medium < length modes.now }
    ensures { result ≡ resets_at_start modes.now slot.now }
{
    resets(modes[slot.medium as usize], slot.autoreset)
}

fn numbers_for(renews: bool) -> usize
    ensures { result ≡ numbers_for renews }
{
    if renews { 1 } else { 0 }
}

// How many of some slots have images.
pub(crate) fn images_in(slots: &[Slot]) -> usize
    ensures { result ≡ count_by has_image slots.now }
{
    slots.iter().filter(|slot| has_image(slot)).count()
}

// How many of some slots a start resets.
fn resets_in(slots: &[Slot], modes: &[Mode]) -> usize
    requires { AllByRecursion (λ (s : Slot). s.medium < length modes.now) slots.now }
    ensures { result ≡ count_by (resets_at_start modes.now) slots.now }
{
    let mut count = 0;
    let mut rest = slots;
    while let [slot, after @ ..] = rest {
        count += numbers_for(resets_at_start(modes, slot));
        rest = after;
    }
    count
}

// A slot, with the image of the first fresh number if it gets a new one.
fn with_image(renews: bool, fresh: &[u64], slot: &Slot) -> Slot
    requires { numbers_for renews ≤ length fresh.now }
    ensures { result ≡ with_image renews (slice_index fresh.now 0) slot.now }
{
    if renews {
        Slot {
            held: Held::Own(fresh[0]),
            ..*slot
        }
    } else {
        *slot
    }
}

// Slots, with new images in place of those that they have.
pub(crate) fn with_new_images(
    alloc: Global,
    slots: &[Slot],
    fresh: &[u64],
) -> Result<Slots, NoMemory>
    requires { length fresh.now ≡ count_by has_image slots.now }
    ensures { IfOk result (λ all. all ≡ renewed has_image fresh.now slots.now) }
{
    let mut all = Sequence::new(alloc);
    let mut rest = slots;
    let mut numbers = fresh;
    while let [slot, after @ ..] = rest {
        let renews = has_image(slot);
        all.push(with_image(renews, numbers, slot))?;
        numbers = &numbers[numbers_for(renews)..];
        rest = after;
    }
    Ok(all)
}

// Slots, with new images where a start resets them.
fn with_resets(
    alloc: Global,
    slots: &[Slot],
    modes: &[Mode],
    fresh: &[u64],
) -> Result<Slots, NoMemory>
    requires modes { AllByRecursion (λ (s : Slot). s.medium < length modes.now) slots.now }
    requires fresh { length fresh.now ≡ count_by (resets_at_start modes.now) slots.now }
    ensures { IfOk result (λ all. all ≡ renewed (resets_at_start modes.now) fresh.now slots.now) }
{
    let mut all = Sequence::new(alloc);
    let mut rest = slots;
    let mut numbers = fresh;
    while let [slot, after @ ..] = rest {
        let renews = resets_at_start(modes, slot);
        all.push(with_image(renews, numbers, slot))?;
        numbers = &numbers[numbers_for(renews)..];
        rest = after;
    }
    Ok(all)
}

// ---- what a snapshot keeps

fn kept_held(mode: Mode, held: Held) -> Held
    ensures { result ≡ kept_held (Some mode) held }
{
    match (held, mode) {
        (Held::Direct, Mode::Normal) => Held::Base,
        _ => held,
    }
}

fn kept_place(modes: &[Mode], slot: &Slot) -> Slot
    requires { slot.now.medium < length modes.now }
    ensures { result ≡ kept_place modes.now slot.now }
{
    Slot {
        held: kept_held(modes[slot.medium as usize], slot.held),
        ..*slot
    }
}

// The places that a snapshot has for slots.
pub(crate) fn kept_places(alloc: Global, slots: &[Slot], modes: &[Mode]) -> Result<Slots, NoMemory>
    requires { AllByRecursion (λ (s : Slot). s.medium < length modes.now) slots.now }
    ensures { IfOk result (λ all. all ≡ map (kept_place modes.now) slots.now) }
{
    let mut all = Sequence::new(alloc);
    let mut rest = slots;
    while let [slot, after @ ..] = rest {
        all.push(kept_place(modes, slot))?;
        rest = after;
    }
    Ok(all)
}

// How many of these places have images.
pub(crate) fn kept_images(slots: &[Slot], modes: &[Mode]) -> usize
    requires { AllByRecursion (λ (s : Slot). s.medium < length modes.now) slots.now }
    ensures { result ≡ count_by has_image (map (kept_place modes.now) slots.now) }
{
    let mut count = 0;
    let mut rest = slots;
    while let [slot, after @ ..] = rest {
        count += numbers_for(has_image(&kept_place(modes, slot)));
        rest = after;
    }
    count
}

// ---- attachment

// The slot of a medium that is attached.
fn new_slot(port: u8, medium: u32, mode: Mode, number: u64) -> Slot
    ensures { result ≡ new_slot port medium mode number }
{
    let held = match attach_kind(mode) {
        AttachKind::Direct => Held::Direct,
        AttachKind::Own => Held::Own(number),
    };
    Slot {
        port,
        medium,
        autoreset: resets(mode, true),
        held,
    }
}

// Slots with one more in its place.
#[tactic(auto, unfolding(crate::specs::Slots::slot_entered))]
fn slot_entered(alloc: Global, slots: &[Slot], slot: Slot) -> Result<Slots, NoMemory>
    ensures { IfOk result (λ all. all ≡ slot_entered slot slots.now) }
{
    let mut all = Sequence::new(alloc);
    let mut rest = slots;
    while let [first, after @ ..] = rest {
        if slot.port < first.port {
            break;
        }
        all.push(*first)?;
        rest = after;
    }
    all.push(slot)?;
    while let [first, after @ ..] = rest {
        all.push(*first)?;
        rest = after;
    }
    Ok(all)
}

fn slots_but(alloc: Global, slots: &[Slot], port: u8) -> Result<Slots, NoMemory>
    ensures { IfOk result (λ all. all ≡ slots_but port slots.now) }
{
    let mut all = Sequence::new(alloc);
    for slot in slots {
        if slot.port != port {
            all.push(*slot)?;
        }
    }
    Ok(all)
}

/// Gives a machine a slot of the medium at a place, in the order of ports. Where the mode wants an image besides the medium's own,
/// it has this number.
pub fn attach(
    alloc: Global,
    machine: &mut Machine,
    port: u8,
    medium: u32,
    mode: Mode,
    number: u64,
) -> Result<(), NoMemory>
    ensures ok { OnOk result (machine.new ≡ record machine.old { slots = slot_entered (new_slot port medium mode number) machine.old.slots }) }
    ensures err { OnErr result (machine.new ≡ machine.old) }
    ensures named { OnOk result ((seen : Slot → WorldSlot) → KeepsPorts seen → machine_in seen machine.new
        ≡ record (machine_in seen machine.old) { slots = put_slot (seen (new_slot port medium mode number)) (machine_in seen machine.old).slots }) }
{
    let slots = slot_entered(
        alloc,
        machine.slots.as_slice(),
        new_slot(port, medium, mode, number),
    )?;
    machine.slots = slots;
    Ok(())
}

/// Takes the slot at a port from a machine.
pub fn detach(alloc: Global, machine: &mut Machine, port: u8) -> Result<(), NoMemory>
    ensures ok { OnOk result (machine.new ≡ record machine.old { slots = slots_but port machine.old.slots }) }
    ensures err { OnErr result (machine.new ≡ machine.old) }
    ensures named { OnOk result ((seen : Slot → WorldSlot) → KeepsPorts seen → machine_in seen machine.new
        ≡ record (machine_in seen machine.old) { slots = without_port port (machine_in seen machine.old).slots }) }
{
    let slots = slots_but(alloc, machine.slots.as_slice(), port)?;
    machine.slots = slots;
    Ok(())
}

/// How many numbers `reset` takes.
pub fn numbers_to_reset(machine: &Machine, modes: &[Mode]) -> usize
    requires { AllByRecursion (λ (s : Slot). s.medium < length modes.now) machine.now.slots }
    ensures { result ≡ count_by (resets_at_start modes.now) machine.now.slots }
{
    resets_in(machine.slots.as_slice(), modes)
}

/// Gives the slots that a start resets new images, of the fresh numbers in the order of ports. `modes` has the mode of each medium
/// at its place.
pub fn reset(
    alloc: Global,
    machine: &mut Machine,
    modes: &[Mode],
    fresh: &[u64],
) -> Result<(), NoMemory>
    requires modes { AllByRecursion (λ (s : Slot). s.medium < length modes.now) machine.old.slots }
    requires fresh { length fresh.now ≡ count_by (resets_at_start modes.now) machine.old.slots }
    ensures ok { OnOk result (machine.new ≡ record machine.old { slots = renewed (resets_at_start modes.now) fresh.now machine.old.slots }) }
    ensures err { OnErr result (machine.new ≡ machine.old) }
    ensures named { OnOk result ((seen : Slot → WorldSlot) → machine_in seen machine.new
        ≡ record (machine_in seen machine.old) { slots = map seen (renewed (resets_at_start modes.now) fresh.now machine.old.slots) }) }
{
    let slots = with_resets(alloc, machine.slots.as_slice(), modes, fresh)?;
    machine.slots = slots;
    Ok(())
}
