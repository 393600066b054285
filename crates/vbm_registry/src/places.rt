//! The rules that no field of a library's file tells of alone: what is held once, what stands on what, and mergings.

ghost use Rattle.std.specs.Prelude.{◌≡◌, ◌==◌, ◌≤◌, length, count_by, IfOk};
ghost use Rattle.std.specs.List.{list_all};
ghost use Rattle.vbm_world.specs.declared.limits.TheConstants.{MEDIA_LIMIT};
ghost use Rattle.vbm_registry.specs.Tallies.{times, slot_times, images_seen};
ghost use Rattle.vbm_registry.specs.AtPlaces.{HasNames, children_at, images_at, is_inner_held_once, is_held_once_at, is_medium_held_once, all_from, is_some_same, is_merged_at, is_merging_at, is_drawn_at, is_merging_drawn, places_are_kept_at};
ghost use Rattle.vbm_registry.specs.PlaceRules.{keeps_places as are_places_kept};

use crate::library::{ImageRef, Inner, Library, Merging};
use crate::media::Medium;
use crate::stacking::{Images, is_normal_at, is_same, mergings_into};
use crate::tallies::{SlotTally, Tally, children_of};
use std::alloc::Global;
use vbm_modes::Mode;
use vbm_ports::NoMemory;

// Whether an image is held by one slot, or is the parent of one merging.
fn is_held_once(held: &Tally, mergings: &[Merging], image: ImageRef) -> bool
    ensures { result ≡ is_held_once_at (times held.now) mergings.now image }
{
    let count = held.of(image);
    let merged = mergings_into(mergings, image);
    (count == 1 && merged == 0) || (count == 0 && merged == 1)
}

fn are_inners_held_once(held: &Tally, mergings: &[Merging], inners: &[Inner]) -> bool
    ensures { result ≡ list_all (is_inner_held_once (times held.now) mergings.now) inners.now }
{
    let mut rest = inners;
    while let [inner, after @ ..] = rest {
        if !is_held_once(held, mergings, ImageRef::Inner(inner.number)) {
            return false;
        }
        rest = after;
    }
    true
}

// Whether a medium is held once, if it is normal and something stands on it.
fn is_medium_held_once(
    slots: &SlotTally,
    children: &Tally,
    mergings: &[Merging],
    place: u32,
    medium: &Medium,
) -> bool
    ensures { result ≡ is_medium_held_once (slot_times slots.now) (times children.now) mergings.now place medium.now }
{
    let image = ImageRef::Medium(place);
    if !matches!(medium.mode, Mode::Normal) {
        return true;
    }
    if children.of(image) == 0 && slots.held.of(image) == 0 {
        return true;
    }
    slots.used.of(image) == 0 && is_held_once(&slots.held, mergings, image)
}

fn are_media_held_once(
    slots: &SlotTally,
    children: &Tally,
    mergings: &[Merging],
    media: &[Medium],
) -> bool
    requires { length media.now ≤ MEDIA_LIMIT }
    ensures { result ≡ all_from (is_medium_held_once (slot_times slots.now) (times children.now) mergings.now) 0 media.now }
{
    let mut place = 0;
    let mut rest = media;
    while let [medium, after @ ..] = rest {
        if !is_medium_held_once(slots, children, mergings, place, medium) {
            return false;
        }
        place += 1;
        rest = after;
    }
    true
}

fn is_parent(parent: ImageRef, image: Option<ImageRef>) -> bool
    ensures { result ≡ is_some_same parent image }
{
    match image {
        None => false,
        Some(image) => is_same(image, parent),
    }
}

// Whether an image may be merged into.
fn is_merged(media: &[Medium], image: ImageRef) -> bool
    ensures { result ≡ is_merged_at media.now image }
{
    match image {
        ImageRef::Medium(place) => is_normal_at(media, place),
        ImageRef::Inner(_) => true,
    }
}

// How many mergings have a child.
fn mergings_of(mergings: &[Merging], child: u64) -> usize
    ensures { result ≡ count_by (λ k. k.child == child) mergings.now }
{
    mergings.iter().filter(|other| other.child == child).count()
}

// How many inner images stand on an image.
fn children_of_image(inners: &[Inner], image: ImageRef) -> usize
    ensures { result ≡ children_at image inners.now }
{
    inners
        .iter()
        .filter(|inner| is_same(image, inner.parent))
        .count()
}

fn is_merging(images: &Images, inners: &[Inner], held: &Tally, merging: &Merging) -> bool
    ensures { result ≡ is_merging_at (images_seen images.now) inners.now (times held.now) merging.now }
{
    is_parent(merging.parent, images.parent(merging.child))
        && is_merged(images.media, merging.parent)
        && children_of_image(inners, merging.parent) == 1
        && held.of(ImageRef::Inner(merging.child)) == 1
        && mergings_of(images.merging, merging.child) == 1
}

fn are_mergings(images: &Images, inners: &[Inner], held: &Tally, mergings: &[Merging]) -> bool
    ensures { result ≡ list_all (is_merging_at (images_seen images.now) inners.now (times held.now)) mergings.now }
{
    let mut rest = mergings;
    while let [merging, after @ ..] = rest {
        if !is_merging(images, inners, held, merging) {
            return false;
        }
        rest = after;
    }
    true
}

// Whether the number of a merging was drawn.
fn is_drawn(next: u64, inner: u64, merging: &Merging) -> bool
    ensures { result ≡ is_merging_drawn next inner merging.now }
{
    match merging.parent {
        ImageRef::Medium(_) => merging.number < next,
        ImageRef::Inner(_) => merging.number < inner,
    }
}

fn are_drawn(next: u64, inner: u64, mergings: &[Merging]) -> bool
    ensures { result ≡ list_all (is_merging_drawn next inner) mergings.now }
{
    let mut rest = mergings;
    while let [merging, after @ ..] = rest {
        if !is_drawn(next, inner, merging) {
            return false;
        }
        rest = after;
    }
    true
}

fn are_kept(images: &Images, slots: &SlotTally, children: &Tally, library: &Library) -> bool
    requires few { length library.now.media ≤ MEDIA_LIMIT }
    requires images { images_seen images.now ≡ images_at library.now }
    ensures { result ≡ places_are_kept_at (slot_times slots.now) (times children.now) library.now }
{
    let mergings = library.merging.as_slice();
    are_inners_held_once(&slots.held, mergings, library.inners.as_slice())
        && are_media_held_once(slots, children, mergings, library.media.as_slice())
        && images.are_machines_under(library.machines.as_slice())
        && are_mergings(images, library.inners.as_slice(), &slots.held, mergings)
        && are_drawn(library.next, library.inner, mergings)
}

/// Whether a library keeps the rules on places that no field of its file tells of alone.
pub(crate) fn keeps_places(alloc: Global, library: &Library) -> Result<bool, NoMemory>
    requires { HasNames library.now }
    ensures { IfOk result (λ b. b ≡ are_places_kept library.now) }
{
    let images = Images::new(alloc, library)?;
    let slots = SlotTally::new(alloc, library.machines.as_slice())?;
    let children = children_of(alloc, library.inners.as_slice())?;
    Ok(are_kept(&images, &slots, &children, library))
}
