//! The bytes of a library's file.

ghost use Rattle.std.specs.Prelude.{◌≡◌, ◌++◌, ◌≤◌, List, ℕ, OnOk, IfOk, Ok};
ghost use Rattle.vbm_registry.specs.declared.features.Features.{Features};
ghost use Rattle.vbm_registry.specs.declared.library.TheConstants.{LONGEST_LIBRARY};
ghost use Rattle.vbm_registry.specs.PlaceRules.{keeps_places};
ghost use Rattle.vbm_registry.specs.Grammar.{library_in, IsDecoded, library_off};
ghost use Rattle.std.specs.Int.{w8, w16, w64};
ghost use Rattle.vbm_registry.specs.Spelling.{Appends, number_onto, name_onto, items_onto, list_onto, mode_code, medium_onto, ref_onto, inner_onto, flag_code, held_onto, slot_onto, place_code, place_onto, snapshot_onto, machine_onto, merging_onto, list_of, fields_onto, spelling};

use crate::library::{ImageRef, Inner, LONGEST_LIBRARY, Library, Merging};
use crate::media::Medium;
use std::alloc::{AllocError, Global};
use vbm_machines::{Held, Machine, Slot, Snapshot};
use vbm_modes::Mode;
use vbm_ports::{Bytes, NoMemory, Sequence, Text};

// The most bytes of each item, without its lists.
const MEDIUM_ROOM: usize = 66;

const INNER_ROOM: usize = 17;

const SLOT_ROOM: usize = 13;

const SNAPSHOT_ROOM: usize = 36;

const MACHINE_ROOM: usize = 38;

const MERGING_ROOM: usize = 25;

// The most bytes of all else: the head, the counters, the counts, and the name that is made.
const OTHER_ROOM: usize = 113;

/// What has a spelling.
pub trait Spelled {
    ghost onto: { Self → List ℕ → List ℕ };

    /// Appends it.
    fn put(&self, out: &mut Vec<u8>) -> Result<(), AllocError>
        ensures { OnOk result (Appends out.old.items out.new.items (onto self.now)) };
}

fn put_u8(out: &mut Vec<u8>, n: u64) -> Result<(), AllocError>
    ensures { OnOk result (Appends out.old.items out.new.items (number_onto w8 n)) }
{
    out.extend_from_slice(&n.to_le_bytes()[..1])?;
    Ok(())
}

fn put_u16(out: &mut Vec<u8>, n: u64) -> Result<(), AllocError>
    ensures { OnOk result (Appends out.old.items out.new.items (number_onto w16 n)) }
{
    out.extend_from_slice(&n.to_le_bytes()[..2])?;
    Ok(())
}

fn put_u64(out: &mut Vec<u8>, n: u64) -> Result<(), AllocError>
    ensures { OnOk result (Appends out.old.items out.new.items (number_onto w64 n)) }
{
    out.extend_from_slice(&n.to_le_bytes())?;
    Ok(())
}

fn put_name(out: &mut Vec<u8>, name: &[u8]) -> Result<(), AllocError>
    ensures { OnOk result (Appends out.old.items out.new.items (name_onto name.now)) }
{
    put_u8(out, name.len() as u64)?;
    out.extend_from_slice(name)?;
    Ok(())
}

fn put_items<T: Spelled>(out: &mut Vec<u8>, items: &[T]) -> Result<(), AllocError>
    ensures { OnOk result (Appends out.old.items out.new.items (items_onto T.onto items.now)) }
{
    for i in 0..items.len() {
        items[i].put(out)?;
    }
    Ok(())
}

fn put_few<T: Spelled>(out: &mut Vec<u8>, items: &[T]) -> Result<(), AllocError>
    ensures { OnOk result (Appends out.old.items out.new.items (list_onto w8 T.onto items.now)) }
{
    put_u8(out, items.len() as u64)?;
    put_items(out, items)
}

fn put_list<T: Spelled>(out: &mut Vec<u8>, items: &[T]) -> Result<(), AllocError>
    ensures { OnOk result (Appends out.old.items out.new.items (list_onto w16 T.onto items.now)) }
{
    put_u16(out, items.len() as u64)?;
    put_items(out, items)
}

fn code_of(mode: Mode) -> u64
    ensures { result ≡ mode_code mode }
{
    match mode {
        Mode::Normal => 0,
        Mode::Immutable => 1,
        Mode::Writethrough => 2,
        Mode::MultiAttach => 3,
        Mode::Readonly => 4,
    }
}

impl Spelled for Medium {
    ghost onto = { medium_onto };

    fn put(&self, out: &mut Vec<u8>) -> Result<(), AllocError> {
        put_name(out, self.name.bytes())?;
        put_u8(out, code_of(self.mode))
    }
}

impl Spelled for ImageRef {
    ghost onto = { ref_onto };

    fn put(&self, out: &mut Vec<u8>) -> Result<(), AllocError> {
        match *self {
            ImageRef::Medium(place) => {
                put_u8(out, 0)?;
                put_u16(out, place as u64)
            }
            ImageRef::Inner(number) => {
                put_u8(out, 1)?;
                put_u64(out, number)
            }
        }
    }
}

impl Spelled for Inner {
    ghost onto = { inner_onto };

    fn put(&self, out: &mut Vec<u8>) -> Result<(), AllocError> {
        put_u64(out, self.number)?;
        self.parent.put(out)
    }
}

impl Spelled for Held {
    ghost onto = { held_onto };

    fn put(&self, out: &mut Vec<u8>) -> Result<(), AllocError> {
        match *self {
            Held::Direct => put_u8(out, 0),
            Held::Own(number) => {
                put_u8(out, 1)?;
                put_u64(out, number)
            }
            Held::Base => put_u8(out, 2),
        }
    }
}

fn flag_of(on: bool) -> u64
    ensures { result ≡ flag_code on }
{
    if on { 1 } else { 0 }
}

impl Spelled for Slot {
    ghost onto = { slot_onto };

    fn put(&self, out: &mut Vec<u8>) -> Result<(), AllocError> {
        put_u8(out, self.port as u64)?;
        put_u16(out, self.medium as u64)?;
        put_u8(out, flag_of(self.autoreset))?;
        self.held.put(out)
    }
}

fn put_place(out: &mut Vec<u8>, place: Option<u32>) -> Result<(), AllocError>
    ensures { OnOk result (Appends out.old.items out.new.items (place_onto place)) }
{
    match place {
        None => put_u16(out, 0xFFFF),
        Some(place) => put_u16(out, place as u64),
    }
}

impl Spelled for Snapshot {
    ghost onto = { snapshot_onto };

    fn put(&self, out: &mut Vec<u8>) -> Result<(), AllocError> {
        put_name(out, self.name.bytes())?;
        put_place(out, self.parent)?;
        put_few(out, self.slots.as_slice())
    }
}

impl Spelled for Machine {
    ghost onto = { machine_onto };

    fn put(&self, out: &mut Vec<u8>) -> Result<(), AllocError> {
        put_name(out, self.name.bytes())?;
        put_few(out, self.slots.as_slice())?;
        put_list(out, self.snapshots.as_slice())?;
        put_place(out, self.current)
    }
}

impl Spelled for Merging {
    ghost onto = { merging_onto };

    fn put(&self, out: &mut Vec<u8>) -> Result<(), AllocError> {
        self.parent.put(out)?;
        put_u64(out, self.child)?;
        put_u64(out, self.number)
    }
}

fn put_making(out: &mut Vec<u8>, making: &Option<Text>) -> Result<(), AllocError>
    ensures { OnOk result (Appends out.old.items out.new.items (list_onto w8 name_onto (list_of making.now))) }
{
    match making {
        None => put_u8(out, 0),
        Some(name) => {
            put_u8(out, 1)?;
            put_name(out, name.bytes())
        }
    }
}

fn put_bytes(out: &mut Vec<u8>, bytes: &[u8]) -> Result<(), AllocError>
    ensures { OnOk result (Appends out.old.items out.new.items (λ rest. bytes.now ++ rest)) }
{
    out.extend_from_slice(bytes)?;
    Ok(())
}

fn put_counters(out: &mut Vec<u8>, library: &Library) -> Result<(), AllocError>
    ensures { OnOk result (Appends out.old.items out.new.items
        (λ rest. library.now.seed ++ number_onto w64 library.now.next (number_onto w64 library.now.inner rest))) }
{
    put_bytes(out, library.seed.as_bytes())?;
    put_u64(out, library.next)?;
    put_u64(out, library.inner)
}

fn put_lists(out: &mut Vec<u8>, library: &Library) -> Result<(), AllocError>
    ensures { OnOk result (Appends out.old.items out.new.items
        (λ rest. list_onto w16 medium_onto library.now.media (list_onto w16 inner_onto library.now.inners (list_onto w16 machine_onto library.now.machines rest)))) }
{
    put_list(out, library.media.as_slice())?;
    put_list(out, library.inners.as_slice())?;
    put_list(out, library.machines.as_slice())
}

fn put_fields(out: &mut Vec<u8>, library: &Library) -> Result<(), AllocError>
    ensures { OnOk result (Appends out.old.items out.new.items (fields_onto library.now)) }
{
    put_counters(out, library)?;
    put_lists(out, library)?;
    put_making(out, &library.making)?;
    put_few(out, library.merging.as_slice())
}

fn room_of(items: usize, each: usize) -> usize {
    items.saturating_mul(each)
}

// Enough bytes for a machine.
fn machine_room(machine: &Machine) -> usize {
    let mut room = MACHINE_ROOM
        .saturating_add(room_of(machine.slots.len(), SLOT_ROOM))
        .saturating_add(room_of(machine.snapshots.len(), SNAPSHOT_ROOM));
    for snapshot in machine.snapshots.as_slice() {
        room = room.saturating_add(room_of(snapshot.slots.len(), SLOT_ROOM));
    }
    room
}

// Enough bytes for a library that keeps the rules.
fn room_for(library: &Library) -> usize
    ensures { result ≤ LONGEST_LIBRARY }
{
    let mut room = OTHER_ROOM
        .saturating_add(room_of(library.media.len(), MEDIUM_ROOM))
        .saturating_add(room_of(library.inners.len(), INNER_ROOM))
        .saturating_add(room_of(library.merging.len(), MERGING_ROOM));
    for machine in library.machines.as_slice() {
        room = room.saturating_add(machine_room(machine));
    }
    room.min(LONGEST_LIBRARY)
}

#[tactic(auto, unfolding(crate::specs::Spelling::spelling))]
fn spell(alloc: Global, library: &Library) -> Result<Vec<u8>, AllocError>
    ensures { IfOk result (λ v. v.items ≡ spelling library.now) }
{
    let mut out = Vec::with_capacity(alloc, room_for(library))?;
    out.extend_from_slice(b"VBMLIB01")?;
    put_fields(&mut out, library)?;
    Ok(out)
}

/// The bytes of a library's file.
///
/// A library that keeps the rules is read from them again, with every machine off.
pub fn encode(alloc: Global, library: &Library) -> Result<Bytes, NoMemory>
    ensures bytes { IfOk result (λ b. b ≡ spelling library.now) }
    ensures again { IfOk result (λ b. (built : Features) → IsDecoded built keeps_places (library_off library.now)
        → library_in built keeps_places b ≡ Ok (library_off library.now)) }
{
    match spell(alloc, library) {
        Ok(bytes) => Ok(Sequence::from_vec(bytes)),
        Err(_) => Err(NoMemory),
    }
}
