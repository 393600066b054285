//! An index of a record's changes, in room that the caller gives. It is sorted, so that each change meets its neighbours alone.

ghost use Rattle.std.specs.Prelude.{◌≡◌, ◌↔◌, ℕ, ◌+◌, ◌^◌, ◌<◌, ◌≤◌, List, [], length, Option, IsSome, Some, IfOk, IfSome, OnOk, OnErr, IsTrue, All};
ghost use Rattle.vbm_ports.specs.Files.{bytes_of};
ghost use Rattle.vbm_ports.specs.Names.{IsStoreName};
ghost use Rattle.vbm_ports.specs.Counts.{Rose};
ghost use Rattle.vbm_ports.specs.Disk.{OnlyReads};
ghost use Rattle.vbm_intent.specs.Changes.{of_file, IsRecordable, IsAllowed, IsApart, Fits};
ghost use Rattle.vbm_intent.specs.Record.{changes_of};
ghost use Rattle.vbm_intent.specs.Pieces.{change_in};
ghost use Rattle.vbm_intent.specs.Check.{touched_from};
ghost use Rattle.vbm_intent.specs.Index.{place_of, change_at, changes_at, Pairs, IsRising, AreApartIn, StandsBefore};
ghost use Rattle.vbm_ports.specs.declared.disk.TheConstants.{LONGEST_FILE};

use crate::limits::MOST_CHANGES;
use crate::record::{Changes, Piece, first_piece};
use crate::span::{are_apart, comes_before, length_with, start};
use std::cmp::Ordering;
use vbm_ports::{Disk, Failed};

/// How many bytes behind a record serve `redo` as room for an index of the changes, 4 for each change.
pub const INDEX_ROOM: u32 = 4 * MOST_CHANGES;

/// The place of a change in the body.
fn place(entry: &[u8; 4]) -> u32
    ensures { result ≡ place_of entry.now }
{
    u32::from_le_bytes(*entry)
}

/// The change of an entry, or none where its place holds none.
fn piece_at<'a>(body: &'a [u8], entry: &[u8; 4]) -> Option<Piece<'a>>
    ensures change { IfSome result (λ piece. change_in piece ≡ change_at body.now entry.now) }
    ensures size { IfSome result (λ piece. IsRecordable (change_in piece)) }
{
    let at = place(entry) as usize;
    if at > body.len() {
        return None;
    }
    let (piece, _) = first_piece(&body[at..])?;
    Some(piece)
}

/// Makes the index of a body, with its entries in the order of their places.
fn note_places(body: &[u8], index: &mut [[u8; 4]])
    requires short { length body.now < 2 ^ 32 }
    requires changes { IsSome (changes_of (length index.old) body.now) }
    ensures changes { changes_of (length index.old) body.now ≡ Some (changes_at body.now index.new) }
    ensures rising { IsRising index.new }
{
    let mut rest = body;
    let mut noted = 0;
    while noted < index.len() {
        let Some((_, next)) = first_piece(rest) else {
            return;
        };
        index[noted] = ((body.len() - rest.len()) as u32).to_le_bytes();
        rest = next;
        noted += 1;
    }
}

/// The first byte that a change touches.
fn first_touched(piece: &Piece) -> u64
    ensures { result ≡ touched_from (change_in piece.now) }
{
    match *piece {
        Piece::Write {
            name: _,
            at,
            bytes: _,
        } => at,
        Piece::Fill {
            name: _,
            at,
            len: _,
            byte: _,
        } => at,
        Piece::Cut { name: _, len } => len,
        Piece::Remove { name: _ } => 0,
    }
}

/// The order of two entries by file, and in one file by the first byte that is touched.
fn by_first_touched(body: &[u8], first: &[u8; 4], second: &[u8; 4]) -> Ordering {
    let Some(one) = piece_at(body, first) else {
        return Ordering::Less;
    };
    let Some(other) = piece_at(body, second) else {
        return Ordering::Greater;
    };
    match one.name().cmp(other.name()) {
        Ordering::Less => Ordering::Less,
        Ordering::Equal => first_touched(&one).cmp(&first_touched(&other)),
        Ordering::Greater => Ordering::Greater,
    }
}

/// The order of two entries by file, and in one file as the record has them.
fn by_place(body: &[u8], first: &[u8; 4], second: &[u8; 4]) -> Ordering {
    let Some(one) = piece_at(body, first) else {
        return Ordering::Less;
    };
    let Some(other) = piece_at(body, second) else {
        return Ordering::Greater;
    };
    match one.name().cmp(other.name()) {
        Ordering::Less => Ordering::Less,
        Ordering::Equal => place(first).cmp(&place(second)),
        Ordering::Greater => Ordering::Greater,
    }
}

/// Whether no two changes of an index touch the same byte, or none where its order does not tell.
fn neighbours_apart(body: &[u8], index: &[[u8; 4]]) -> Option<bool>
    requires { All IsAllowed (changes_at body.now index.now) }
    ensures { IfSome result (λ apart. IsTrue apart ↔ AreApartIn body.now index.now) }
{
    let Some((first, tail)) = index.split_first() else {
        return Some(true);
    };
    let mut before = first;
    let mut rest = tail;
    while let Some((entry, behind)) = rest.split_first() {
        let one = piece_at(body, before)?;
        let other = piece_at(body, entry)?;
        if !comes_before(&one, &other) {
            if place(before) == place(entry) || are_apart(&one, &other) {
                return None;
            }
            return Some(false);
        }
        before = entry;
        rest = behind;
    }
    Some(true)
}

/// Whether an entry stands before another by file, and in one file as the record has them.
fn stands_before(body: &[u8], first: &[u8; 4], second: &[u8; 4]) -> bool
    ensures { IsTrue result → StandsBefore body.now first.now second.now }
{
    let (Some(one), Some(other)) = (piece_at(body, first), piece_at(body, second)) else {
        return false;
    };
    match one.name().cmp(other.name()) {
        Ordering::Less => true,
        Ordering::Equal => place(first) < place(second),
        Ordering::Greater => false,
    }
}

/// Whether the entries stand by file, and in one file as the record has them.
fn all_stand_before(body: &[u8], index: &[[u8; 4]]) -> bool
    ensures { IsTrue result → Pairs (StandsBefore body.now) index.now }
{
    let Some((first, tail)) = index.split_first() else {
        return true;
    };
    let mut before = first;
    let mut rest = tail;
    while let Some((entry, behind)) = rest.split_first() {
        if !stands_before(body, before, entry) {
            return false;
        }
        before = entry;
        rest = behind;
    }
    true
}

/// The length of a file: `len` if it is the one before, else what the disk tells.
fn length_of<D: Disk>(disk: &mut D, name: &[u8], before: &[u8], len: u64) -> Result<u64, Failed>
    requires store { IsStoreName name.now }
    requires bound { len ≤ LONGEST_FILE }
    ensures same { name.now ≡ before.now → IfOk result (λ now. now ≡ len) }
    ensures other { D.tells → (name.now ≡ before.now → ⊥)
        → IfOk result (λ now. now ≡ length (bytes_of ((D.state disk.old).files name.now))) }
    ensures bound { IfOk result (λ now. now ≤ LONGEST_FILE) }
    ensures reads { OnlyReads D.tells (D.state disk.old) (D.state disk.new) }
    ensures cause { OnErr result (Rose (D.state disk.old).faults (D.state disk.new).faults) }
    ensures no_fault { OnOk result ((D.state disk.new).faults ≡ (D.state disk.old).faults) }
{
    if name == before {
        return Ok(len);
    }
    Ok(disk.length(name)?.unwrap_or(0))
}

/// Whether changes fit the files, by an index of them that stands by file.
fn fit_in_order<D: Disk>(
    disk: &mut D,
    body: &[u8],
    index: &[[u8; 4]],
) -> Result<Option<bool>, Failed>
    requires allowed { All IsAllowed (changes_at body.now index.now) }
    requires order { Pairs (StandsBefore body.now) index.now }
    ensures answer { D.tells → IfOk result (λ told. IfSome told (λ fit. IsTrue fit
        ↔ Fits (changes_at body.now index.now) (D.state disk.old).files)) }
    ensures reads { OnlyReads D.tells (D.state disk.old) (D.state disk.new) }
    ensures cause { OnErr result (Rose (D.state disk.old).faults (D.state disk.new).faults) }
    ensures no_fault { OnOk result ((D.state disk.new).faults ≡ (D.state disk.old).faults) }
{
    let mut rest = index;
    let mut name: &[u8] = &[];
    let mut len = 0;
    while let Some((entry, behind)) = rest.split_first() {
        let Some(piece) = piece_at(body, entry) else {
            return Ok(None);
        };
        let now = length_of(disk, piece.name(), name, len)?;
        if start(&piece) > now {
            return Ok(Some(false));
        }
        name = piece.name();
        len = length_with(&piece, now);
        rest = behind;
    }
    Ok(Some(true))
}

/// Whether no two of the changes touch the same byte, told by an index of them, or none where there is no room for it.
pub(crate) fn apart_by_index(changes: &Changes, room: &mut [u8]) -> Option<bool>
    requires { All IsAllowed changes.now }
    ensures { IfSome result (λ apart. IsTrue apart ↔ ((name : List ℕ) → IsApart (of_file name changes.now))) }
{
    let (count, body) = changes.parts();
    let (slots, _) = room.as_chunks_mut::<4>();
    if slots.len() < count as usize || body.len() > u32::MAX as usize {
        return None;
    }
    let index = &mut slots[..count as usize];
    note_places(body, index);
    index.sort_unstable_by(|first, second| by_first_touched(body, first, second));
    neighbours_apart(body, index)
}

/// Whether the changes fit the files, told by an index of them, or none where there is no room for it.
pub(crate) fn fit_by_index<D: Disk>(
    disk: &mut D,
    changes: &Changes,
    room: &mut [u8],
) -> Result<Option<bool>, Failed>
    requires { All IsAllowed changes.now }
    ensures answer { D.tells → IfOk result (λ told. IfSome told (λ fit. IsTrue fit
        ↔ Fits changes.now (D.state disk.old).files)) }
    ensures reads { OnlyReads D.tells (D.state disk.old) (D.state disk.new) }
    ensures cause { OnErr result (Rose (D.state disk.old).faults (D.state disk.new).faults) }
    ensures no_fault { OnOk result ((D.state disk.new).faults ≡ (D.state disk.old).faults) }
{
    let (count, body) = changes.parts();
    let (slots, _) = room.as_chunks_mut::<4>();
    if slots.len() < count as usize || body.len() > u32::MAX as usize {
        return Ok(None);
    }
    let index = &mut slots[..count as usize];
    note_places(body, index);
    index.sort_unstable_by(|first, second| by_place(body, first, second));
    if !all_stand_before(body, index) {
        return Ok(None);
    }
    fit_in_order(disk, body, index)
}
