//! Whether a record may be redone.

ghost use Rattle.std.specs.Prelude.{◌≡◌, ◌⊎◌, ◌↔◌, ℕ, ◌^◌, ◌<◌, ◌≤◌, List, [], ◌∷◌, length, take, Option, MatchOption, IfOk, IfSome, OnOk, OnErr, IsTrue, All};
ghost use Rattle.vbm_ports.specs.Files.{bytes_of};
ghost use Rattle.vbm_ports.specs.Counts.{Rose};
ghost use Rattle.vbm_ports.specs.Disk.{OnlyReads};
ghost use Rattle.vbm_intent.specs.declared.change.Change.{Change};
ghost use Rattle.vbm_intent.specs.Changes.{name_of, file_after, of_file, changed, start_of, IsWithinLimits, IsRecordable, IsAllowed, ApartFrom, IsApart, Fits};
ghost use Rattle.vbm_intent.specs.Record.{changes_of, IsPlan, IsRecord};
ghost use Rattle.vbm_intent.specs.Pieces.{change_in};
ghost use Rattle.vbm_intent.specs.Partly.{IsKept};
ghost use Rattle.vbm_intent.specs.Check.{IsRecordOfAllowed};
ghost use Rattle.vbm_ports.specs.declared.disk.TheConstants.{LONGEST_FILE};

use crate::index::{apart_by_index, fit_by_index};
use crate::limits::{FARTHEST, LONGEST_BODY, LONGEST_FILL, MOST_CHANGES};
use crate::record::{Changes, Piece, first_piece, u32_at};
use crate::span::{are_apart, length_with, start};
use vbm_ports::{Disk, Failed, LOG_NAME, names_store_file};

fn is_within_limits(piece: &Piece) -> bool
    ensures { IsTrue result ↔ IsWithinLimits (change_in piece.now) }
{
    match *piece {
        Piece::Write { name: _, at, bytes } => !bytes.is_empty() && at <= FARTHEST,
        Piece::Fill {
            name: _,
            at,
            len,
            byte: _,
        } => len > 0 && len <= LONGEST_FILL && at <= FARTHEST,
        Piece::Cut { name: _, len } => len <= FARTHEST,
        Piece::Remove { name: _ } => true,
    }
}

fn is_allowed(piece: &Piece) -> bool
    ensures { IsTrue result ↔ IsAllowed (change_in piece.now) }
{
    let name = piece.name();
    names_store_file(name) && name != LOG_NAME && is_within_limits(piece)
}

/// Whether so many changes fill the bytes, all of them allowed.
fn holds_allowed(body: &[u8], count: u32) -> bool
    ensures { IsTrue result ↔ MatchOption (changes_of count body.now) ⊥ (λ cs. All IsAllowed cs) }
{
    let mut rest = body;
    let mut left = count;
    while left > 0 {
        let Some((piece, next)) = first_piece(rest) else {
            return false;
        };
        if !is_allowed(&piece) {
            return false;
        }
        rest = next;
        left -= 1;
    }
    rest.is_empty()
}

/// The allowed changes of a record that keeps its limits.
fn recorded(text: &[u8]) -> Option<Changes<'_>>
    ensures { MatchOption result ((cs : List Change) → IsRecordOfAllowed text.now cs → ⊥) (λ cs. IsRecordOfAllowed text.now cs) }
{
    if text.len() < 8 {
        return None;
    }
    let n = u32_at(text, 0);
    let count = u32_at(text, 4);
    if n > LONGEST_BODY || count > MOST_CHANGES || text.len() - 8 < n as usize {
        return None;
    }
    if !holds_allowed(&text[8..8 + n as usize], count) {
        return None;
    }
    Some(Changes::of(text))
}

/// Whether a change is apart from all of the later ones.
fn is_apart_from(piece: &Piece, later: Changes) -> bool
    requires allowed { IsAllowed (change_in piece.now) }
    requires short { IsRecordable (change_in piece.now) }
    requires all_allowed { All IsAllowed later }
    ensures { IsTrue result ↔ ApartFrom (change_in piece.now) (of_file (name_of (change_in piece.now)) later.entry) }
{
    let mut left = later;
    while let Some(other) = left.next() {
        if !are_apart(piece, &other) {
            return false;
        }
    }
    true
}

/// Whether no two of the changes touch the same byte.
fn all_apart(changes: Changes) -> bool
    requires { All IsAllowed changes }
    ensures { IsTrue result ↔ ((name : List ℕ) → IsApart (of_file name changes.entry)) }
{
    let mut left = changes;
    while let Some(piece) = left.next() {
        if !is_apart_from(&piece, left.again()) {
            return false;
        }
    }
    true
}

/// The changes of a record. Where there is room for an index of them, it takes about as long as to sort them.
fn planned<'a>(text: &'a [u8], room: &mut [u8]) -> Option<Changes<'a>>
    ensures { MatchOption result ((cs : List Change) → IsRecord text.now cs → ⊥) (λ cs. IsRecord text.now cs) }
{
    let changes = recorded(text)?;
    let apart = match apart_by_index(&changes, room) {
        Some(apart) => apart,
        None => all_apart(changes.again()),
    };
    if !apart {
        return None;
    }
    Some(changes)
}

/// The length that the first of some changes leave a file of this name and length.
fn length_after(name: &[u8], changes: Changes, made: u32, len: u64) -> u64
    requires allowed { All IsAllowed changes }
    requires bound { len ≤ LONGEST_FILE }
    ensures { (file : Option (List ℕ)) → length (bytes_of file) ≡ len
        → length (bytes_of (file_after (of_file name.now (take made changes.entry)) file)) ≡ result }
{
    let mut rest = changes;
    let mut now = len;
    let mut left = made;
    while left > 0 {
        let Some(piece) = rest.next() else {
            return now;
        };
        now = length_if_named(name, &piece, now);
        left -= 1;
    }
    now
}

/// The length that a change leaves a file of this name and length.
fn length_if_named(name: &[u8], piece: &Piece, len: u64) -> u64
    requires allowed { IsAllowed (change_in piece.now) }
    requires short { IsRecordable (change_in piece.now) }
    requires bound { len ≤ LONGEST_FILE }
    ensures length { (file : Option (List ℕ)) → length (bytes_of file) ≡ len
        → length (bytes_of (file_after (of_file name.now (change_in piece.now ∷ [])) file)) ≡ result }
    ensures bound { result ≤ LONGEST_FILE }
{
    if piece.name() != name {
        return len;
    }
    length_with(piece, len)
}

/// Whether a change begins within its file, as the first of some changes leave it. None of them takes that place away, so
/// they are walked only where it lies past the end that the file has now.
fn begins_within<D: Disk>(
    disk: &mut D,
    piece: &Piece,
    changes: Changes,
    made: u32,
) -> Result<bool, Failed>
    requires allowed { IsAllowed (change_in piece.now) }
    requires all_allowed { All IsAllowed changes }
    requires kept { 0 < start_of (change_in piece.now)
        → IsKept (of_file (name_of (change_in piece.now)) (take made changes)) (start_of (change_in piece.now)) }
    ensures answer { D.tells → IfOk result (λ within. IsTrue within
        ↔ start_of (change_in piece.now) ≤ length (bytes_of (changed (take made changes.entry) (D.state disk.old).files (name_of (change_in piece.now))))) }
    ensures reads { OnlyReads D.tells (D.state disk.old) (D.state disk.new) }
    ensures cause { OnErr result (Rose (D.state disk.old).faults (D.state disk.new).faults) }
    ensures no_fault { OnOk result ((D.state disk.new).faults ≡ (D.state disk.old).faults) }
{
    let at = start(piece);
    let len = disk.length(piece.name())?.unwrap_or(0);
    if at <= len {
        return Ok(true);
    }
    Ok(at <= length_after(piece.name(), changes, made, len))
}

/// Whether the changes fit the files.
fn fit<D: Disk>(disk: &mut D, changes: &Changes) -> Result<bool, Failed>
    requires plan { IsPlan changes.now }
    requires few { length changes.now < 2 ^ 32 }
    ensures answer { D.tells → IfOk result (λ fit. IsTrue fit ↔ Fits changes.now (D.state disk.old).files) }
    ensures reads { OnlyReads D.tells (D.state disk.old) (D.state disk.new) }
    ensures cause { OnErr result (Rose (D.state disk.old).faults (D.state disk.new).faults) }
    ensures no_fault { OnOk result ((D.state disk.new).faults ≡ (D.state disk.old).faults) }
{
    let mut left = changes.again();
    let mut made = 0;
    while let Some(piece) = left.next() {
        if !begins_within(disk, &piece, changes.again(), made)? {
            return Ok(false);
        }
        made += 1;
    }
    Ok(true)
}

/// Whether the changes fit the files. Where there is room for an index of them, it takes about as long as to sort them.
fn all_fit<D: Disk>(disk: &mut D, changes: &Changes, room: &mut [u8]) -> Result<bool, Failed>
    requires plan { IsPlan changes.now }
    requires few { length changes.now < 2 ^ 32 }
    ensures answer { D.tells → IfOk result (λ fit. IsTrue fit ↔ Fits changes.now (D.state disk.old).files) }
    ensures reads { OnlyReads D.tells (D.state disk.old) (D.state disk.new) }
    ensures cause { OnErr result (Rose (D.state disk.old).faults (D.state disk.new).faults) }
    ensures no_fault { OnOk result ((D.state disk.new).faults ≡ (D.state disk.old).faults) }
{
    match fit_by_index(disk, changes, room)? {
        Some(fits) => Ok(fits),
        None => fit(disk, changes),
    }
}

/// The changes of a record that fit the files, or none where there is no such record. It takes no memory; `room`
/// is for an index of the changes.
pub(crate) fn pending<'a, D: Disk>(
    disk: &mut D,
    text: &'a [u8],
    room: &mut [u8],
) -> Result<Option<Changes<'a>>, Failed>
    ensures answer { D.tells → IfOk result (λ found. MatchOption found
        ((cs : List Change) → IsRecord text.now cs → Fits cs (D.state disk.old).files → ⊥)
        (λ cs. IsRecord text.now cs × Fits cs (D.state disk.old).files)) }
    ensures plan { IfOk result (λ found. IfSome found (λ cs. IsPlan cs)) }
    ensures reads { OnlyReads D.tells (D.state disk.old) (D.state disk.new) }
    ensures cause { OnErr result (Rose (D.state disk.old).faults (D.state disk.new).faults) }
    ensures no_fault { OnOk result ((D.state disk.new).faults ≡ (D.state disk.old).faults) }
{
    let Some(changes) = planned(text, room) else {
        return Ok(None);
    };
    if !all_fit(disk, &changes, room)? {
        return Ok(None);
    }
    Ok(Some(changes))
}
