//! Changes that touch different bytes, with their record.

ghost use Rattle.std.specs.Prelude.{◌≡◌, ◌+◌, ◌^◌, ◌<◌, ◌≤◌, [], ◌∷◌, ◌++◌, length, take, drop, OnOk, OnErr, vec_capacity};
ghost use Rattle.std.specs.Int.{to_le_bytes, w32};
ghost use Rattle.vbm_intent.specs.Changes.{name_of, of_file, IsAllowed, IsApart, IsRecordable};
ghost use Rattle.vbm_intent.specs.Record.{IsRecord, IsPlan, count_of};
ghost use Rattle.vbm_intent.specs.Pieces.{change_in};
ghost use Rattle.vbm_intent.specs.declared.change.Change.TheVariants.{Write, Fill, Cut};
ghost use Rattle.vbm_intent.specs.Plan.{change_bytes, text_size, body_size, record_of, changes_of_record, spare_in, with_change, set_bytes, HasBytesAt, IsPlaceOf, IsWholeRecord};
ghost use Rattle.vbm_intent.specs.declared.limits.TheConstants.{LONGEST_BODY, MOST_CHANGES};

use crate::Change;
use crate::record::{Changes, Piece, first_piece, u32_at};
use std::alloc::Global;
use std::marker::Model;
use vbm_ports::NoMemory;

const EMPTY: &[u8] = &[0; 8];

/// A list of changes that touch different bytes. It keeps the record of them, so that a commit takes no memory.
#[derive(Drop)]
pub struct Plan {
    text: Vec<u8>,
}

impl Model for Plan {
    ghost use Rattle.std.specs.Prelude.{vec_capacity};
    ghost use Rattle.vbm_intent.specs.Plan.{PlanState, record_of, plan_of, spare_in, IsWholeRecord};

    ghost Value = { PlanState };

    ghost view = { λ p. record { changes = plan_of p.text.items; spare = spare_in (vec_capacity p.text) p.text.items } };

    ghost invariant = { λ p. IsWholeRecord (record_of p.text.items) (plan_of p.text.items) };
}

impl Plan {
    /// A plan with no changes. It takes no memory.
    pub fn new(alloc: Global) -> Plan
        ensures { result.changes ≡ [] }
    {
        Plan {
            text: Vec::new(alloc),
        }
    }

    /// Adds a change at the end, or changes nothing. It cannot fail where its bytes fit the room.
    pub fn push(&mut self, change: Change) -> Result<(), NoMemory>
        requires allowed { IsAllowed change }
        requires apart { IsApart (of_file (name_of change) (self.old.changes ++ change ∷ [])) }
        requires small { body_size self.old.changes + text_size change ≤ LONGEST_BODY }
        requires few { length self.old.changes < MOST_CHANGES }
        ensures ok { OnOk result (self.new.changes ≡ self.old.changes ++ change ∷ []) }
        ensures err { OnErr result (self.new ≡ self.old) }
        ensures full { OnErr result (self.old.spare < text_size change) }
        ensures spare { self.old.spare ≤ self.new.spare + text_size change }
    {
        let piece = change.piece();
        reserve_in(&mut self.text, size_of_text(&piece))?;
        push_onto(&mut self.text, &piece);
        Ok(())
    }

    /// Adds a write of these bytes at the end, in the room that is there. It takes no memory.
    pub fn push_write(&mut self, name: &[u8], at: u64, bytes: &[u8])
        requires allowed { IsAllowed (Write name.now at bytes.now) }
        requires recordable { IsRecordable (Write name.now at bytes.now) }
        requires apart { IsApart (of_file name.now (self.old.changes ++ Write name.now at bytes.now ∷ [])) }
        requires small { body_size self.old.changes + text_size (Write name.now at bytes.now) ≤ LONGEST_BODY }
        requires few { length self.old.changes < MOST_CHANGES }
        requires room { text_size (Write name.now at bytes.now) ≤ self.old.spare }
        ensures changes { self.new.changes ≡ self.old.changes ++ Write name.now at bytes.now ∷ [] }
        ensures spare { self.old.spare ≤ self.new.spare + text_size (Write name.now at bytes.now) }
    {
        self.push_in_room(&Piece::Write { name, at, bytes });
    }

    /// Adds the filling of a range with a byte at the end, in the room that is there. It takes no memory.
    pub fn push_fill(&mut self, name: &[u8], at: u64, len: u64, byte: u8)
        requires allowed { IsAllowed (Fill name.now at len byte) }
        requires apart { IsApart (of_file name.now (self.old.changes ++ Fill name.now at len byte ∷ [])) }
        requires small { body_size self.old.changes + text_size (Fill name.now at len byte) ≤ LONGEST_BODY }
        requires few { length self.old.changes < MOST_CHANGES }
        requires room { text_size (Fill name.now at len byte) ≤ self.old.spare }
        ensures changes { self.new.changes ≡ self.old.changes ++ Fill name.now at len byte ∷ [] }
        ensures spare { self.old.spare ≤ self.new.spare + text_size (Fill name.now at len byte) }
    {
        self.push_in_room(&Piece::Fill {
            name,
            at,
            len,
            byte,
        });
    }

    /// Adds a cut at the end, in the room that is there. It takes no memory.
    pub fn push_cut(&mut self, name: &[u8], len: u64)
        requires allowed { IsAllowed (Cut name.now len) }
        requires apart { IsApart (of_file name.now (self.old.changes ++ Cut name.now len ∷ [])) }
        requires small { body_size self.old.changes + text_size (Cut name.now len) ≤ LONGEST_BODY }
        requires few { length self.old.changes < MOST_CHANGES }
        requires room { text_size (Cut name.now len) ≤ self.old.spare }
        ensures changes { self.new.changes ≡ self.old.changes ++ Cut name.now len ∷ [] }
        ensures spare { self.old.spare ≤ self.new.spare + text_size (Cut name.now len) }
    {
        self.push_in_room(&Piece::Cut { name, len });
    }

    // Adds a change at the end, in the room that is there.
    fn push_in_room(&mut self, piece: &Piece)
        requires allowed { IsAllowed (change_in piece.now) }
        requires recordable { IsRecordable (change_in piece.now) }
        requires apart { IsApart (of_file (name_of (change_in piece.now)) (self.old.changes ++ change_in piece.now ∷ [])) }
        requires small { body_size self.old.changes + text_size (change_in piece.now) ≤ LONGEST_BODY }
        requires few { length self.old.changes < MOST_CHANGES }
        requires room { text_size (change_in piece.now) ≤ self.old.spare }
        ensures changes { self.new.changes ≡ self.old.changes ++ change_in piece.now ∷ [] }
        ensures spare { self.old.spare ≤ self.new.spare + text_size (change_in piece.now) }
    {
        push_onto(&mut self.text, piece);
    }

    /// Replaces bytes of the write with this index, from a place in them on. It takes no memory.
    pub fn set(&mut self, change: u32, from: u32, bytes: &[u8])
        requires write { HasBytesAt change from (length bytes.now) self.old.changes }
        ensures set { self.new.changes ≡ set_bytes change from bytes.now self.old.changes }
        ensures spare { self.new.spare ≡ self.old.spare }
    {
        let place = place_in(record_text(&self.text), change);
        put_at(&mut self.text, place + from as usize, bytes);
    }

    /// Makes room for so many more changes with so many bytes, or changes nothing. A change needs no room besides its
    /// bytes, so the number of changes asks for nothing today.
    pub fn reserve(&mut self, _changes: u32, bytes: u32) -> Result<(), NoMemory>
        ensures ok { OnOk result (bytes ≤ self.new.spare) }
        ensures err { OnErr result (self.new ≡ self.old) }
        ensures same { self.new.changes ≡ self.old.changes }
        ensures spare { self.old.spare ≤ self.new.spare }
    {
        reserve_in(&mut self.text, bytes as usize)
    }

    /// How many bytes the changes have in the record.
    pub fn size(&self) -> u32
        ensures { result ≡ body_size self.now.changes }
    {
        self.text.len().saturating_sub(8) as u32
    }

    /// Removes all changes, and keeps the room.
    pub fn clear(&mut self)
        ensures none { self.new.changes ≡ [] }
        ensures spare { self.old.spare + body_size self.old.changes ≤ self.new.spare }
    {
        self.text.clear();
    }

    /// Lends the record.
    pub(crate) fn text(&self) -> &[u8]
        ensures record { IsRecord result.now self.now.changes }
        ensures short { length result.now ≤ LONGEST_BODY + 8 }
    {
        record_text(&self.text)
    }

    /// The changes, in their order.
    pub(crate) fn changes(&self) -> Changes<'_>
        ensures value { result ≡ self.now.changes }
        ensures plan { IsPlan self.now.changes }
    {
        Changes::of(record_text(&self.text))
    }
}

fn record_text(text: &Vec<u8>) -> &[u8]
    ensures { result.now ≡ record_of text.now.items }
{
    if text.is_empty() {
        return EMPTY;
    }
    text
}

// How many bytes a change has in a record.
fn size_of_text(piece: &Piece) -> usize
    requires { text_size (change_in piece.now) ≤ LONGEST_BODY }
    ensures { result ≡ text_size (change_in piece.now) }
{
    match *piece {
        Piece::Write { name, at: _, bytes } => 14 + name.len() + bytes.len(),
        Piece::Fill {
            name,
            at: _,
            len: _,
            byte: _,
        } => 19 + name.len(),
        Piece::Cut { name, len: _ } => 10 + name.len(),
        Piece::Remove { name } => 2 + name.len(),
    }
}

fn reserve_in(text: &mut Vec<u8>, bytes: usize) -> Result<(), NoMemory>
    requires { bytes < 2 ^ 32 }
    ensures items { text.new.items ≡ text.old.items }
    ensures ok { OnOk result (length (record_of text.old.items) + bytes ≤ vec_capacity text.new) }
    ensures err { OnErr result (vec_capacity text.new ≡ vec_capacity text.old) }
    ensures full { OnErr result (vec_capacity text.old < length (record_of text.old.items) + bytes) }
    ensures capacity { vec_capacity text.old ≤ vec_capacity text.new }
{
    let head = if text.is_empty() { 8 } else { 0 };
    match text.reserve(head + bytes) {
        Ok(()) => Ok(()),
        Err(_) => Err(NoMemory),
    }
}

// Appends bytes for which there is room.
fn put(text: &mut Vec<u8>, bytes: &[u8])
    requires room { length text.old.items + length bytes.now ≤ vec_capacity text.old }
    ensures items { text.new.items ≡ text.old.items ++ bytes.now }
    ensures capacity { vec_capacity text.old ≤ vec_capacity text.new }
{
    let _ = text.extend_from_slice(bytes);
}

fn put_name(text: &mut Vec<u8>, kind: u8, name: &[u8])
    requires short { length name.now < 256 }
    requires room { length text.old.items + (2 + length name.now) ≤ vec_capacity text.old }
    ensures items { text.new.items ≡ text.old.items ++ (kind ∷ length name.now ∷ name.now) }
    ensures capacity { vec_capacity text.old ≤ vec_capacity text.new }
{
    put(text, &[kind, name.len() as u8]);
    put(text, name);
}

fn put_change(text: &mut Vec<u8>, piece: &Piece)
    requires short { length (name_of (change_in piece.now)) < 256 }
    requires recordable { IsRecordable (change_in piece.now) }
    requires room { length text.old.items + text_size (change_in piece.now) ≤ vec_capacity text.old }
    ensures items { text.new.items ≡ text.old.items ++ change_bytes (change_in piece.now) }
    ensures capacity { vec_capacity text.old ≤ vec_capacity text.new }
{
    match *piece {
        Piece::Write { name, at, bytes } => {
            put_name(text, 1, name);
            put(text, &at.to_le_bytes());
            put(text, &(bytes.len() as u32).to_le_bytes());
            put(text, bytes);
        }
        Piece::Fill {
            name,
            at,
            len,
            byte,
        } => {
            put_name(text, 2, name);
            put(text, &at.to_le_bytes());
            put(text, &len.to_le_bytes());
            put(text, &[byte]);
        }
        Piece::Cut { name, len } => {
            put_name(text, 3, name);
            put(text, &len.to_le_bytes());
        }
        Piece::Remove { name } => put_name(text, 4, name),
    }
}

// Gives an empty plan the head of its record.
fn put_head(text: &mut Vec<u8>)
    requires room { length (record_of text.old.items) ≤ vec_capacity text.old }
    ensures items { text.new.items ≡ record_of text.old.items }
    ensures capacity { vec_capacity text.old ≤ vec_capacity text.new }
{
    if text.is_empty() {
        put(text, EMPTY);
    }
}

fn set_head(text: &mut [u8], size: u32, count: u32)
    requires { 8 ≤ length text.old }
    ensures { text.new ≡ to_le_bytes w32 size ++ (to_le_bytes w32 count ++ drop 8 text.old) }
{
    text[..4].copy_from_slice(&size.to_le_bytes());
    text[4..8].copy_from_slice(&count.to_le_bytes());
}

// Puts a change behind the record, in the room that is there.
fn push_onto(text: &mut Vec<u8>, piece: &Piece)
    requires head { 8 ≤ length (record_of text.old.items) }
    requires small { length (record_of text.old.items) + text_size (change_in piece.now) ≤ LONGEST_BODY + 8 }
    requires few { count_of (record_of text.old.items) < MOST_CHANGES }
    requires short { length (name_of (change_in piece.now)) < 256 }
    requires recordable { IsRecordable (change_in piece.now) }
    requires room { length (record_of text.old.items) + text_size (change_in piece.now) ≤ vec_capacity text.old }
    ensures items { text.new.items ≡ with_change (record_of text.old.items) (change_in piece.now) }
    ensures capacity { vec_capacity text.old ≤ vec_capacity text.new }
{
    put_head(text);
    let count = u32_at(text, 4) + 1;
    put_change(text, piece);
    let size = text.len() - 8;
    set_head(text, size as u32, count);
}

// Where the bytes of a write lie in a record.
fn place_in(text: &[u8], change: u32) -> usize
    requires record { IsWholeRecord text.now (changes_of_record text.now) }
    requires write { HasBytesAt change 0 0 (changes_of_record text.now) }
    ensures { IsPlaceOf text.now (changes_of_record text.now) change result }
{
    let mut rest = &text[8..];
    let mut left = change;
    while left > 0 {
        let Some((_, next)) = first_piece(rest) else {
            return 0;
        };
        rest = next;
        left -= 1;
    }
    let Some((piece, _)) = first_piece(rest) else {
        return 0;
    };
    text.len() - rest.len() + (14 + piece.name().len())
}

fn copy_at(text: &mut [u8], at: usize, bytes: &[u8])
    requires { at + length bytes.now ≤ length text.old }
    ensures { text.new ≡ take at text.old ++ (bytes.now ++ drop (at + length bytes.now) text.old) }
{
    text[at..at + bytes.len()].copy_from_slice(bytes);
}

fn put_at(text: &mut Vec<u8>, at: usize, bytes: &[u8])
    requires { at + length bytes.now ≤ length text.old.items }
    ensures items { text.new.items ≡ take at text.old.items ++ (bytes.now ++ drop (at + length bytes.now) text.old.items) }
    ensures capacity { vec_capacity text.new ≡ vec_capacity text.old }
{
    copy_at(text, at, bytes);
}
