//! What a change touches of its file, and what it leaves.

ghost use Rattle.std.specs.Prelude.{◌≡◌, ◌⊎◌, ◌↔◌, ℕ, ◌^◌, ◌≤◌, List, length, Option, IsTrue};
ghost use Rattle.vbm_ports.specs.Files.{bytes_of};
ghost use Rattle.vbm_intent.specs.Changes.{effect, start_of, IsRecordable, IsAllowed};
ghost use Rattle.vbm_intent.specs.Pieces.{change_in};
ghost use Rattle.vbm_intent.specs.Check.{touched_from, touched_to, AreApart};
ghost use Rattle.vbm_intent.specs.Index.{ComesBefore};
ghost use Rattle.vbm_ports.specs.declared.disk.TheConstants.{LONGEST_FILE};

use crate::record::Piece;
use std::cmp::Ordering;

/// The bytes that a change touches, from the first to before `to`. What is cut off or removed has no end.
#[derive(Clone, Copy)]
pub(crate) struct Span {
    pub(crate) from: u64,
    pub(crate) to: u64,
}

impl Span {
    pub(crate) fn of(piece: &Piece) -> Span
        requires allowed { IsAllowed (change_in piece.now) }
        requires short { IsRecordable (change_in piece.now) }
        ensures from { result.from ≡ touched_from (change_in piece.now) }
        ensures to { result.to ≡ touched_to (change_in piece.now) }
    {
        match *piece {
            Piece::Write { name: _, at, bytes } => Span {
                from: at,
                to: at + bytes.len() as u64,
            },
            Piece::Fill {
                name: _,
                at,
                len,
                byte: _,
            } => Span {
                from: at,
                to: at + len,
            },
            Piece::Cut { name: _, len } => Span {
                from: len,
                to: u64::MAX,
            },
            Piece::Remove { name: _ } => Span {
                from: 0,
                to: u64::MAX,
            },
        }
    }

    fn is_apart_from(self, other: Span) -> bool
        ensures { IsTrue result ↔ (self.to ≤ other.from) ⊎ (other.to ≤ self.from) }
    {
        self.to <= other.from || other.to <= self.from
    }
}

/// Whether two changes are of different files, or touch no byte in common.
pub(crate) fn are_apart(first: &Piece, second: &Piece) -> bool
    requires first_allowed { IsAllowed (change_in first.now) }
    requires first_short { IsRecordable (change_in first.now) }
    requires second_allowed { IsAllowed (change_in second.now) }
    requires second_short { IsRecordable (change_in second.now) }
    ensures { IsTrue result ↔ AreApart (change_in first.now) (change_in second.now) }
{
    Span::of(first).is_apart_from(Span::of(second)) || second.name() != first.name()
}

/// Whether a change is of an earlier file, or of the same file and before all that the other touches.
pub(crate) fn comes_before(first: &Piece, second: &Piece) -> bool
    requires first_allowed { IsAllowed (change_in first.now) }
    requires first_short { IsRecordable (change_in first.now) }
    requires second_allowed { IsAllowed (change_in second.now) }
    requires second_short { IsRecordable (change_in second.now) }
    ensures { IsTrue result → ComesBefore (change_in first.now) (change_in second.now) }
{
    match first.name().cmp(second.name()) {
        Ordering::Less => true,
        Ordering::Equal => Span::of(first).to <= Span::of(second).from,
        Ordering::Greater => false,
    }
}

/// The length that a change leaves a file of this length.
pub(crate) fn length_with(piece: &Piece, len: u64) -> u64
    requires allowed { IsAllowed (change_in piece.now) }
    requires short { IsRecordable (change_in piece.now) }
    requires bound { len ≤ LONGEST_FILE }
    ensures length { (file : Option (List ℕ)) → length (bytes_of file) ≡ len
        → length (bytes_of (effect (change_in piece.now) file)) ≡ result }
    ensures bound { result ≤ LONGEST_FILE }
{
    match *piece {
        Piece::Write { name: _, at, bytes } => len.max(at + bytes.len() as u64),
        Piece::Fill {
            name: _,
            at,
            len: n,
            byte: _,
        } => len.max(at + n),
        Piece::Cut { name: _, len: n } => len.min(n),
        Piece::Remove { name: _ } => 0,
    }
}

/// The place from which a change writes.
pub(crate) fn start(piece: &Piece) -> u64
    ensures { result ≡ start_of (change_in piece.now) }
{
    match *piece {
        Piece::Write {
            name: _,
            at,
            bytes: _,
        } => at,
        Piece::Fill {
            name: _,
            at,
            len: _,
            byte: _,
        } => at,
        Piece::Cut { name: _, len: _ } => 0,
        Piece::Remove { name: _ } => 0,
    }
}
