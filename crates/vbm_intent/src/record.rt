//! Changes that lie in the bytes of a record.

ghost use Rattle.std.specs.Prelude.{◌≡◌, ◌+◌, ◌≤◌, ℕ, List, [], ◌∷◌, Option, Some, None, MatchOption, IsSome, IfSome, length, take, drop};
ghost use Rattle.std.specs.Int.{from_le_bytes, w32, w64};
ghost use Rattle.vbm_intent.specs.Changes.{name_of, IsRecordable};
ghost use Rattle.vbm_intent.specs.Record.{split_off, changes_of, change_of, changes_in};
ghost use Rattle.vbm_intent.specs.Pieces.{change_in};

use std::marker::Model;

/// One change of a record, which lends its name and bytes.
#[derive(Clone, Copy, Debug)]
pub(crate) enum Piece<'a> {
    Write {
        name: &'a [u8],
        at: u64,
        bytes: &'a [u8],
    },
    Fill {
        name: &'a [u8],
        at: u64,
        len: u64,
        byte: u8,
    },
    Cut {
        name: &'a [u8],
        len: u64,
    },
    Remove {
        name: &'a [u8],
    },
}

impl<'a> Piece<'a> {
    /// Lends the name of the file.
    pub(crate) fn name(&self) -> &'a [u8]
        ensures { result.now ≡ name_of (change_in self.now) }
    {
        match self {
            Piece::Write {
                name,
                at: _,
                bytes: _,
            } => name,
            Piece::Fill {
                name,
                at: _,
                len: _,
                byte: _,
            } => name,
            Piece::Cut { name, len: _ } => name,
            Piece::Remove { name } => name,
        }
    }
}

/// The changes that are left to read of a record's body.
#[derive(Drop)]
pub(crate) struct Changes<'a> {
    count: u32,
    body: &'a [u8],
}

impl<'a> Model for Changes<'a> {
    ghost use Rattle.std.specs.Prelude.{List, [], ◌≡◌, Some, unwrap_or};
    ghost use Rattle.vbm_intent.specs.Record.{changes_of};
    ghost use Rattle.vbm_intent.specs.declared.change.Change.{Change};

    ghost Value = { List Change };

    ghost view = { λ c. unwrap_or (changes_of c.count c.body.now) [] };

    ghost invariant = { λ c. changes_of c.count c.body.now ≡ Some (unwrap_or (changes_of c.count c.body.now) []) };
}

impl<'a> Changes<'a> {
    /// The changes of a record.
    pub(crate) fn of(text: &'a [u8]) -> Changes<'a>
        requires { IsSome (changes_in text.now) }
        ensures { changes_in text.now ≡ Some result }
    {
        let n = u32_at(text, 0) as usize;
        Changes {
            count: u32_at(text, 4),
            body: &text[8..8 + n],
        }
    }

    /// Their count, and the bytes that they fill.
    pub(crate) fn parts(&self) -> (u32, &'a [u8])
        ensures { changes_of result.0 result.1.now ≡ Some self.now }
    {
        (self.count, self.body)
    }

    /// The same changes, to be read once more.
    pub(crate) fn again(&self) -> Changes<'a>
        ensures { result ≡ self.now }
    {
        Changes {
            count: self.count,
            body: self.body,
        }
    }

    /// The next change, or none at the end.
    pub(crate) fn next(&mut self) -> Option<Piece<'a>>
        ensures next { MatchOption result ((self.old ≡ [])
            × (self.new ≡ [])) (λ piece. self.old ≡ change_in piece ∷ self.new) }
        ensures size { IfSome result (λ piece. IsRecordable (change_in piece)) }
    {
        if self.count == 0 {
            return None;
        }
        let (piece, rest) = first_piece(self.body)?;
        self.count -= 1;
        self.body = rest;
        Some(piece)
    }
}

/// The number at a place.
pub(crate) fn u32_at(bytes: &[u8], at: usize) -> u32
    requires { at + 4 ≤ length bytes.now }
    ensures { result ≡ from_le_bytes w32 (take 4 (drop at bytes.now)) }
{
    let mut word = [0u8; 4];
    word.copy_from_slice(&bytes[at..at + 4]);
    u32::from_le_bytes(word)
}

fn split_piece(bytes: &[u8], n: usize) -> Option<(&[u8], &[u8])>
    ensures parts { MatchOption result (split_off n bytes.now ≡ None) (λ r. split_off n bytes.now ≡ Some (r.0.now, r.1.now)) }
    ensures size { IfSome result (λ r. length r.0.now ≡ n) }
{
    if bytes.len() < n {
        return None;
    }
    Some((&bytes[..n], &bytes[n..]))
}

fn take_u64(bytes: &[u8]) -> Option<(u64, &[u8])>
    ensures { MatchOption result (split_off 8 bytes.now ≡ None)
        (λ r. (split_off 8 bytes.now ≡ Some (take 8 bytes.now, r.1.now)) × (r.0 ≡ from_le_bytes w64 (take 8 bytes.now))) }
{
    if bytes.len() < 8 {
        return None;
    }
    let mut word = [0u8; 8];
    word.copy_from_slice(&bytes[..8]);
    Some((u64::from_le_bytes(word), &bytes[8..]))
}

fn take_u32(bytes: &[u8]) -> Option<(u32, &[u8])>
    ensures { MatchOption result (split_off 4 bytes.now ≡ None)
        (λ r. (split_off 4 bytes.now ≡ Some (take 4 bytes.now, r.1.now)) × (r.0 ≡ from_le_bytes w32 (take 4 bytes.now))) }
{
    if bytes.len() < 4 {
        return None;
    }
    Some((u32_at(bytes, 0), &bytes[4..]))
}

/// The first change of these bytes, and what is behind it.
pub(crate) fn first_piece(bytes: &[u8]) -> Option<(Piece<'_>, &[u8])>
    ensures parts { MatchOption result (change_of bytes.now ≡ None) (λ r. change_of bytes.now ≡ Some (change_in r.0, r.1.now)) }
    ensures size { IfSome result (λ r. IsRecordable (change_in r.0)) }
{
    let [kind, n, rest @ ..] = bytes else {
        return None;
    };
    let (name, rest) = split_piece(rest, *n as usize)?;
    match *kind {
        1 => {
            let (at, rest) = take_u64(rest)?;
            let (len, rest) = take_u32(rest)?;
            let (bytes, rest) = split_piece(rest, len as usize)?;
            Some((Piece::Write { name, at, bytes }, rest))
        }
        2 => {
            let (at, rest) = take_u64(rest)?;
            let (len, rest) = take_u64(rest)?;
            let [byte, rest @ ..] = rest else {
                return None;
            };
            Some((
                Piece::Fill {
                    name,
                    at,
                    len,
                    byte: *byte,
                },
                rest,
            ))
        }
        3 => {
            let (len, rest) = take_u64(rest)?;
            Some((Piece::Cut { name, len }, rest))
        }
        4 => Some((Piece::Remove { name }, rest)),
        _ => None,
    }
}
