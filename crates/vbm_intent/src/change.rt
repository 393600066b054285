//! One change of one file.

ghost use Rattle.std.specs.Prelude.{◌≡◌};
ghost use Rattle.vbm_intent.specs.Pieces.{change_in};

use crate::record::Piece;
use vbm_ports::{Bytes, Text};

/// A change of one file. Places and lengths are in bytes.
#[derive(Drop)]
pub enum Change {
    /// Puts bytes at a place.
    Write {
        name: Text,
        at: u64,
        bytes: Bytes,
    },
    /// Puts `len` times the same byte at a place.
    Fill {
        name: Text,
        at: u64,
        len: u64,
        byte: u8,
    },
    /// Cuts a longer file to a length; a shorter or absent one stays.
    Cut {
        name: Text,
        len: u64,
    },
    /// Removes a file; an absent one stays absent.
    Remove {
        name: Text,
    },
}

impl Change {
    /// Lends the change as a record's.
    pub(crate) fn piece(&self) -> Piece<'_>
        ensures { change_in result ≡ self.now }
    {
        match self {
            Change::Write { name, at, bytes } => Piece::Write {
                name: name.bytes(),
                at: *at,
                bytes: bytes.as_slice(),
            },
            Change::Fill {
                name,
                at,
                len,
                byte,
            } => Piece::Fill {
                name: name.bytes(),
                at: *at,
                len: *len,
                byte: *byte,
            },
            Change::Cut { name, len } => Piece::Cut {
                name: name.bytes(),
                len: *len,
            },
            Change::Remove { name } => Piece::Remove { name: name.bytes() },
        }
    }
}
