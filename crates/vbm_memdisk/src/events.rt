//! What happened to the files of a disk in memory.

ghost use Rattle.std.specs.Prelude.{◌+◌, ◌^◌, ◌≤◌, length};
ghost use Rattle.vbm_ports.specs.declared.disk.TheConstants.{LONGEST_FILE};

use vbm_ports::{Bytes, Text};

/// Which bytes a crash leaves where it may leave any.
#[derive(Clone, Copy, Debug, PartialEq, Eq)]
pub enum Pick {
    /// Those at the last sync that succeeded.
    Old,
    /// Those that reads give.
    New,
    /// This byte, all over each range that was written since the last sync.
    Byte(u8),
}

/// Bytes that were written at a place, of which the first `kept` are read.
#[derive(Drop)]
pub(crate) struct Write {
    pub(crate) name: Text,
    pub(crate) at: u64,
    pub(crate) bytes: Bytes,
    pub(crate) kept: usize,
    ghost part: { kept ≤ length bytes },
    ghost end: { at + length bytes ≤ LONGEST_FILE },
}

/// A whole file that was put.
#[derive(Drop)]
pub(crate) struct Whole {
    pub(crate) name: Text,
    pub(crate) bytes: Bytes,
    ghost short: { length bytes ≤ LONGEST_FILE },
}

/// A change of files, or a sync.
#[derive(Drop)]
pub(crate) enum Event {
    Wrote(Write),
    Cut { name: Text, len: u64 },
    Removed { name: Text },
    Synced,
    Put(Whole),
}
