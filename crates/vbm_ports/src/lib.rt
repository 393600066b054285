//! What the program stands on outside: a disk, a source of input and a sink for output.
//!
//! The traits say what each call means, when it fails, and what a crash leaves. `FolderDisk`, `StdinSource` and
//! `StdoutSink` are the real ones, which tell nothing of content.
#![tactic(auto)]

mod copied;
mod disk;
mod folder;
mod names;
mod retried;
mod sequence;
mod standard;
mod stream;

pub use copied::Copied;
pub use disk::{Disk, LONGEST_FILE};
pub use folder::FolderDisk;
pub use names::{
    LIBRARY_NAME, LOG_NAME, LONGEST_NAME, LONGEST_SHORT_NAME, names_machine, names_medium,
    names_store_file,
};
pub use sequence::{Bytes, Names, Sequence, Text};
pub use standard::{StdinSource, StdoutSink};
pub use stream::{Sink, Source, put_all};

/// There was no memory.
#[derive(Clone, Copy, Debug, PartialEq, Eq)]
pub struct NoMemory;

/// A device failed.
#[derive(Clone, Copy, Debug, PartialEq, Eq)]
pub struct Failed;
