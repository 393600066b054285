//! Why the program ends early.

use std::alloc::{AllocError, AllocFailed};
use vbm_ports::NoMemory;

/// Why the program ends early.
#[derive(Drop)]
pub(crate) enum Ended {
    /// Something is wrong with the line of the text that is being read.
    Here(&'static str),
    /// Something is wrong with a line of the text, by its number from 1.
    At(usize, &'static str),
    /// There was no memory.
    Memory,
    /// Standard input did not give text.
    Input,
    /// Standard output failed.
    Output,
}

impl From<AllocError> for Ended {
    fn from(_none: AllocError) -> Ended {
        Ended::Memory
    }
}

impl<T: Drop> From<AllocFailed<T>> for Ended {
    fn from(_none: AllocFailed<T>) -> Ended {
        Ended::Memory
    }
}

impl From<NoMemory> for Ended {
    fn from(_none: NoMemory) -> Ended {
        Ended::Memory
    }
}
