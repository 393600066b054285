//! Engines.

use vbm_registry::BadStore;
use vbm_store::Store;
use vbm_world::Answer;

/// A store that is open, with its commands.
#[derive(Drop)]
pub struct Engine {
    pub(crate) store: Store,
}

/// What opening a store gives.
#[derive(Drop)]
pub enum Opened {
    /// The engine of the store.
    Open(Engine),
    /// The first fault of the store.
    Refused(BadStore),
    /// The disk failed.
    Fault,
    /// There was no memory.
    NoMemory,
}

/// What a step hands back.
#[derive(Drop)]
pub enum Stepped {
    /// The engine after the command, and the answer.
    Next(Engine, Answer),
    /// The engine as it was: there was no memory.
    NoMemory(Engine),
    /// The disk failed. The store has to be opened again.
    Broken,
}

/// How the making of a library ended.
#[derive(Drop)]
pub enum Made {
    /// The library is made.
    Done,
    /// The log is bad.
    Refused(BadStore),
    /// There is a library.
    There,
    /// The disk failed.
    Failed,
    /// There was no memory.
    NoMemory,
}
