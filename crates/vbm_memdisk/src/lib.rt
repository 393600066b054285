//! A disk, a source and a sink in memory, for tests: they tell their content at every moment, and fail where they are
//! told to.
#![tactic(auto)]

mod disk;
mod events;
mod folder;
mod history;
mod replay;
mod sink;
mod source;

pub use disk::MemDisk;
pub use events::Pick;
pub use sink::MemSink;
pub use source::MemSource;
