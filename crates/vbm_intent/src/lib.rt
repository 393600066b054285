//! The gated log: changes of several files, all of them or none, whenever a crash comes.
#![tactic(auto)]

mod apply;
mod change;
mod check;
mod index;
mod limits;
mod log;
mod plan;
mod record;
mod recovery;
mod span;

pub use change::Change;
pub use index::INDEX_ROOM;
pub use limits::{FARTHEST, LOG_HEAD_LEN, LONGEST_BODY, LONGEST_FILL, MOST_CHANGES};
pub use log::Log;
pub use plan::Plan;
pub use recovery::{Redone, record_size, redo};
