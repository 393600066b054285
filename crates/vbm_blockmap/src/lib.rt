//! What the block map of an image says of blocks: its entries, those that wait for a commit, and the positions that entries have.
#![tactic(auto)]

mod checking;
mod entry;
mod pending;
mod used;

pub use checking::check_map;
pub use entry::{Entry, entry_of, word_of};
pub use pending::Pending;
pub use used::{POSITION_LIMIT, Used};
