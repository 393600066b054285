//! One sector of the disk that image files hold, which are read as they are, without a library.
#![tactic(auto)]

mod opening;
mod peeking;

pub use peeking::{MOST_FILES, PeekResult, peek, peek_names};
