//! Words in, lines and a status out.
#![tactic(auto)]

mod commanding;
mod making;
mod peeking;
mod running;
mod saying;
mod scripting;
mod serving;
pub mod status;
mod words;

pub use running::run;
pub use vbm_peek::{PeekResult, peek};
