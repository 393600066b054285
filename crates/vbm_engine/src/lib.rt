//! Stores: opening and making them, and their commands.
#![tactic(auto)]

mod engine;
mod init;
mod machines;
mod managing;
mod opening;
mod recover;
mod step;

pub use engine::{Engine, Made, Opened, Stepped};
pub use init::make_library;
pub use opening::open;
pub use vbm_registry::BadStore;
