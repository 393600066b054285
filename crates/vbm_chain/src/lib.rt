//! Chains of images, base first: where a chain has its blocks, its sectors, and which images are a chain.
#![tactic(auto)]

mod links;
mod reading;
mod resolving;

pub use links::{LinkFault, check_links};
pub use reading::{copy_up, read_sectors};
pub use resolving::{Place, resolve};
