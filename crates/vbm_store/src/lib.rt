//! The state of an open store: what it serves, what a crash keeps of it, and the pieces of plans.
#![tactic(auto)]

mod changed;
mod decision;
mod images;
mod plans;
mod store;
mod undone;
mod uses;

pub use changed::Changed;
pub use decision::{Decision, Turn};
pub use images::{Edit, Images};
pub use plans::{library_plan, plan_image, plan_library};
pub use store::{Committed, Store};
pub use undone::Undone;
pub use uses::{is_frozen, is_in_use};
