//! Names, lists in their order, and lists whose items have names, each a name of its own.
#![tactic(auto)]

mod by_name;
pub mod names;

pub use by_name::ByName;
pub use names::Named;
