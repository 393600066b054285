//! The commands on media: making, opening and closing them, and asking for them.
#![tactic(auto)]

mod ask;
mod close;
mod create;
mod register;

pub use ask::{answer_list, answer_show};
pub use close::{check_close, plan_close};
pub use create::{check_create, plan_create};
pub use register::{check_open, plan_open};
