//! The commands on machines with slots, and on the modes of media: each slot shares its medium's disk.
#![tactic(auto)]

mod machines;
mod modes;
mod running;
mod slots;

pub use machines::{
    answer_list_vms, check_create_vm, check_unregister_vm, plan_create_vm, plan_unregister_vm,
};
pub use modes::{check_mode, plan_mode};
pub use running::{check_power_off, check_start, plan_power_off, plan_start};
pub use slots::{check_attach, check_detach, plan_attach, plan_detach};
