//! Guest reads, writes, fills and flushes of the disk of a chain, whose last image has staged entries.
#![tactic(auto)]

mod flushing;
mod memory;
mod parts;
mod planning;
mod preparing;
mod reading;
mod runs;
mod writing;

pub use flushing::{guest_flush, settle_if_full};
pub use memory::WriteFault;
pub use reading::guest_read;
pub use writing::{guest_fill, guest_write, write_sectors};
