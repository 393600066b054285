//! One image: its file, with the entries that wait for a commit.
#![tactic(auto)]

mod creating;
mod image;
mod images;
mod naming;
mod opening;
mod settling;
mod staging;

pub use creating::plan_create;
pub use image::{Image, entry, read_in_block, write_in_block};
pub use images::Images;
pub use naming::inner_name;
pub use opening::{OpenFault, open_image};
pub use settling::{plan_pending, push_pending, take_as_settled};
pub use staging::{load_used, stage_block};
