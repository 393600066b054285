//! What an image file holds: which files are accepted, and the sectors of their disks.
#![tactic(auto)]

mod fault;
mod flat;
mod image;
mod made;
mod map;
mod marks;
mod positions;
mod tally;

pub use fault::MapFault;
pub use flat::{Flat, Sector, Variant, Volume};
pub use image::read_image;
pub use made::{header_over, making_header, new_header};
pub use map::{read_map, read_words};
pub use marks::Marks;
pub use positions::word_at;
