//! The library of a store: its media, inner images and machines, and the file that lists them.
#![tactic(auto)]

mod cursor;
mod decoding;
mod edits;
mod encoding;
mod entry_names;
mod fault;
mod features;
mod inner_entries;
mod library;
mod library_fields;
mod lists;
mod machine_entries;
mod media;
mod medium_entries;
mod parents;
mod places;
mod renumbered;
mod slot_entries;
mod snapshot_entries;
mod stacking;
mod tallies;

pub use decoding::{decode, decode_with};
pub use encoding::encode;
pub use fault::{BadStore, DecodeFault};
pub use features::{BUILT, Features};
pub use library::{ImageRef, Inner, Inners, LONGEST_LIBRARY, Library, Merging, Mergings};
pub use media::{Media, Medium};
