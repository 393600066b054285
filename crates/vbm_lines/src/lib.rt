//! The lines of a source, the words of a line, and the numbers and bytes that words spell.
#![tactic(auto)]

mod hexadecimal;
mod lines;
mod numbers;
mod reader;
mod window;

pub use hexadecimal::hex_bytes;
pub use lines::{LONGEST_LINE, words_of};
pub use numbers::decimal;
pub use reader::{Lines, Next};
use vbm_ports::{Sequence, Text};

/// A list of words.
pub type Words = Sequence<Text>;
