//! Commands as words, and answers as texts.
#![tactic(auto)]

mod answers;
mod chains;
mod cloning;
mod digits;
mod machines;
mod media;
mod modifying;
mod parsing;
mod places;
mod printing;
mod refusals;
mod sectors;
mod snapshots;
mod tails;
mod texts;
mod values;
mod writing;

pub use answers::answer_text;
pub use parsing::{ParseFault, parse, parse_form, parse_words};
pub use printing::print;
