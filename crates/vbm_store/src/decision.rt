//! What is to be done for a command.

use crate::images::Edit;
use vbm_intent::Plan;
use vbm_registry::Library;
use vbm_world::Answer;

/// What a command makes of a store.
#[derive(Drop)]
pub struct Turn {
    /// The library from then on.
    pub library: Library,
    /// What becomes of the images.
    pub edit: Edit,
    /// What becomes of the files, which may be nothing.
    pub plan: Plan,
    /// The answer, once the plan is committed.
    pub answer: Answer,
}

/// What is to be done for a command that is not refused.
#[derive(Drop)]
pub enum Decision {
    /// The answer is given, and the store stays as it is.
    Answer(Answer),
    /// The turn is committed.
    Turn(Turn),
}
