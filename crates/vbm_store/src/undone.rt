//! Why something was not done.

use vbm_ports::{Failed, NoMemory};

/// Why something was not done.
#[derive(Drop)]
pub enum Undone<R> {
    /// It was refused for this reason.
    Refused(R),
    /// The disk failed.
    Failed,
    /// There was no memory.
    NoMemory,
}

impl<R> From<Failed> for Undone<R> {
    ghost use Rattle.std.specs.Prelude.{◌≡◌};
    ghost use Rattle.vbm_store.specs.declared.undone.Undone.TheVariants as undone;

    ghost from_gives = { λ _ it. it ≡ undone.Failed };

    fn from(_failed: Failed) -> Undone<R> {
        Undone::Failed
    }
}

impl<R> From<NoMemory> for Undone<R> {
    ghost use Rattle.std.specs.Prelude.{◌≡◌};
    ghost use Rattle.vbm_store.specs.declared.undone.Undone.TheVariants as undone;

    ghost from_gives = { λ _ it. it ≡ undone.NoMemory };

    fn from(_none: NoMemory) -> Undone<R> {
        Undone::NoMemory
    }
}
