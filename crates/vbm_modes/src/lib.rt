//! The five modes of a medium, and what each means (Oracle VM VirtualBox User Manual, "Special image write modes"; SDK,
//! `MediumType`).
#![tactic(auto)]

ghost use Rattle.std.specs.Prelude.{◌≡◌};
ghost use Rattle.vbm_modes.specs.Modes.{attach_kind_of, is_locking, is_reset, is_writable};

/// How a medium may be used.
#[derive(Clone, Copy, Debug, PartialEq, Eq)]
pub enum Mode {
    /// Written by one running machine, and part of its snapshots.
    Normal,
    /// Never written: each machine writes to an image of its own, which a start makes empty where autoreset is on.
    Immutable,
    /// Written by one running machine, and no part of its snapshots.
    Writethrough,
    /// Never written: each machine writes to an image of its own, which is kept.
    MultiAttach,
    /// Never written, and read by many machines.
    Readonly,
}

/// Which image a machine uses of a medium that it has.
#[derive(Clone, Copy, Debug, PartialEq, Eq)]
pub enum AttachKind {
    /// The medium's own.
    Direct,
    /// An image of the machine's own, which stands on the medium's.
    Own,
}

/// Which image a machine uses of a medium in this mode.
pub fn attach_kind(mode: Mode) -> AttachKind
    ensures { result ≡ attach_kind_of mode }
{
    match mode {
        Mode::Normal | Mode::Writethrough | Mode::Readonly => AttachKind::Direct,
        Mode::Immutable | Mode::MultiAttach => AttachKind::Own,
    }
}

/// Whether a running machine that uses the medium's own image keeps others from it.
pub fn locks(mode: Mode) -> bool
    ensures { result ≡ is_locking mode }
{
    matches!(mode, Mode::Normal | Mode::Writethrough)
}

/// Whether a start of the machine makes its own image empty, with autoreset on or off.
pub fn resets(mode: Mode, auto: bool) -> bool
    ensures { result ≡ is_reset mode auto }
{
    auto && matches!(mode, Mode::Immutable)
}

/// Whether a guest may write.
pub fn writable(mode: Mode) -> bool
    ensures { result ≡ is_writable mode }
{
    !matches!(mode, Mode::Readonly)
}
