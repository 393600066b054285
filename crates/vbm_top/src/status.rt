//! The statuses that a run ends with.

ghost use Rattle.std.specs.Prelude.{◌≡◌};
ghost use Rattle.vbm_top.specs.Statuses.{code_of, ends_run, worse};

/// No answer is a refusal.
pub const DONE: u8 = 0;

/// Some answer is a refusal.
pub const REFUSED: u8 = 1;

/// The words are no command.
pub const NO_FORM: u8 = 2;

/// The disk failed.
pub const DISK_FAULT: u8 = 3;

/// The source of input failed.
pub const INPUT_FAULT: u8 = 4;

/// The sink for output failed.
pub const OUTPUT_FAULT: u8 = 5;

/// There was no memory.
pub const NO_MEMORY: u8 = 6;

/// The store is refused.
pub const STORE_REFUSED: u8 = 7;

/// The input is longer than a run takes.
pub const INPUT_TOO_LONG: u8 = 8;

/// How a run ends.
#[derive(Clone, Copy, Debug, PartialEq, Eq)]
pub(crate) enum Status {
    /// No answer is a refusal.
    Done,
    /// Some answer is a refusal.
    Refused,
    /// The words are no command.
    NoForm,
    /// The disk failed.
    DiskFault,
    /// The source of input failed.
    InputFault,
    /// The sink for output failed.
    OutputFault,
    /// There was no memory.
    NoMemory,
    /// The store is refused.
    StoreRefused,
    /// The input is longer than a run takes.
    InputTooLong,
}

impl Status {
    /// The number of a status.
    pub(crate) fn code(self) -> u8
        ensures { result ≡ code_of self }
    {
        match self {
            Status::Done => DONE,
            Status::Refused => REFUSED,
            Status::NoForm => NO_FORM,
            Status::DiskFault => DISK_FAULT,
            Status::InputFault => INPUT_FAULT,
            Status::OutputFault => OUTPUT_FAULT,
            Status::NoMemory => NO_MEMORY,
            Status::StoreRefused => STORE_REFUSED,
            Status::InputTooLong => INPUT_TOO_LONG,
        }
    }

    /// Whether no more lines are answered behind a line with this status.
    pub(crate) fn ends_run(self) -> bool
        ensures { result ≡ ends_run self }
    {
        !matches!(self, Status::Done | Status::Refused)
    }

    /// The status of answers with this one and of later ones with that one.
    pub(crate) fn worse(self, later: Status) -> Status
        ensures { result ≡ worse self later }
    {
        match self {
            Status::Done => later,
            _ => self,
        }
    }
}
