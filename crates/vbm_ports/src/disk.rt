//! A folder of files as the store sees it.

ghost use Rattle.std.specs.Prelude.{◌≡◌, ◌⊎◌, ◌+◌, ◌<◌, ◌≤◌, ℕ, List, length, Option, Some, None, IfOk, OnOk, OnErr, IfSome};
ghost use Rattle.std.specs.Option.{option_map};
ghost use Rattle.vbm_ports.specs.Files.{bytes_of, Reads, IsWritten, IsCut, IsRemoved};
ghost use Rattle.vbm_ports.specs.Names.{IsStoreName};
ghost use Rattle.vbm_ports.specs.Counts.{counted, Rose};
ghost use Rattle.vbm_ports.specs.Crash.{WriteLeaves, CutLeaves, RemoveLeaves, Follows, Only};
ghost use Rattle.vbm_ports.specs.Disk.{DiskState, Passes, CountsCall, OnlyReads, IsCoherent};

use crate::Failed;

/// No file that a call meets is longer, in bytes.
pub const LONGEST_FILE: u64 = 1 << 60;

/// The files of one folder, which nobody else changes.
///
/// Clauses on content hold where the disk tells its files; those on counts, time and causes hold always.
pub trait Disk {
    /// Whether the disk tells what its files hold: always or never, by its type.
    ghost tells: { Type 0 };

    /// The files, what a crash may leave of them, the time and the counts.
    ghost state: { Self → DiskState };

    /// The length of a file in bytes, at most [`LONGEST_FILE`], or `None` where there is no such file.
    fn length(&mut self, name: &[u8]) -> Result<Option<u64>, Failed>
        requires { IsStoreName name.now }
        ensures answer { tells
            → IfOk result (λ len. len ≡ option_map length ((state self.old).files name.now)) }
        ensures bound { IfOk result (λ len. IfSome len (λ n. n ≤ LONGEST_FILE)) }
        ensures reads { OnlyReads tells (state self.old) (state self.new) }
        ensures calls { (state self.new).calls ≡ counted (state self.old).calls }
        ensures cause { OnErr result (Rose (state self.old).faults (state self.new).faults) }
        ensures no_fault { IfOk result (λ _. (state self.new).faults ≡ (state self.old).faults) };

    /// Reads as many bytes as lie at `at` and fit `out`; none where there is no such file. The rest of `out` stays.
    fn read(&mut self, name: &[u8], at: u64, out: &mut [u8]) -> Result<usize, Failed>
        requires { IsStoreName name.now }
        ensures answer { tells
            → IfOk result (λ n. Reads (bytes_of ((state self.old).files name.now)) at out.old out.new n) }
        ensures bound { IfOk result (λ n. n ≤ length out.old) }
        ensures reads { OnlyReads tells (state self.old) (state self.new) }
        ensures calls { (state self.new).calls ≡ counted (state self.old).calls }
        ensures cause { OnErr result (Rose (state self.old).faults (state self.new).faults) }
        ensures no_fault { IfOk result (λ _. (state self.new).faults ≡ (state self.old).faults) };

    /// Puts bytes at a place, at least one, and makes the file if it is absent. A gap before them reads as zeros. A write that
    /// fails may have changed any byte of its range.
    fn write(&mut self, name: &[u8], at: u64, bytes: &[u8]) -> Result<(), Failed>
        requires name { IsStoreName name.now }
        requires some { 0 < length bytes.now }
        requires end { at + length bytes.now ≤ LONGEST_FILE }
        ensures ok { tells
            → OnOk result (IsWritten name.now at bytes.now (state self.old).files (state self.new).files) }
        ensures err { tells
            → OnErr result (WriteLeaves name.now at (length bytes.now) (state self.old).files (state self.old).files (state self.new).files) }
        ensures crash { tells
            → Follows (WriteLeaves name.now at (length bytes.now) (state self.old).files) (state self.old).may_leave (state self.new).may_leave }
        ensures time { Passes (state self.old) (state self.new) (state self.new).may_leave }
        ensures counts { CountsCall (state self.old) (state self.new) }
        ensures cause { OnErr result (Rose (state self.old).faults (state self.new).faults) }
        ensures no_fault { OnOk result ((state self.new).faults ≡ (state self.old).faults) };

    /// Cuts a longer file to a length; a shorter or absent one stays. A cut that fails may have happened.
    fn cut(&mut self, name: &[u8], len: u64) -> Result<(), Failed>
        requires { IsStoreName name.now }
        ensures ok { tells
            → OnOk result (IsCut name.now len (state self.old).files (state self.new).files) }
        ensures err { tells → OnErr result (((state self.new).files ≡ (state self.old).files)
            ⊎ IsCut name.now len (state self.old).files (state self.new).files) }
        ensures crash { tells
            → Follows (CutLeaves name.now len (state self.old).files) (state self.old).may_leave (state self.new).may_leave }
        ensures time { Passes (state self.old) (state self.new) (state self.new).may_leave }
        ensures counts { CountsCall (state self.old) (state self.new) }
        ensures cause { OnErr result (Rose (state self.old).faults (state self.new).faults) }
        ensures no_fault { OnOk result ((state self.new).faults ≡ (state self.old).faults) };

    /// Removes a file; an absent one stays absent. A removal that fails may have happened.
    fn remove(&mut self, name: &[u8]) -> Result<(), Failed>
        requires { IsStoreName name.now }
        ensures ok { tells
            → OnOk result (IsRemoved name.now (state self.old).files (state self.new).files) }
        ensures err { tells → OnErr result (((state self.new).files ≡ (state self.old).files)
            ⊎ IsRemoved name.now (state self.old).files (state self.new).files) }
        ensures crash { tells
            → Follows (RemoveLeaves name.now) (state self.old).may_leave (state self.new).may_leave }
        ensures time { Passes (state self.old) (state self.new) (state self.new).may_leave }
        ensures counts { CountsCall (state self.old) (state self.new) }
        ensures cause { OnErr result (Rose (state self.old).faults (state self.new).faults) }
        ensures no_fault { OnOk result ((state self.new).faults ≡ (state self.old).faults) };

    /// Settles all files and the folder: a crash then leaves what reads give, from the next moment on. A sync that fails settles
    /// nothing.
    fn sync(&mut self) -> Result<(), Failed>
        ensures settled { tells → OnOk result (Only (state self.old).files (state self.new).may_leave) }
        ensures next { tells → OnOk result ((state self.new).moment ≡ (state self.old).moment + 1) }
        ensures reads { OnlyReads tells (state self.old) (state self.new) }
        ensures calls { (state self.new).calls ≡ counted (state self.old).calls }
        ensures cause { OnErr result (Rose (state self.old).faults (state self.new).faults) }
        ensures no_fault { OnOk result ((state self.new).faults ≡ (state self.old).faults) };

    ghost coherent: { (disk : Self) → IsCoherent tells (state disk) };
}
