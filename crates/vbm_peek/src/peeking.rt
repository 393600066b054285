//! One sector of the disk that files hold.

ghost use Rattle.std.specs.Prelude.{◌≤◌, length, map, All, IsTrue};
ghost use Rattle.vbm_header.specs.Header.{condition_number};
ghost use Rattle.vbm_ports.specs.Counts.{IsCounted};
ghost use Rattle.vbm_ports.specs.Disk.{OnlyReads};
ghost use Rattle.vbm_ports.specs.Names.{is_medium_name};
ghost use Rattle.vbm_world.specs.declared.command.Refusal.TheVariants.{NotAnImage};
ghost use Rattle.vbm_peek.specs.Opened.{opened_names, AreOpened, AreOpenedFrom};
ghost use Rattle.vbm_peek.specs.Peek.{all_there, peeked, unless_missing, Tells, peek_failed};

use crate::opening::OpenedFiles;
use std::alloc::Global;
use vbm_header::BadImage;
use vbm_image::OpenFault;
use vbm_ports::{Disk, Failed, Names, Text};
use vbm_world::Refusal;

/// A chain is given by at most so many files.
pub const MOST_FILES: usize = 32;

/// What `peek` answers.
#[derive(Clone, Copy, Debug, PartialEq, Eq)]
pub enum PeekResult {
    /// The bytes of the sector.
    Sector([u8; 512]),
    /// The first refusal that holds.
    Refused(Refusal),
    /// The disk failed.
    Failed,
    /// There was no memory.
    NoMemory,
}

/// Sector `lba`, of 512 bytes, of the disk that files hold, base first. It is refused where a file is not there (08), then where
/// one is no image (09), where the sector is past the capacity of the last (20), and where the files are no chain (28). A name may
/// stand more than once.
pub fn peek<D: Disk>(alloc: Global, disk: &mut D, files: &Names, lba: u64) -> PeekResult
    requires some { 1 ≤ length files.now }
    requires few { length files.now ≤ 32 }
    requires names { All (λ name. IsTrue (is_medium_name name)) files.now }
    ensures exact { D.tells → Tells result (peeked (map (D.state disk.old).files files.now) lba) }
    ensures faults { IsCounted (peek_failed result) (D.state disk.old).faults (D.state disk.new).faults }
    ensures reads { OnlyReads D.tells (D.state disk.old) (D.state disk.new) }
{
    peek_names(alloc, disk, files.as_slice(), lba)
}

/// The same of names that are lent.
pub fn peek_names<D: Disk>(alloc: Global, disk: &mut D, names: &[Text], lba: u64) -> PeekResult
    requires some { 1 ≤ length names.now }
    requires few { length names.now ≤ 32 }
    requires names { All (λ name. IsTrue (is_medium_name name)) names.now }
    ensures exact { D.tells → Tells result (peeked (map (D.state disk.old).files names.now) lba) }
    ensures faults { IsCounted (peek_failed result) (D.state disk.old).faults (D.state disk.new).faults }
    ensures reads { OnlyReads D.tells (D.state disk.old) (D.state disk.new) }
{
    let Ok(mut opened) = OpenedFiles::new(alloc, names.len() as u32) else {
        return PeekResult::NoMemory;
    };
    for (i, name) in names.iter().enumerate() {
        match opened.open(alloc, disk, name.bytes()) {
            Ok(()) => {}
            Err(OpenFault::Missing) => return PeekResult::Refused(Refusal::NoSuchFile),
            Err(OpenFault::Bad(bad)) => return refuse_image(disk, &names[i + 1..], bad),
            Err(OpenFault::Failed) => return PeekResult::Failed,
            Err(OpenFault::NoMemory) => return PeekResult::NoMemory,
        }
    }
    peek_opened(disk, &opened, lba)
}

// Refuses a file that is no image, or one of those above it that is not there, which comes first.
fn refuse_image<D: Disk>(disk: &mut D, above: &[Text], bad: BadImage) -> PeekResult
    requires { All (λ name. IsTrue (is_medium_name name)) above.now }
    ensures exact { D.tells → Tells result
        (unless_missing (all_there (map (D.state disk.old).files above.now)) (NotAnImage (condition_number bad))) }
    ensures faults { IsCounted (peek_failed result) (D.state disk.old).faults (D.state disk.new).faults }
    ensures reads { OnlyReads D.tells (D.state disk.old) (D.state disk.new) }
{
    for name in above {
        match disk.length(name.bytes()) {
            Ok(Some(_)) => {}
            Ok(None) => return PeekResult::Refused(Refusal::NoSuchFile),
            Err(Failed) => return PeekResult::Failed,
        }
    }
    PeekResult::Refused(Refusal::NotAnImage(bad.number()))
}

// A sector of the disk that opened files hold.
fn peek_opened<D: Disk>(disk: &mut D, opened: &OpenedFiles, lba: u64) -> PeekResult
    requires some { 1 ≤ length (opened_names opened.now) }
    requires few { length (opened_names opened.now) ≤ 32 }
    requires opened { AreOpened opened.now }
    requires from { D.tells → AreOpenedFrom (D.state disk.old).files opened.now }
    ensures exact { D.tells → Tells result (peeked (map (D.state disk.old).files (opened_names opened.now)) lba) }
    ensures faults { IsCounted (peek_failed result) (D.state disk.old).faults (D.state disk.new).faults }
    ensures reads { OnlyReads D.tells (D.state disk.old) (D.state disk.new) }
{
    if lba >= opened.sector_count() {
        return PeekResult::Refused(Refusal::OutOfRange);
    }
    if let Some(place) = opened.broken_at() {
        return PeekResult::Refused(Refusal::BrokenChain(place));
    }
    match opened.read_sector(disk, lba) {
        Ok(sector) => PeekResult::Sector(sector),
        Err(Failed) => PeekResult::Failed,
    }
}
