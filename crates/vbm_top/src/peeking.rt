//! The command `peek`.

ghost use Rattle.std.specs.Prelude.{◌≡◌, ◌≤◌, length, map, false, Ok, IsTrue, All};
ghost use Rattle.vbm_ports.specs.Counts.{IsCounted};
ghost use Rattle.vbm_ports.specs.Disk.{OnlyReads};
ghost use Rattle.vbm_ports.specs.Names.{is_medium_name};
ghost use Rattle.vbm_peek.specs.Peek.{peeked, Tells, Peeked, peek_failed, answer_of};
ghost use Rattle.vbm_top.specs.Statuses.{is_disk_fault};
ghost use Rattle.vbm_top.specs.Streams.{stream};
ghost use Rattle.vbm_top.specs.Run.{PeekEnds};

use crate::saying::write_answer;
use crate::status::Status;
use std::alloc::Global;
use vbm_peek::{PeekResult, peek_names};
use vbm_ports::{Bytes, Disk, Sink, Text};
use vbm_world::Answer;

/// Writes the bytes of a sector.
fn write_sector<K: Sink>(alloc: Global, sink: &mut K, sector: &[u8]) -> Status
    ensures ends { PeekEnds (answer_of (Ok sector.now)) (stream K.tells K.written K.faults sink.old sink.new) result }
    ensures not_disk { is_disk_fault result ≡ false }
{
    match Bytes::from_slice(alloc, sector) {
        Ok(bytes) => write_answer(alloc, sink, &Answer::Sectors(bytes)),
        Err(_) => Status::NoMemory,
    }
}

/// Writes what `peek` answers.
fn write_found<K: Sink>(alloc: Global, sink: &mut K, found: &PeekResult) -> Status
    ensures ends { (asked : Peeked) → Tells found.now asked
        → PeekEnds (answer_of asked) (stream K.tells K.written K.faults sink.old sink.new) result }
    ensures disk { is_disk_fault result ≡ peek_failed found.now }
{
    match found {
        PeekResult::Sector(sector) => write_sector(alloc, sink, sector),
        PeekResult::Refused(refusal) => write_answer(alloc, sink, &Answer::Refused(*refusal)),
        PeekResult::Failed => Status::DiskFault,
        PeekResult::NoMemory => Status::NoMemory,
    }
}

/// Does `peek` of files, base first.
pub(crate) fn do_peek<D: Disk, K: Sink>(
    alloc: Global,
    disk: &mut D,
    sink: &mut K,
    names: &[Text],
    lba: u64,
) -> Status
    requires some { 1 ≤ length names.now }
    requires few { length names.now ≤ 32 }
    requires media { All (λ name. IsTrue (is_medium_name name)) names.now }
    ensures ends { (found : Peeked) × (D.tells → found ≡ peeked (map (D.state disk.old).files names.now) lba)
        × PeekEnds (answer_of found) (stream K.tells K.written K.faults sink.old sink.new) result }
    ensures reads { OnlyReads D.tells (D.state disk.old) (D.state disk.new) }
    ensures faults { IsCounted (is_disk_fault result) (D.state disk.old).faults (D.state disk.new).faults }
{
    let found = peek_names(alloc, disk, names, lba);
    write_found(alloc, sink, &found)
}
