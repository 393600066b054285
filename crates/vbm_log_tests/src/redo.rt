//! Redo with more and less room.

use std::alloc::Global;
use std::process::Abort;
use std::test::Fail;
use vbm_intent::{INDEX_ROOM, Redone, record_size, redo};
use vbm_memdisk::{MemDisk, Pick};
use vbm_ports::Failed;

const LOG: &[u8] = b"intent.vbm";

/// How redo ended.
#[derive(Clone, Copy, Debug, PartialEq, Eq)]
pub(crate) enum End {
    Done,
    Failed,
    BadLog,
}

fn end_of(redone: Redone) -> End {
    match redone {
        Redone::Done(_) => End::Done,
        Redone::Failed => End::Failed,
        Redone::BadLog => End::BadLog,
    }
}

/// Redoes the log of a disk, with the room that its record needs, and so many bytes for an index of its changes.
pub(crate) fn redo_log(alloc: Global, disk: &mut MemDisk, room: u32) -> Result<End, Fail> {
    let Ok(size) = record_size(disk) else {
        return Ok(End::Failed);
    };
    let Some(n) = size else {
        return Ok(end_of(redo(disk, &mut [])));
    };
    let mut buf = vec![in alloc; 0u8; n as usize + room as usize + 16]?;
    Ok(end_of(redo(disk, &mut buf)))
}

/// Whether the files but the log are the same on both disks.
pub(crate) fn same_besides_log(one: &MemDisk, other: &MemDisk) -> bool {
    ["a.vdi", "b.vdi", "c.vdi", "d.vdi", "e.vdi"].iter().all(|name| one.file(name.as_bytes())
        == other.file(name.as_bytes()))
}

fn disk_of_log(rt: &impl Abort, alloc: Global, log: &[u8]) -> Result<MemDisk, Fail> {
    let mut disk = MemDisk::new(alloc);
    disk.put_file(b"a.vdi", b"abcd")?;
    disk.put_file(b"b.vdi", b"xy")?;
    assert!(rt; log.len() < 1 << 30);
    disk.put_file(LOG, log)?;
    Ok(disk)
}

/// Logs of several changes, bad ones and good ones. What the program makes of them, with room for an index, is in
/// `tests/lab/logs.txt`.
static LOGS: [&[u8]; 27] = [
    // A byte that is written twice.
    b"\xa5\0\0\0\0\0\0\0(\0\0\0\x02\0\0\0\x01\x05a.vdi\x01\0\0\0\0\0\0\0\x01\0\0\01\x01\x05a.vdi\x01\0\0\0\0\0\0\0\x01\0\0\01",
    // A write over the end of another.
    b"\xa5\0\0\0\0\0\0\0+\0\0\0\x02\0\0\0\x01\x05a.vdi\0\0\0\0\0\0\0\0\x03\0\0\0123\x01\x05a.vdi\x02\0\0\0\0\0\0\0\x02\0\0\045",
    // A write over the beginning of another.
    b"\xa5\0\0\0\0\0\0\0+\0\0\0\x02\0\0\0\x01\x05a.vdi\x02\0\0\0\0\0\0\0\x02\0\0\045\x01\x05a.vdi\0\0\0\0\0\0\0\0\x03\0\0\0123",
    // Writes that overlap, with a removal between.
    b"\xa5\0\0\0\0\0\0\00\0\0\0\x03\0\0\0\x01\x05a.vdi\0\0\0\0\0\0\0\0\x02\0\0\012\x04\x05b.vdi\x01\x05a.vdi\x01\0\0\0\0\0\0\0\x01\0\0\03",
    // A fill and a write that overlap.
    b"\xa5\0\0\0\0\0\0\0,\0\0\0\x02\0\0\0\x02\x05a.vdi\0\0\0\0\0\0\0\0\x04\0\0\0\0\0\0\0\x01\x01\x05a.vdi\x03\0\0\0\0\0\0\0\x01\0\0\01",
    // A write over a cut's end.
    b"\xa5\0\0\0\0\0\0\0$\0\0\0\x02\0\0\0\x01\x05a.vdi\x02\0\0\0\0\0\0\0\x02\0\0\012\x03\x05a.vdi\x03\0\0\0\0\0\0\0",
    // A write at a cut's end.
    b"\xa5\0\0\0\0\0\0\0#\0\0\0\x02\0\0\0\x03\x05a.vdi\x03\0\0\0\0\0\0\0\x01\x05a.vdi\x03\0\0\0\0\0\0\0\x01\0\0\01",
    // Two cuts.
    b"\xa5\0\0\0\0\0\0\0\x1e\0\0\0\x02\0\0\0\x03\x05a.vdi\x03\0\0\0\0\0\0\0\x03\x05a.vdi\x02\0\0\0\0\0\0\0",
    // Two cuts past the end.
    b"\xa5\0\0\0\0\0\0\0\x1e\0\0\0\x02\0\0\0\x03\x05a.vdi\x05\0\0\0\0\0\0\0\x03\x05a.vdi\0\0\0\0\0\0 \0",
    // A write and a removal of one file.
    b"\xa5\0\0\0\0\0\0\0\x1b\0\0\0\x02\0\0\0\x01\x05a.vdi\0\0\0\0\0\0\0\0\x01\0\0\01\x04\x05a.vdi",
    // A removal and a write of one file.
    b"\xa5\0\0\0\0\0\0\0\x1b\0\0\0\x02\0\0\0\x04\x05a.vdi\x01\x05a.vdi\0\0\0\0\0\0\0\0\x01\0\0\01",
    // A cut and a removal of one file.
    b"\xa5\0\0\0\0\0\0\0\x16\0\0\0\x02\0\0\0\x03\x05a.vdi\x03\0\0\0\0\0\0\0\x04\x05a.vdi",
    // Two removals of one file.
    b"\xa5\0\0\0\0\0\0\0\x0e\0\0\0\x02\0\0\0\x04\x05a.vdi\x04\x05a.vdi",
    // A fill past the end, behind other changes.
    b"\xa5\0\0\0\0\0\0\0;\0\0\0\x03\0\0\0\x01\x05b.vdi\0\0\0\0\0\0\0\0\x01\0\0\01\x03\x05a.vdi\x03\0\0\0\0\0\0\0\x02\x05b.vdi\x03\0\0\0\0\0\0\0\x01\0\0\0\0\0\0\0\x01",
    // A write past an end that a later one moves.
    b"\xa5\0\0\0\0\0\0\0(\0\0\0\x02\0\0\0\x01\x05a.vdi\x05\0\0\0\0\0\0\0\x01\0\0\0f\x01\x05a.vdi\x04\0\0\0\0\0\0\0\x01\0\0\0e",
    // A write past the end, behind one of another file.
    b"\xa5\0\0\0\0\0\0\0+\0\0\0\x02\0\0\0\x01\x05b.vdi\x02\0\0\0\0\0\0\0\x04\0\0\0zzzz\x01\x05a.vdi\x05\0\0\0\0\0\0\0\x01\0\0\01",
    // Writes that touch.
    b"\xa5\0\0\0\0\0\0\0(\0\0\0\x02\0\0\0\x01\x05a.vdi\x01\0\0\0\0\0\0\0\x01\0\0\01\x01\x05a.vdi\x02\0\0\0\0\0\0\0\x01\0\0\02",
    // Writes that touch, the later first.
    b"\xa5\0\0\0\0\0\0\0(\0\0\0\x02\0\0\0\x01\x05a.vdi\x02\0\0\0\0\0\0\0\x01\0\0\02\x01\x05a.vdi\x01\0\0\0\0\0\0\0\x01\0\0\01",
    // The same place in two files.
    b"\xa5\0\0\0\0\0\0\0(\0\0\0\x02\0\0\0\x01\x05a.vdi\0\0\0\0\0\0\0\0\x01\0\0\01\x01\x05b.vdi\0\0\0\0\0\0\0\0\x01\0\0\02",
    // A write up to a cut.
    b"\xa5\0\0\0\0\0\0\0$\0\0\0\x02\0\0\0\x01\x05a.vdi\x01\0\0\0\0\0\0\0\x02\0\0\012\x03\x05a.vdi\x03\0\0\0\0\0\0\0",
    // A fill up to a cut.
    b"\xa5\0\0\0\0\0\0\0'\0\0\0\x02\0\0\0\x03\x05a.vdi\x03\0\0\0\0\0\0\0\x02\x05a.vdi\x01\0\0\0\0\0\0\0\x02\0\0\0\0\0\0\0\0",
    // A place that a write makes.
    b"\xa5\0\0\0\0\0\0\0)\0\0\0\x02\0\0\0\x01\x05a.vdi\x03\0\0\0\0\0\0\0\x02\0\0\0de\x01\x05a.vdi\x05\0\0\0\0\0\0\0\x01\0\0\0f",
    // A place that a fill makes.
    b"\xa5\0\0\0\0\0\0\0,\0\0\0\x02\0\0\0\x02\x05c.vdi\0\0\0\0\0\0\0\0\x02\0\0\0\0\0\0\0\x07\x01\x05c.vdi\x02\0\0\0\0\0\0\0\x01\0\0\01",
    // Removals, one of no file.
    b"\xa5\0\0\0\0\0\0\0\x0e\0\0\0\x02\0\0\0\x04\x05b.vdi\x04\x05c.vdi",
    // A file that is made, and another removed.
    b"\xa5\0\0\0\0\0\0\0\x1b\0\0\0\x02\0\0\0\x01\x05c.vdi\0\0\0\0\0\0\0\0\x01\0\0\01\x04\x05a.vdi",
    // The library.
    b"\xa5\0\0\0\0\0\0\0F\0\0\0\x02\0\0\0\x04*{00112233-4455-6677-8899-aabbccddeeff}.vdi\x01\x0blibrary.vbm\0\0\0\0\0\0\0\0\x01\0\0\01",
    // A byte that is the open gate's.
    b"\xa5\0\0\0\0\0\0\03\0\0\0\x03\0\0\0\x02\x05c.vdi\0\0\0\0\0\0\0\0\x01\0\0\0\0\0\0\0\xa5\x01\x05a.vdi\0\0\0\0\0\0\0\0\x01\0\0\01\x04\x05b.vdi",
];

// Redoes a log with so much room for an index, after which all is settled.
fn redone(rt: &impl Abort, alloc: Global, log: &[u8], room: u32) -> Result<(End, MemDisk), Fail> {
    let mut disk = disk_of_log(rt, alloc, log)?;
    let end = redo_log(alloc, &mut disk, room)?;
    Ok((end, disk.images_of_last_sync(Pick::Byte(7))?))
}

#[test]
fn redoes_alike_in_any_room(rt: HostRuntime) -> Result<(), Fail> {
    for (i, log) in LOGS.iter().enumerate() {
        let (end, disk) = redone(&rt, rt.alloc(), log, INDEX_ROOM)?;
        for room in [0, 4] {
            let (other_end, other) = redone(&rt, rt.alloc(), log, room)?;
            assert_eq!(rt; end, other_end, "log {i}");
            assert!(rt; same_besides_log(&disk, &other), "log {i}");
            assert!(rt; disk.file(LOG) == other.file(LOG), "log {i}");
        }
    }
    Ok(())
}

/// Logs, and the room that each needs for its record.
static SIZES: [(&[u8], Option<u32>); 6] = [
    (b"", None),
    (b"\xa5\0\0\0\0\0\0\0\x0f\0\0\0\0\0\0", None),
    (b"\xa4\0\0\0\0\0\0\0\x0f\0\0\0\0\0\0\0", None),
    (b"\xa5\0\0\0\0\0\0\0\x0f\0\0\0\0\0\0\0", Some(15)),
    (b"\xa5\0\0\0\0\0\0\0\0\0\0\x02\0\0\0\0", Some(1 << 25)),
    (b"\xa5\0\0\0\0\0\0\0\x01\0\0\x02\0\0\0\0", Some(1 << 25)),
];

#[test]
fn tells_the_room_of_a_record(rt: HostRuntime) -> Result<(), Fail> {
    let mut empty = MemDisk::new(rt.alloc());
    assert_eq!(rt; record_size(&mut empty), Ok(None));
    for (log, size) in &SIZES {
        let mut disk = disk_of_log(&rt, rt.alloc(), log)?;
        assert_eq!(rt; record_size(&mut disk), Ok(*size));
    }
    let mut disk = MemDisk::new(rt.alloc());
    disk.stop_at(0);
    assert_eq!(rt; record_size(&mut disk), Err(Failed));
    Ok(())
}
