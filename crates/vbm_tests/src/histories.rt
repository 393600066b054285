//! What a crash leaves of a disk in memory, after small histories.

use std::process::Abort;
use std::test::Fail;
use vbm_memdisk::{MemDisk, Pick};
use vbm_ports::{Disk, Failed, names_medium};

/// A call on the file `a.vdi`.
#[derive(Clone, Copy)]
enum Call {
    Write(u64, &'static [u8]),
    Cut(u64),
    Remove,
    Sync,
}

/// The file at the start, the calls, the number of the call that fails, and the file in the images: at the last sync, as now,
/// and as now with the byte 7 where anything may be.
type History = (
    Option<&'static [u8]>,
    &'static [Call],
    Option<u64>,
    &'static [Option<&'static [u8]>],
);

static HISTORIES: [History; 13] = [
    // A gap before a write may be anything.
    (
        Some(b"ab"),
        &[Call::Write(4, b"xy")],
        None,
        &[Some(b"ab"), Some(b"ab\0\0xy"), Some(b"ab\x07\x07\x07\x07")],
    ),
    // Two writes.
    (
        Some(b"abcdef"),
        &[Call::Write(1, b"X"), Call::Write(2, b"Y")],
        None,
        &[Some(b"abcdef"), Some(b"aXYdef"), Some(b"a\x07\x07def")],
    ),
    // What was cut off and is written again.
    (
        Some(b"abcdef"),
        &[Call::Cut(2), Call::Write(3, b"Z")],
        None,
        &[Some(b"abcdef"), Some(b"ab\0Z"), Some(b"ab\x07\x07")],
    ),
    // A name that is removed and made again.
    (
        Some(b"abc"),
        &[Call::Remove, Call::Write(0, b"z")],
        None,
        &[Some(b"abc"), Some(b"z"), Some(b"\x07")],
    ),
    // A write that fails: its first half is written, and all of its range may be anything.
    (
        Some(b"abcdef"),
        &[Call::Write(1, b"WXYZ")],
        Some(0),
        &[
            Some(b"abcdef"),
            Some(b"aWXdef"),
            Some(b"a\x07\x07\x07\x07f"),
        ],
    ),
    (
        Some(b"ab"),
        &[Call::Write(3, b"WXYZ")],
        Some(0),
        &[Some(b"ab"), Some(b"ab\0WX"), Some(b"ab\x07\x07\x07")],
    ),
    // Half of one byte is none, and makes no file.
    (None, &[Call::Write(0, b"q")], Some(0), &[None, None, None]),
    // A sync that fails settles nothing.
    (
        Some(b"ab"),
        &[Call::Write(0, b"X"), Call::Sync],
        Some(1),
        &[Some(b"ab"), Some(b"Xb"), Some(b"\x07b")],
    ),
    // A sync that succeeds settles all.
    (
        Some(b"ab"),
        &[Call::Write(0, b"X"), Call::Sync],
        None,
        &[Some(b"Xb"), Some(b"Xb"), Some(b"Xb")],
    ),
    (
        Some(b"ab"),
        &[Call::Write(0, b"X"), Call::Sync, Call::Cut(1)],
        None,
        &[Some(b"Xb"), Some(b"X"), Some(b"X")],
    ),
    // A file that was made, and one that was removed.
    (
        None,
        &[Call::Write(0, b"q")],
        None,
        &[None, Some(b"q"), Some(b"\x07")],
    ),
    (
        Some(b"ab"),
        &[Call::Remove],
        None,
        &[Some(b"ab"), None, None],
    ),
    // Calls that change nothing.
    (
        Some(b"ab"),
        &[Call::Cut(5), Call::Sync],
        None,
        &[Some(b"ab"), Some(b"ab"), Some(b"ab")],
    ),
];

fn make_call<D: Disk>(rt: &impl Abort, disk: &mut D, call: Call) -> Result<(), Failed> {
    let name = b"a.vdi".as_slice();
    assert!(rt; names_medium(name));
    match call {
        Call::Write(at, bytes) => {
            assert!(rt; !bytes.is_empty() && at < 1 << 20 && bytes.len() < 1 << 20);
            disk.write(name, at, bytes)
        }
        Call::Cut(len) => disk.cut(name, len),
        Call::Remove => disk.remove(name),
        Call::Sync => disk.sync(),
    }
}

#[test]
fn crashes(rt: HostRuntime) -> Result<(), Fail> {
    for (i, (file, calls, failing, images)) in HISTORIES.iter().enumerate() {
        let mut disk = MemDisk::new(rt.alloc());
        if let Some(bytes) = file {
            assert!(rt; bytes.len() < 1 << 20);
            disk.put_file(b"a.vdi", bytes)?;
        }
        if let Some(k) = failing {
            disk.fail_call(*k)?;
        }
        for (k, step) in calls.iter().enumerate() {
            let is_failing = *failing == Some(k as u64);
            assert_eq!(rt;
                make_call(&rt, &mut disk, *step).is_err(),
                is_failing,
                "history {i}"
            );
        }
        for (pick, image) in [Pick::Old, Pick::New, Pick::Byte(7)]
            .iter()
            .zip(images.iter())
        {
            let left = disk.images_of_last_sync(*pick)?;
            assert!(rt; left.file(b"a.vdi") == *image, "history {i}, {pick:?}");
        }
        assert_eq!(rt; disk.refused(), 0);
    }
    Ok(())
}

#[test]
fn stops(rt: HostRuntime) -> Result<(), Fail> {
    let mut disk = MemDisk::new(rt.alloc());
    disk.put_file(b"a.vdi", b"ab")?;
    disk.stop_at(1);
    assert_eq!(rt; make_call(&rt, &mut disk, Call::Write(0, b"XY")), Ok(()));
    for step in [
        Call::Write(0, b"zz"),
        Call::Cut(0),
        Call::Remove,
        Call::Sync,
    ] {
        assert_eq!(rt; make_call(&rt, &mut disk, step), Err(Failed));
    }
    let name = b"a.vdi".as_slice();
    assert!(rt; names_medium(name));
    assert_eq!(rt; disk.length(name), Err(Failed));
    assert_eq!(rt; disk.calls(), 6);
    assert!(rt; disk.file(b"a.vdi") == Some(b"XY".as_slice()));
    let old = disk.images_of_last_sync(Pick::Old)?;
    assert!(rt; old.file(b"a.vdi") == Some(b"ab".as_slice()));
    Ok(())
}
