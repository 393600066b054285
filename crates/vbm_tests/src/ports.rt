//! The ports in memory, and the lists and texts that they take.

use std::test::Fail;
use vbm_memdisk::{MemDisk, MemSink, MemSource};
use vbm_ports::{
    Bytes, Disk, Failed, Sequence, Sink, Source, Text, names_machine, names_medium,
    names_store_file, put_all,
};

#[test]
fn keeps_sequences(rt: HostRuntime) -> Result<(), Fail> {
    let alloc = rt.alloc();
    let mut numbers = Sequence::new(alloc);
    assert!(rt; numbers.is_empty());
    numbers.push(7u32)?;
    numbers.push(9u32)?;
    assert!(rt; !numbers.is_empty());
    assert_eq!(rt; numbers.len(), 2);
    assert_eq!(rt; *numbers.get(1), 9);
    assert_eq!(rt; numbers.as_slice(), [7, 9].as_slice());
    assert_eq!(rt;
        Bytes::from_slice(alloc, b"ab")?.as_slice(),
        b"ab".as_slice()
    );
    assert_eq!(rt; Text::new(alloc, b"a\xFF")?.bytes(), b"a\xFF".as_slice());
    Ok(())
}

#[test]
fn keeps_files(rt: HostRuntime) -> Result<(), Fail> {
    let alloc = rt.alloc();
    let mut disk = MemDisk::new(alloc);
    disk.put_file(b"p.vdi", b"old")?;
    disk.put_file(b"q.vdi", b"other")?;
    disk.put_file(b"p.vdi", b"newer")?;
    assert_eq!(rt; disk.file(b"p.vdi").ok_or("absent")?, b"newer".as_slice());
    assert_eq!(rt; disk.file(b"q.vdi").ok_or("absent")?, b"other".as_slice());
    assert!(rt; disk.file(b"r.vdi").is_none());
    assert_eq!(rt; disk.calls(), 0);
    let name = b"p.vdi".as_slice();
    assert!(rt; names_medium(name));
    assert_eq!(rt; disk.length(name), Ok(Some(5)));
    assert_eq!(rt; disk.calls(), 1);
    let names = disk.names()?;
    assert_eq!(rt; names.len(), 2);
    Ok(())
}

#[test]
fn takes_and_puts_pieces(rt: HostRuntime) -> Result<(), Fail> {
    let alloc = rt.alloc();
    let mut source = MemSource::new(Bytes::from_slice(alloc, b"abcdef")?, 2, Some(3));
    let mut whole = MemSource::new(Bytes::from_slice(alloc, b"abc")?, 2, None);
    for (taken, taken_of_whole, bytes) in [
        (Ok(2), Ok(2), b"ab.."),
        (Ok(1), Ok(1), b"c..."),
        (Err(Failed), Ok(0), b"...."),
    ] {
        let mut out = *b"....";
        assert_eq!(rt; source.take(&mut out), taken);
        assert_eq!(rt; &out, bytes);
        let mut out = *b"....";
        assert_eq!(rt; whole.take(&mut out), taken_of_whole);
        assert_eq!(rt; &out, bytes);
    }
    let mut sink = MemSink::new(alloc, Some(5));
    assert_eq!(rt; sink.put(b"abc"), Ok(3));
    assert_eq!(rt; put_all(&mut sink, b"def"), Err(Failed));
    assert_eq!(rt; put_all(&mut sink, b""), Ok(()));
    assert_eq!(rt; sink.written(), b"abcde".as_slice());
    assert_eq!(rt; sink.refused(), 0);
    Ok(())
}

#[test]
fn knows_store_names(rt: HostRuntime) {
    for (name, is_store_name) in [
        ("a.vdi", true),
        ("library.vbm", true),
        ("intent.vbm", true),
        ("{00010203-0405-8602-8000-00000000000a}.vdi", true),
        ("{00010203-0405-8602-8000-00000000000A}.vdi", false),
        ("{00010203-0405-8602-80000-0000000000a}.vdi", false),
        ("00010203-0405-8602-8000-00000000000a}.vdi", false),
        ("{00010203-0405-8602-8000-00000000000a}.vd", false),
        ("library.vbn", false),
        ("", false),
    ] {
        assert_eq!(rt; names_store_file(name.as_bytes()), is_store_name, "{name}");
    }
}

#[test]
fn knows_names_of_machines(rt: HostRuntime) {
    for (name, is_short_name) in [
        ("m", true),
        (".A_z-09", true),
        ("abcdefghijklmnopqrstuvwxyz012345", true),
        ("abcdefghijklmnopqrstuvwxyz0123456", false),
        ("-m", false),
        ("m n", false),
        ("m:1", false),
        ("m/s", false),
        ("", false),
    ] {
        assert_eq!(rt; names_machine(name.as_bytes()), is_short_name, "{name}");
    }
}
