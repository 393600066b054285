//! The library's file, and files that are none.

use std::alloc::Global;
use std::process::Abort;
use std::test::Fail;
use uuid::Uuid;
use vbm_ids::NUMBER_LIMIT;
use vbm_machines::Machines;
use vbm_ports::Sequence;
use vbm_registry::{DecodeFault, Library, Media, decode, encode};

const SEED: [u8; 16] = *b"\0\x01\x02\x03\x04\x05\x06\x07\x08\x09\x0a\x0b\x0c\x0d\x0e\x0f";

/// A file of no media.
static EMPTY: &[u8] = b"VBMLIB01\0\x01\x02\x03\x04\x05\x06\x07\x08\x09\x0a\x0b\x0c\x0d\x0e\x0f\
\0\0\0\0\0\0\0\0\0\0\0\0\0\0\0\0\0\0\0\0\0\0\0\0";

/// What stands behind the numbers of a file of five media.
const FIVE: &[u8] =
    b"\x05\0\x06A0.vdi\0\x08a-._.vdi\0\x05a.vdi\0\x05b.vdi\0\x07zz9.vdi\0\0\0\0\0\0\0";

/// The largest numbers that a library can have drawn.
const MOST: u64 = NUMBER_LIMIT;

fn empty_library(alloc: Global) -> Library {
    Library {
        seed: Uuid::from_bytes(SEED),
        next: 0,
        inner: 0,
        media: Media::new(alloc),
        inners: Sequence::new(alloc),
        machines: Machines::new(alloc),
        making: None,
        merging: Sequence::new(alloc),
    }
}

/// A file with these numbers, and these bytes behind them.
fn file_of(alloc: Global, next: u64, inner: u64, rest: &[u8]) -> Result<Vec<u8>, Fail> {
    let mut file = Vec::from_slice(alloc, b"VBMLIB01")?;
    file.extend_from_slice(&SEED)?;
    file.extend_from_slice(&next.to_le_bytes())?;
    file.extend_from_slice(&inner.to_le_bytes())?;
    file.extend_from_slice(rest)?;
    Ok(file)
}

/// Whether bytes are a library's file. They are what the library is encoded to.
fn check_whole(rt: &impl Abort, alloc: Global, bytes: &[u8]) -> Result<bool, Fail> {
    match decode(alloc, bytes) {
        Ok(library) => {
            let again = encode(alloc, &library)?;
            assert!(rt; again.as_slice() == bytes);
            Ok(true)
        }
        Err(DecodeFault::Bad(offset)) => {
            assert!(rt; offset as usize <= bytes.len());
            Ok(false)
        }
        Err(DecodeFault::NoMemory) => Err(Fail::from("no memory")),
    }
}

fn check_bad(rt: &impl Abort, alloc: Global, bytes: &[u8], offset: usize) -> Result<(), Fail> {
    match decode(alloc, bytes) {
        Ok(_) => Err(Fail::from("a library")),
        Err(DecodeFault::Bad(at)) => {
            assert_eq!(rt; at as usize, offset);
            Ok(())
        }
        Err(DecodeFault::NoMemory) => Err(Fail::from("no memory")),
    }
}

#[test]
fn spells_the_empty_library(rt: HostRuntime) -> Result<(), Fail> {
    let alloc = rt.alloc();
    let bytes = encode(alloc, &empty_library(alloc))?;
    assert_eq!(rt; bytes.as_slice(), EMPTY);
    assert!(rt; check_whole(&rt, alloc, EMPTY)?);
    let longer = file_of(alloc, 0, 0, &[0; 9])?;
    check_bad(&rt, alloc, &longer, 48)
}

/// Numbers, and what stands behind them, of libraries' files.
static GOOD: &[(u64, u64, &[u8])] = &[
    (0, 0, b"\0\0\0\0\0\0\0\0"),
    (MOST, MOST, b"\0\0\0\0\0\0\0\0"),
    (1, 2, b"\x01\0\x05a.vdi\0\0\0\0\0\0\0"),
    (0, 0, FIVE),
    // Media that are write-through and read-only.
    (0, 0, b"\x01\0\x05a.vdi\x02\0\0\0\0\0\0"),
    (0, 0, b"\x01\0\x05a.vdi\x04\0\0\0\0\0\0"),
    // A machine, and one with a slot.
    (0, 0, b"\0\0\0\0\x01\0\x01v\0\0\0\xff\xff\0\0"),
    (
        0,
        0,
        b"\x01\0\x05a.vdi\0\0\0\x01\0\x01v\x01\x1d\0\0\0\0\0\0\xff\xff\0\0",
    ),
    // A name of 64 bytes.
    (
        0,
        0,
        b"\x01\0\x40012345678901234567890123456789012345678901234567890123456789.vdi\0\0\0\0\0\0\0",
    ),
];

/// The same of files that are none, and the offset of the first bad field.
static BAD: &[(u64, u64, &[u8], usize)] = &[
    // Numbers and counts that are too large.
    (MOST + 1, 0, b"\0\0\0\0\0\0\0\0", 24),
    (u64::MAX, MOST + 1, b"\0\0\0\0\0\0\0\0", 24),
    (0, MOST + 1, b"\0\0\0\0\0\0\0\0", 32),
    (0, u64::MAX, b"\x01\x04\0\0\0\0\0\0", 32),
    (0, 0, b"\x01\x04\0\0\0\0\0\0", 40),
    (0, 0, b"\xff\xff\0\0\0\0\0\0", 40),
    // More media and fewer than are counted.
    (0, 0, b"\x02\0\x05a.vdi\0\0\0\0\0\0\0", 49),
    (0, 0, b"\0\0\x05a.vdi\0\0\0\0\0\0\0", 42),
    (0, 0, b"\x01\0\0\0\0\0\0\0", 42),
    // Names with a bad byte, and of no medium.
    (0, 0, b"\x01\0\x05/.vdi\0\0\0\0\0\0\0", 42),
    (0, 0, b"\x01\0\x05\xff.vdi\0\0\0\0\0\0\0", 42),
    (0, 0, b"\x01\0\x05 .vdi\0\0\0\0\0\0\0", 42),
    (0, 0, b"\x01\0\x05\0.vdi\0\0\0\0\0\0\0", 42),
    (0, 0, b"\x01\0\x05-.vdi\0\0\0\0\0\0\0", 42),
    (0, 0, b"\x01\0\x05a.vdx\0\0\0\0\0\0\0", 42),
    (0, 0, b"\x01\0\x05a.VDI\0\0\0\0\0\0\0", 42),
    (0, 0, b"\x01\0\x0blibrary.vbm\0\0\0\0\0\0\0", 42),
    // Names that are too short and too long.
    (0, 0, b"\x01\0\0\0\0\0\0\0\0\0", 42),
    (0, 0, b"\x01\0\x04.vdi\0\0\0\0\0\0\0", 42),
    (
        0,
        0,
        b"\x01\0\x410123456789012345678901234567890123456789012345678901234567890.vdi\0\0\0\0\0\0\0",
        42,
    ),
    (0, 0, b"\x01\0\xffa.vdi\0\0\0\0\0\0\0", 42),
    // Names that do not rise, and the same twice.
    (0, 0, b"\x02\0\x05b.vdi\0\x05a.vdi\0\0\0\0\0\0\0", 49),
    (0, 0, b"\x02\0\x05a.vdi\0\x05a.vdi\0\0\0\0\0\0\0", 49),
    (0, 0, b"\x02\0\x05a.vdi\0\x05B.vdi\0\0\0\0\0\0\0", 49),
    (0, 0, b"\x02\0\x05b.vdi\0\x06ab.vdi\0\0\0\0\0\0\0", 49),
    (0, 0, b"\x02\0\x0aa.vdi.vdi0\0\x05a.vdi\0\0\0\0\0\0\0", 42),
    (0, 0, b"\x02\0\x09a.vdi.vdi\0\x05a.vdi\0\0\0\0\0\0\0", 53),
    (
        0,
        0,
        b"\x03\0\x05a.vdi\0\x05c.vdi\0\x05b.vdi\0\0\0\0\0\0\0",
        56,
    ),
    // Modes that no command gives yet, and that are none.
    (0, 0, b"\x01\0\x05a.vdi\x01\0\0\0\0\0\0", 48),
    (0, 0, b"\x01\0\x05a.vdi\x03\0\0\0\0\0\0", 48),
    (0, 0, b"\x01\0\x05a.vdi\x05\0\0\0\0\0\0", 48),
    (0, 0, b"\x01\0\x05a.vdi\x07\0\0\0\0\0\0", 48),
    (0, 0, b"\x01\0\x05a.vdi\xff\0\0\0\0\0\0", 48),
    // Counts behind the media.
    (0, 0, b"\0\0\x01\0\0\0\0\0", 42),
    (0, 0, b"\0\0\0\x01\0\0\0\0", 42),
    (0, 0, b"\0\0\0\0\x01\0\0\0", 46),
    (0, 0, b"\0\0\0\0\0\x01\0\0", 46),
    (0, 0, b"\0\0\0\0\x01\x01\0\0", 44),
    (0, 0, b"\0\0\0\0\0\0\x01\0", 46),
    (0, 0, b"\0\0\0\0\0\0\0\x01", 47),
    (0, 0, b"\x01\0\x05a.vdi\0\xff\xff\0\0\0\0", 49),
    (0, 0, b"\x01\0\x05a.vdi\0\0\0\xff\xff\0\0", 51),
    (0, 0, b"\x01\0\x05a.vdi\0\0\0\0\0\xff\0", 53),
    (0, 0, b"\x01\0\x05a.vdi\0\0\0\0\0\0\xff", 54),
    (0, 0, b"\x01\0\x05a.vdi\0\0\0\0\0\0\0\0", 55),
];

#[test]
fn tells_files_apart(rt: HostRuntime) -> Result<(), Fail> {
    let alloc = rt.alloc();
    for (next, inner, rest) in GOOD {
        let file = file_of(alloc, *next, *inner, rest)?;
        assert!(rt; check_whole(&rt, alloc, &file)?);
    }
    for (next, inner, rest, offset) in BAD {
        let file = file_of(alloc, *next, *inner, rest)?;
        check_bad(&rt, alloc, &file, *offset)?;
    }
    Ok(())
}

// A file of zeros behind its head.
fn long_file(alloc: Global, head: &[u8; 8], len: usize) -> Result<Vec<u8>, Fail> {
    let mut file = vec![in alloc; 0u8; len]?;
    if len >= 8 {
        file[..8].copy_from_slice(head);
    }
    Ok(file)
}

#[test]
fn looks_at_head_and_length_first(rt: HostRuntime) -> Result<(), Fail> {
    let alloc = rt.alloc();
    for (head, len, offset) in [
        (b"VBMLIB01", 1 << 20, 48),
        (b"VBMLIB01", (1 << 20) + 1, 1 << 20),
        (b"VBMLIB01", 1 << 21, 1 << 20),
        (b"VBMLIB02", (1 << 20) + 1, 0),
        (b"VBMLIB11", 48, 0),
        (b"vBMLIB01", 48, 0),
        (b"VBMLIB01", 8, 8),
    ] {
        let file = long_file(alloc, head, len)?;
        check_bad(&rt, alloc, &file, offset)?;
    }
    Ok(())
}

/// Where the fields of the file of five media begin.
static STARTS: [usize; 19] = [
    0, 8, 24, 32, 40, 42, 49, 50, 59, 60, 66, 67, 73, 74, 82, 83, 85, 87, 88,
];

// Where the field begins that a file of this length lacks.
fn first_missing(len: usize) -> usize {
    let mut starts = STARTS.iter().rev();
    match starts.find(|start| **start <= len) {
        Some(start) => *start,
        None => 0,
    }
}

#[test]
fn finds_what_is_missing(rt: HostRuntime) -> Result<(), Fail> {
    let alloc = rt.alloc();
    let file = file_of(alloc, 5, 0, FIVE)?;
    assert_eq!(rt; file.len(), 89);
    for len in 0..file.len() {
        check_bad(&rt, alloc, &file[..len], first_missing(len))?;
    }
    assert!(rt; check_whole(&rt, alloc, &file)?);
    Ok(())
}

// The file of five media with another byte at each place.
fn check_changes(rt: &impl Abort, alloc: Global, byte: u8) -> Result<(), Fail> {
    let file = file_of(alloc, 5, 0, FIVE)?;
    for at in 0..file.len() {
        let mut changed = Vec::from_slice(alloc, &file)?;
        changed[at] = byte;
        check_whole(rt, alloc, &changed)?;
    }
    Ok(())
}

#[test]
fn keeps_to_one_spelling(rt: HostRuntime) -> Result<(), Fail> {
    for byte in 0..=255 {
        check_changes(&rt, rt.alloc(), byte)?;
    }
    Ok(())
}

// The next number of a row that looks like chance.
fn next_random(state: u64) -> u64 {
    let mut x = state;
    x ^= x << 13;
    x ^= x >> 7;
    x ^ (x << 17)
}

// Bytes that look like chance.
fn random_bytes(alloc: Global, seed: u64, len: usize) -> Result<Vec<u8>, Fail> {
    let mut bytes = Vec::new(alloc);
    let mut state = seed;
    for _ in 0..len {
        state = next_random(state);
        bytes.push((state >> 56) as u8)?;
    }
    Ok(bytes)
}

#[test]
fn survives_chance(rt: HostRuntime) -> Result<(), Fail> {
    let alloc = rt.alloc();
    for seed in 1..=4000u64 {
        let bytes = random_bytes(alloc, seed << 20 | seed, (seed % 200) as usize)?;
        check_whole(&rt, alloc, &bytes)?;
        let file = file_of(alloc, seed, 0, &bytes)?;
        check_whole(&rt, alloc, &file)?;
    }
    Ok(())
}

// What stands behind the numbers of a file of so many media.
fn many_media(alloc: Global, count: u16) -> Result<Vec<u8>, Fail> {
    let mut rest = Vec::from_slice(alloc, &count.to_le_bytes())?;
    for i in 0..count {
        let name = format!(in alloc; "\x09m{i:04}.vdi\0")?;
        rest.extend_from_slice(name.as_bytes())?;
    }
    rest.extend_from_slice(&[0; 6])?;
    Ok(rest)
}

#[test]
fn lists_the_most_media(rt: HostRuntime) -> Result<(), Fail> {
    let alloc = rt.alloc();
    let most = file_of(alloc, 1024, 0, &many_media(alloc, 1024)?)?;
    assert!(rt; check_whole(&rt, alloc, &most)?);
    let more = file_of(alloc, 1025, 0, &many_media(alloc, 1025)?)?;
    check_bad(&rt, alloc, &more, 40)
}
