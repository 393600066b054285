//! A library with all that it may list, and files that differ from its own.

use std::alloc::Global;
use std::process::Abort;
use std::test::Fail;
use vbm_registry::{DecodeFault, Features, decode_with, encode};

/// All parts are in use.
const ALL: Features = Features {
    shared_modes: true,
    layered_modes: true,
    inner_images: true,
    machines: true,
    slots: true,
    snapshots: true,
    makings: true,
    mergings: true,
};

/// A file of media in all modes, inner images on each other, three machines of which the first has two snapshots, a name that is being
/// made, and a merging.
static RICH: &[u8] =
    b"VBMLIB01\0\x01\x02\x03\x04\x05\x06\x07\x08\x09\x0a\x0b\x0c\x0d\x0e\x0f\x09\0\0\0\0\0\0\0(\0\0\0\0\0\0\0\
\x07\0\x05a.vdi\0\x05b.vdi\x01\x05c.vdi\x02\x05d.vdi\x03\x05e.vdi\
\x04\x05f.vdi\0\x05k.vdi\0\
\x08\0\x01\0\0\0\0\0\0\0\0\0\0\x02\0\0\0\0\0\0\0\x01\x01\0\0\0\0\0\0\0\x03\0\0\0\0\0\0\0\
\0\x01\0\x05\0\0\0\0\0\0\0\x01\x03\0\0\0\0\0\0\0\x06\0\0\0\0\0\0\0\x01\x05\0\0\0\0\0\0\0\
\x08\0\0\0\0\0\0\0\0\x01\0\x09\0\0\0\0\0\0\0\0\x03\0\x0a\0\0\0\0\0\0\0\0\x06\0\
\x03\0\x02m1\x04\0\0\0\0\x01\x02\0\0\0\0\0\0\0\x01\x01\0\x01\x01\x06\0\0\0\0\0\0\0\x02\x02\0\
\0\0\x1d\x04\0\0\0\x02\0\x02s1\x01\0\x03\0\0\0\0\x01\x01\0\0\0\0\0\0\0\x01\x01\0\0\x01\x05\0\0\0\0\0\0\0\
\x02\x02\0\0\0\x02s2\xff\xff\x03\0\0\0\0\x02\x01\x01\0\x01\x01\x03\0\0\0\0\0\0\0\x1d\x04\0\0\0\0\0\
\x02m2\x03\x03\x01\0\0\x01\x08\0\0\0\0\0\0\0\x04\x03\0\0\x01\x09\0\0\0\0\0\0\0\x05\x05\0\0\0\
\0\0\xff\xff\
\x02m3\x01\0\x06\0\0\x01\x0a\0\0\0\0\0\0\0\0\0\xff\xff\
\x01\x05g.vdi\
\x01\0\x06\0\x0a\0\0\0\0\0\0\0\x08\0\0\0\0\0\0\0";

/// Where its fields begin, and its end.
static STARTS: [usize; 126] = [
    0, 8, 24, 32, 40, 42, 48, 49, 55, 56, 62, 63, 69, 70, 76, 77, 83, 84, 90, 91, 93, 101, 104,
    112, 121, 129, 132, 140, 149, 157, 166, 174, 177, 185, 188, 196, 199, 201, 204, 205, 206, 208,
    209, 210, 218, 219, 221, 222, 223, 231, 232, 234, 235, 236, 237, 239, 240, 241, 243, 246, 248,
    249, 250, 252, 253, 254, 262, 263, 265, 266, 267, 275, 276, 278, 279, 280, 283, 285, 286, 287,
    289, 290, 291, 292, 294, 295, 296, 304, 305, 307, 308, 309, 311, 314, 315, 316, 318, 319, 320,
    328, 329, 331, 332, 333, 341, 342, 344, 345, 346, 348, 350, 353, 354, 355, 357, 358, 359, 367,
    369, 371, 372, 378, 379, 382, 390, 398,
];

/// What is cut from it, at which offset and how many bytes, what stands there instead, and the offset of the first bad field.
static BAD: &[(usize, usize, &[u8], usize)] = &[
    // The head and the counters.
    (0, 8, b"VBMLIB02", 0),
    (24, 8, b"\x01\0\0\0\0\0\0@", 24),
    (32, 8, b"\x01\0\0\0\0\0\0@", 32),
    (32, 8, b"\x0a\0\0\0\0\0\0\0", 188),
    // Counts of media, and names.
    (40, 2, b"\x01\x04", 40),
    (40, 2, b"\x08\0", 91),
    (42, 6, b"\x05a.vdx", 42),
    (42, 6, b"\x05-.vdi", 42),
    (42, 6, b"\x05/.vdi", 42),
    (42, 6, b"\x04.vdi", 42),
    (
        42,
        6,
        b"Aaaaaaaaaaaaaaaaaaaaaaaaaaaaaaaaaaaaaaaaaaaaaaaaaaaaaaaaaaaaaa.vdi",
        42,
    ),
    (42, 6, b"\x05b.vdi", 49),
    (49, 6, b"\x05A.vdi", 49),
    (84, 6, b"\x05B.vdi", 84),
    // Modes.
    (48, 1, b"\x05", 48),
    (48, 1, b"\xff", 48),
    // Inner images: numbers that rise below the counter, and parents that are listed earlier, on a layered medium.
    (104, 8, b"\x01\0\0\0\0\0\0\0", 104),
    (121, 8, b"\0\0\0\0\0\0\0\0", 121),
    (93, 8, b"(\0\0\0\0\0\0\0", 93),
    (188, 8, b"\0\0\0\0\0\0\0\x80", 188),
    (91, 2, b"\x09\0", 199),
    (101, 3, b"\x02\0\0", 101),
    (101, 3, b"\0\x07\0", 101),
    (101, 3, b"\0\xff\xff", 101),
    (101, 3, b"\0\x02\0", 101),
    (129, 3, b"\0\x04\0", 129),
    (112, 9, b"\x01\x02\0\0\0\0\0\0\0", 112),
    (112, 9, b"\x01\x03\0\0\0\0\0\0\0", 112),
    (112, 9, b"\x01\0\0\0\0\0\0\0\0", 112),
    (157, 9, b"\x01\x04\0\0\0\0\0\0\0", 157),
    (48, 1, b"\x02", 101),
    (69, 1, b"\x04", 185),
    // Machines.
    (199, 2, b"\x01\x01", 199),
    (199, 2, b"\x04\0", 371),
    (201, 3, b"\0", 201),
    (201, 3, b"\x02-m", 201),
    (201, 3, b"\x02m/", 201),
    (201, 3, b"!mmmmmmmmmmmmmmmmmmmmmmmmmmmmmmmmm", 201),
    (201, 3, b"\x02m2", 311),
    (311, 3, b"\x02m1", 311),
    (350, 3, b"\x01M", 350),
    // Slots: ports that rise, and places of media that differ.
    (205, 1, b"\x1e", 205),
    (236, 1, b"\x1e", 236),
    (218, 1, b"\0", 218),
    (231, 1, b"\x01", 231),
    (262, 1, b"\0", 262),
    (206, 2, b"\x07\0", 206),
    (237, 2, b"\xff\xff", 237),
    (237, 2, b"\x02\0", 237),
    (276, 2, b"\0\0", 276),
    // Autoreset is a flag, and on at immutable media alone.
    (221, 1, b"\x02", 221),
    (208, 1, b"\x01", 208),
    (331, 1, b"\x01", 331),
    (307, 1, b"\x01", 307),
    // What a slot holds, by its mode, and whether it is of a snapshot.
    (209, 1, b"\x03", 209),
    (209, 1, b"\x02", 209),
    (222, 1, b"\0", 222),
    (222, 1, b"\x02", 222),
    (332, 1, b"\0", 332),
    (235, 1, b"\x01", 235),
    (235, 1, b"\x02", 235),
    (240, 1, b"\x01", 240),
    (290, 1, b"\0", 290),
    (266, 1, b"\x02", 266),
    (266, 1, b"\0", 266),
    (279, 1, b"\x01", 279),
    (279, 1, b"\x02", 279),
    // An own image is one of the medium.
    (210, 8, b"\x03\0\0\0\0\0\0\0", 210),
    (210, 8, b"\x04\0\0\0\0\0\0\0", 210),
    (210, 8, b"\x0a\0\0\0\0\0\0\0", 210),
    (223, 8, b"\x02\0\0\0\0\0\0\0", 223),
    (333, 8, b"\x08\0\0\0\0\0\0\0", 333),
    (254, 8, b"\0\0\0\0\0\0\0\0", 254),
    (359, 8, b"\0\0\0\0\0\0\0\x80", 359),
    // Snapshots: names that rise, one root, no circle, and a current one.
    (241, 2, b"\x01\x10", 241),
    (243, 3, b"\0", 243),
    (243, 3, b"!sssssssssssssssssssssssssssssssss", 243),
    (243, 3, b"\x02s2", 280),
    (280, 3, b"\x02s1", 280),
    (280, 3, b"\x03s 2", 280),
    (246, 2, b"\x02\0", 246),
    (246, 2, b"\0\0", 246),
    (246, 2, b"\xfe\xff", 246),
    (246, 2, b"\xff\xff", 283),
    (283, 2, b"\0\0", 283),
    (283, 2, b"\x01\0", 283),
    (283, 2, b"\x02\0", 283),
    (309, 2, b"\x02\0", 309),
    (309, 2, b"\xff\xff", 309),
    (348, 2, b"\0\0", 348),
    (369, 2, b"\xfe\xff", 369),
    // What is made has a name of its own.
    (371, 1, b"\x02", 371),
    (372, 6, b"\x05a.vdi", 372),
    (372, 6, b"\x05k.vdi", 372),
    (372, 6, b"\x05g.vdx", 372),
    (372, 6, b"\x0blibrary.vbm", 372),
    // Mergings.
    (378, 1, b"\x1f", 378),
    (379, 3, b"\x02\x06\0", 379),
    (379, 3, b"\xff\x06\0", 379),
    (378, 1, b"\0", 379),
    (398, 0, b"\0", 398),
    // Rules that the library as a whole breaks: a file is bad at its end then.
    (320, 8, b"\x03\0\0\0\0\0\0\0", 398),
    (290, 1, b"\x01\x01\0\0\0\0\0\0\0", 406),
    (210, 8, b"\x01\0\0\0\0\0\0\0", 398),
    (342, 2, b"\0\0", 398),
    (112, 9, b"\0\0\0", 392),
    (309, 2, b"\x01\0", 398),
    (382, 8, b"\x09\0\0\0\0\0\0\0", 398),
    (382, 8, b"\x0b\0\0\0\0\0\0\0", 398),
    (379, 3, b"\0\0\0", 398),
    (379, 3, b"\x01\x09\0\0\0\0\0\0\0", 404),
    (390, 8, b"\x09\0\0\0\0\0\0\0", 398),
];

// Whether bytes are a library's file, or the offset of the first bad field. A library is encoded to the bytes that it was decoded from.
fn first_bad(rt: &impl Abort, alloc: Global, bytes: &[u8]) -> Result<Option<usize>, Fail> {
    match decode_with(alloc, ALL, bytes) {
        Ok(library) => {
            let again = encode(alloc, &library)?;
            assert!(rt; again.as_slice() == bytes);
            Ok(None)
        }
        Err(DecodeFault::Bad(offset)) => {
            assert!(rt; offset as usize <= bytes.len());
            Ok(Some(offset as usize))
        }
        Err(DecodeFault::NoMemory) => Err(Fail::from("no memory")),
    }
}

// The file with other bytes in place of so many.
fn edited(alloc: Global, at: usize, cut: usize, new: &[u8]) -> Result<Vec<u8>, Fail> {
    let mut file = Vec::new(alloc);
    for (i, byte) in RICH.iter().enumerate() {
        if i == at {
            file.extend_from_slice(new)?;
        }
        if i < at || i - at >= cut {
            file.push(*byte)?;
        }
    }
    if at == RICH.len() {
        file.extend_from_slice(new)?;
    }
    Ok(file)
}

#[test]
fn tells_each_bad_field(rt: HostRuntime) -> Result<(), Fail> {
    let alloc = rt.alloc();
    assert_eq!(rt; first_bad(&rt, alloc, RICH)?, None);
    for (at, cut, new, offset) in BAD {
        let file = edited(alloc, *at, *cut, new)?;
        assert_eq!(rt; first_bad(&rt, alloc, &file)?, Some(*offset));
    }
    Ok(())
}

// Where the field begins that a file of this length lacks.
fn first_missing(len: usize) -> usize {
    let mut starts = STARTS.iter().rev();
    match starts.find(|start| **start <= len) {
        Some(start) => *start,
        None => 0,
    }
}

#[test]
fn tells_what_is_missing(rt: HostRuntime) -> Result<(), Fail> {
    for len in 0..RICH.len() {
        assert_eq!(rt;
            first_bad(&rt, rt.alloc(), &RICH[..len])?,
            Some(first_missing(len))
        );
    }
    Ok(())
}

// The file with another byte at each place.
fn check_changes(rt: &impl Abort, alloc: Global, byte: u8) -> Result<(), Fail> {
    for at in 0..RICH.len() {
        let mut changed = Vec::from_slice(alloc, RICH)?;
        changed[at] = byte;
        first_bad(rt, alloc, &changed)?;
    }
    Ok(())
}

/// Bytes that a field may turn on, and some that none has.
static BYTES: [u8; 45] = [
    0, 1, 2, 3, 4, 5, 6, 7, 8, 9, 10, 11, 12, 13, 14, 15, 16, 17, 18, 19, 20, 21, 22, 23, 24, 25,
    26, 27, 28, 29, 30, 31, 32, 45, 46, 47, 64, 65, 95, 97, 107, 127, 128, 254, 255,
];

#[test]
fn has_one_spelling_for_each_library(rt: HostRuntime) -> Result<(), Fail> {
    for byte in BYTES.iter() {
        check_changes(&rt, rt.alloc(), *byte)?;
    }
    Ok(())
}

// What a slot of a medium holds: the medium's base place, or the image of the medium before a number.
fn put_slot(file: &mut Vec<u8>, port: u8, medium: u16, number: u16) -> Result<(), Fail> {
    file.push(port)?;
    file.extend_from_slice(&medium.to_le_bytes())?;
    file.push(0)?;
    if number == 0 {
        file.push(2)?;
    } else {
        file.push(1)?;
        file.extend_from_slice(&(medium as u64 * 16 + number as u64 - 1).to_le_bytes())?;
    }
    Ok(())
}

// The slots of a machine, or of one of its snapshots: one of each of its four media.
fn put_slots(file: &mut Vec<u8>, machine: u16, number: u16) -> Result<(), Fail> {
    file.push(4)?;
    for port in 0..4u8 {
        put_slot(file, port, machine % 256 * 4 + port as u16, number % 17)?;
    }
    Ok(())
}

// A snapshot after the one before it.
fn put_snapshot(file: &mut Vec<u8>, machine: u16, number: u16) -> Result<(), Fail> {
    file.extend_from_slice(&[
        2,
        b'a' + (number / 10 % 10) as u8,
        b'a' + (number % 10) as u8,
    ])?;
    let parent = if number == 0 { 0xFFFF } else { number - 1 };
    file.extend_from_slice(&parent.to_le_bytes())?;
    put_slots(file, machine, number)
}

// A machine with sixteen snapshots.
fn put_machine(file: &mut Vec<u8>, machine: u16) -> Result<(), Fail> {
    file.extend_from_slice(&[
        2,
        b'A' + (machine / 16 % 16) as u8,
        b'A' + (machine % 16) as u8,
    ])?;
    put_slots(file, machine, 16)?;
    file.extend_from_slice(&16u16.to_le_bytes())?;
    for number in 0..16 {
        put_snapshot(file, machine, number)?;
    }
    file.extend_from_slice(&15u16.to_le_bytes())?;
    Ok(())
}

// An inner image on its medium, or on the image before it.
fn put_inner(file: &mut Vec<u8>, number: u64) -> Result<(), Fail> {
    file.extend_from_slice(&number.to_le_bytes())?;
    if number % 16 == 0 {
        file.push(0)?;
        file.extend_from_slice(&((number / 16 % 1024) as u16).to_le_bytes())?;
    } else {
        file.push(1)?;
        file.extend_from_slice(&(number - 1).to_le_bytes())?;
    }
    Ok(())
}

// The file of 1024 media, 16384 inner images, and 256 machines with 4096 snapshots that have 16384 places.
fn most(alloc: Global) -> Result<Vec<u8>, Fail> {
    let mut file = Vec::from_slice(alloc, &RICH[..24])?;
    file.extend_from_slice(&0u64.to_le_bytes())?;
    file.extend_from_slice(&16384u64.to_le_bytes())?;
    file.extend_from_slice(&1024u16.to_le_bytes())?;
    for i in 0..1024 {
        let name = format!(in alloc; "\x09m{i:04}.vdi\0")?;
        file.extend_from_slice(name.as_bytes())?;
    }
    file.extend_from_slice(&16384u16.to_le_bytes())?;
    for number in 0..16384 {
        put_inner(&mut file, number)?;
    }
    file.extend_from_slice(&256u16.to_le_bytes())?;
    for machine in 0..256 {
        put_machine(&mut file, machine)?;
    }
    file.extend_from_slice(&[0, 0])?;
    Ok(file)
}

#[test]
fn holds_the_most_of_all(rt: HostRuntime) -> Result<(), Fail> {
    let alloc = rt.alloc();
    let mut file = most(alloc)?;
    assert_eq!(rt; file.len(), 528432);
    assert_eq!(rt; first_bad(&rt, alloc, &file)?, None);
    // One more place, and one more snapshot, of the last machine.
    for (behind, count) in [(57, 5), (902, 17)] {
        let at = file.len() - behind;
        let was = file[at];
        file[at] = count;
        assert_eq!(rt; first_bad(&rt, alloc, &file)?, Some(at));
        file[at] = was;
    }
    Ok(())
}
