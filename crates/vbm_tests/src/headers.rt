//! The bytes of a header.

ghost use Rattle.std.specs.Prelude.{◌≡◌};

use std::test::Fail;
use uuid::Uuid;
use vbm_header::{
    BadImage, Header, ImageType, field_allocated, field_blocks, field_capacity, field_links,
    field_modify, field_off_data, read_header, write_header,
};

const ID: [u8; 16] = [0, 1, 2, 3, 4, 5, 0x86, 0, 0x80, 0, 0, 0, 0, 0, 0, 0];

// The first three fields of an identifier are little-endian.
const ID_IN_FILE: [u8; 16] = [3, 2, 1, 0, 5, 4, 0, 0x86, 0x80, 0, 0, 0, 0, 0, 0, 0];

/// The bytes of the header of the test, by their places.
static WRITTEN: [(usize, &[u8]); 15] = [
    (0, b"vbm disk image\n\0"),
    (
        63,
        b"\0\x7F\x10\xDA\xBE\x01\0\x01\0\x90\x01\0\0\x04\0\0\0\0",
    ),
    (339, b"\0\0\x04\0\0\0\0\x10\0"),
    (348, &[0; 12]),
    (360, b"\0\x02\0\0\0\0\0\0"),
    (368, b"\0\x02\0\0\x01\0\0\0"),
    (376, b"\0\0\x10\0\0\0\0\0"),
    (384, b"\x01\x10\0\0"),
    (388, b"\x07\0\0\0"),
    (392, &ID_IN_FILE),
    (408, &[1; 16]),
    (424, &[2; 16]),
    (440, &[3; 16]),
    (456, &[0; 12]),
    (468, b"\0\x02\0\0"),
];

fn header() -> Header
    ensures { result.cb_header ≡ 400 }
{
    Header {
        cb_header: 400,
        image_type: ImageType::Differencing,
        off_blocks: 1024,
        off_data: 1 << 20,
        capacity: (1 << 32) + 512,
        blocks: 4097,
        allocated: 7,
        id: Uuid::from_bytes(ID),
        modify: Uuid::from_bytes([1; 16]),
        link: Uuid::from_bytes([2; 16]),
        parent_modify: Uuid::from_bytes([3; 16]),
    }
}

// What the first bytes of a file of this length are read as.
fn read_front(out: &[u8], file_len: u64) -> Option<Result<Header, BadImage>> {
    let front = out.get(..file_len.min(456) as usize)?;
    Some(read_header(front, file_len))
}

#[test]
fn writes_a_header(rt: HostRuntime) -> Result<(), Fail> {
    let mut out = [0xEE; 472];
    write_header(&header(), &mut out);
    for (at, bytes) in &WRITTEN {
        let rest = out.get(*at..).ok_or("past the header")?;
        assert!(rt; rest.starts_with(bytes), "at {at}");
    }
    assert_eq!(rt; read_front(&out, 1 << 20), Some(Ok(header())));
    assert_eq!(rt; read_front(&out, 455), Some(Err(BadImage::Short)));
    Ok(())
}

#[test]
fn gives_places_and_bytes_of_fields(rt: HostRuntime) {
    let id = Uuid::from_bytes(ID);
    assert_eq!(rt; field_modify(id), (408, ID_IN_FILE));
    let (at, bytes) = field_links(id, Uuid::from_bytes([9; 16]));
    assert_eq!(rt; at, 424);
    assert_eq!(rt; &bytes[..16], ID_IN_FILE.as_slice());
    assert_eq!(rt; &bytes[16..], [9; 16].as_slice());
    assert_eq!(rt; field_off_data(0x0102_0304), (344, [4, 3, 2, 1]));
    assert_eq!(rt;
        field_capacity(0x0102_0304_0506_0708),
        (368, [8, 7, 6, 5, 4, 3, 2, 1])
    );
    assert_eq!(rt; field_blocks(0x0102_0304), (384, [4, 3, 2, 1]));
    assert_eq!(rt; field_allocated(0x0102_0304), (388, [4, 3, 2, 1]));
}
