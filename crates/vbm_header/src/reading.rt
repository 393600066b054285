// Reading a header.

ghost use Rattle.std.specs.Prelude.{◌≡◌, ◌+◌, ◌≤◌, length, List, ℕ, take, min};
ghost use Rattle.vbm_header.specs.Header.{fields, header_of, image_type_of};

use crate::places::*;
use crate::values::{read_u32, read_u64, read_uuid};
use crate::{BLOCK_LEN, BadImage, HEADER_LEN, Header, ImageType, SECTOR_LEN};

// The limits of what is accepted: blocks, and else bytes.
const MIN_CB_HEADER: u32 = 384;

const MAX_OFF_BLOCKS: u32 = 1 << 31;

const MAX_CAPACITY: u64 = 1 << 41;

const MAX_BLOCKS: u32 = 1 << 21;

/// The header of a file of `file_len` bytes.
///
/// `bytes` are the file's first 456, or all of a shorter file.
///
/// # Errors
///
/// The first condition that fails, of the nine from `BadImage::Short` to `BadImage::NilId`. The block
/// map isn't tested.
pub fn read_header(bytes: &[u8], file_len: u64) -> Result<Header, BadImage>
    requires { length bytes.now ≡ min 456 file_len }
    ensures exact { result ≡ header_of bytes.now file_len }
    // So the rest of the file doesn't matter.
    ensures whole { (f : List ℕ) → length f ≡ file_len → take 456 f ≡ bytes.now
        → result ≡ header_of f file_len }
{
    parse(bytes, file_len)
}

// Apart from `read_header`, so that `whole` is shown once and not at each return.
#[tactic(auto, unfolding(crate::specs::Header::header_of, crate::specs::Header::header_conditions))]
fn parse(bytes: &[u8], file_len: u64) -> Result<Header, BadImage>
    requires { length bytes.now ≡ min 456 file_len }
    ensures { result ≡ header_of bytes.now file_len }
{
    if file_len < HEADER_LEN as u64 {
        return Err(BadImage::Short);
    }
    let header = read_fields(bytes);
    if read_u32(bytes, SIGNATURE_AT) != SIGNATURE {
        return Err(BadImage::Signature);
    }
    if read_u32(bytes, VERSION_AT) != VERSION {
        return Err(BadImage::Version);
    }
    if !header.has_header_size() {
        return Err(BadImage::HeaderSize);
    }
    if !matches!(read_u32(bytes, TYPE_AT), 1 | 2 | 4) {
        return Err(BadImage::TypeNumber);
    }
    if u64::from(read_u32(bytes, BLOCK_LEN_AT)) != BLOCK_LEN
        || read_u32(bytes, BLOCK_EXTRA_AT) != 0
    {
        return Err(BadImage::BlockSize);
    }
    if !header.has_size() {
        return Err(BadImage::Size);
    }
    if !header.has_layout(file_len) {
        return Err(BadImage::Layout);
    }
    if header.id.is_nil() {
        return Err(BadImage::NilId);
    }
    Ok(header)
}

// The tests on a header's own values.
impl Header {
    ghost use Rattle.vbm_header.specs.Header.{has_header_size, has_size, has_layout};

    fn has_header_size(&self) -> bool
        ensures { result ≡ has_header_size self.now }
    {
        self.cb_header >= MIN_CB_HEADER
            && CB_HEADER_AT as u64 + u64::from(self.cb_header) <= u64::from(self.off_blocks)
    }

    fn has_size(&self) -> bool
        ensures { result ≡ has_size self.now }
    {
        self.capacity % SECTOR_LEN == 0
            && self.capacity >= SECTOR_LEN
            && self.capacity <= MAX_CAPACITY
            && self.blocks <= MAX_BLOCKS
            && self.capacity <= u64::from(self.blocks) * BLOCK_LEN
    }

    fn has_layout(&self, file_len: u64) -> bool
        ensures { result ≡ has_layout self.now file_len }
    {
        let map_end = u64::from(self.off_blocks) + 4 * u64::from(self.blocks);
        self.off_blocks <= MAX_OFF_BLOCKS
            && map_end <= u64::from(self.off_data)
            && map_end <= file_len
    }
}

fn read_fields(bytes: &[u8]) -> Header
    requires { 456 ≤ length bytes.now }
    ensures { result ≡ fields bytes.now }
{
    Header {
        cb_header: read_u32(bytes, CB_HEADER_AT),
        image_type: image_type(read_u32(bytes, TYPE_AT)),
        off_blocks: read_u32(bytes, OFF_BLOCKS_AT),
        off_data: read_u32(bytes, OFF_DATA_AT),
        capacity: read_u64(bytes, CAPACITY_AT),
        blocks: read_u32(bytes, BLOCKS_AT),
        allocated: read_u32(bytes, ALLOCATED_AT),
        id: read_uuid(bytes, ID_AT),
        modify: read_uuid(bytes, MODIFY_AT),
        link: read_uuid(bytes, LINK_AT),
        parent_modify: read_uuid(bytes, PARENT_MODIFY_AT),
    }
}

// `parse` refuses every number but 1, 2 and 4.
fn image_type(number: u32) -> ImageType
    ensures { result ≡ image_type_of number }
{
    match number {
        1 => ImageType::Dynamic,
        2 => ImageType::Fixed,
        _ => ImageType::Differencing,
    }
}
