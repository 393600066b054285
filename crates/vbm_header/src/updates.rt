// The fields that change while an image is in use: the place of each in the file, in bytes, and its bytes.

ghost use Rattle.std.specs.Prelude.{◌≡◌, ◌++◌};
ghost use Rattle.byteorder.specs.Endian.{little_bytes};
ghost use Rattle.uuid.specs.Parts.{swap_fields};
ghost use Rattle.vbm_header.specs.Field.{number_at, uuid_at};

use crate::places::*;
use crate::values::{u32_bytes, u64_bytes, uuid_bytes};
use uuid::Uuid;

/// The place and the bytes of uuidModify, the UUID of the last modification.
pub fn field_modify(id: Uuid) -> (u64, [u8; 16])
    ensures place { result.0 ≡ 408 }
    ensures bytes { result.1 ≡ swap_fields id }
    ensures read_back { uuid_at result.1 0 ≡ id }
{
    (MODIFY_AT as u64, uuid_bytes(id))
}

/// The place and the bytes of uuidLinkage and uuidParentModify, which stand side by side: the UUIDs of
/// the parent image and of its last modification.
pub fn field_links(link: Uuid, parent_modify: Uuid) -> (u64, [u8; 32])
    ensures place { result.0 ≡ 424 }
    ensures bytes { result.1 ≡ swap_fields link ++ swap_fields parent_modify }
    ensures link_read_back { uuid_at result.1 0 ≡ link }
    ensures parent_modify_read_back { uuid_at result.1 16 ≡ parent_modify }
{
    let mut bytes = [0; 32];
    bytes[..16].copy_from_slice(&uuid_bytes(link));
    bytes[16..].copy_from_slice(&uuid_bytes(parent_modify));
    (LINK_AT as u64, bytes)
}

/// The place and the bytes of offData, where the blocks stand, in bytes.
pub fn field_off_data(n: u32) -> (u64, [u8; 4])
    ensures place { result.0 ≡ 344 }
    ensures bytes { result.1 ≡ little_bytes 4 n }
    ensures read_back { number_at result.1 0 4 ≡ n }
{
    (OFF_DATA_AT as u64, u32_bytes(n))
}

/// The place and the bytes of cbDisk, the capacity in bytes.
pub fn field_capacity(n: u64) -> (u64, [u8; 8])
    ensures place { result.0 ≡ 368 }
    ensures bytes { result.1 ≡ little_bytes 8 n }
    ensures read_back { number_at result.1 0 8 ≡ n }
{
    (CAPACITY_AT as u64, u64_bytes(n))
}

/// The place and the bytes of cBlocks, the number of blocks.
pub fn field_blocks(n: u32) -> (u64, [u8; 4])
    ensures place { result.0 ≡ 384 }
    ensures bytes { result.1 ≡ little_bytes 4 n }
    ensures read_back { number_at result.1 0 4 ≡ n }
{
    (BLOCKS_AT as u64, u32_bytes(n))
}

/// The place and the bytes of cBlocksAllocated, the number of positions for blocks that the file has.
pub fn field_allocated(n: u32) -> (u64, [u8; 4])
    ensures place { result.0 ≡ 388 }
    ensures bytes { result.1 ≡ little_bytes 4 n }
    ensures read_back { number_at result.1 0 4 ≡ n }
{
    (ALLOCATED_AT as u64, u32_bytes(n))
}
