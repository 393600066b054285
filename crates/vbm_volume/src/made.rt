//! New images.

ghost use Rattle.std.specs.Prelude.{◌≡◌, ◌≤◌, ◌%◌, ◌^◌, ◌*◌, IsFalse, IsTrue};
ghost use Rattle.uuid.specs.Parts.{is_nil_bytes};
ghost use Rattle.vbm_header.specs.declared.ImageType.TheVariants as image_types;
ghost use Rattle.vbm_volume.specs.Chain.{is_linked_to};
ghost use Rattle.vbm_volume.specs.Made.{type_of, new_allocated, IsNewHeader, IsMakingHeader};

use crate::Variant;
use uuid::Uuid;
use vbm_header::{BLOCK_LEN, Header, ImageType};

// The place of the block map.
const OFF_BLOCKS: u32 = 1 << 20;

/// The header of a new image of a whole disk of zeros, of this capacity in bytes. The disk's UUID is not nil.
pub fn new_header(variant: Variant, capacity: u64, id: Uuid, modify: Uuid) -> Header
    requires sectors { capacity % 512 ≡ 0 }
    requires some { 512 ≤ capacity }
    requires most { capacity ≤ 2 ^ 41 }
    requires id { IsFalse (is_nil_bytes id) }
    ensures new { IsNewHeader result }
    ensures image_type { result.image_type ≡ type_of variant }
    ensures capacity { result.capacity ≡ capacity }
    ensures id { result.id ≡ id }
    ensures modify { result.modify ≡ modify }
{
    let blocks = capacity.div_ceil(BLOCK_LEN);
    let map_end = u64::from(OFF_BLOCKS) + 4 * blocks;
    let off_data = map_end.div_ceil(BLOCK_LEN) * BLOCK_LEN;
    // The types of these arrays are what shows the sizes.
    let _bytes = (id.into_bytes(), modify.into_bytes());
    Header {
        cb_header: 400,
        image_type: variant.image_type(),
        off_blocks: OFF_BLOCKS,
        off_data: off_data as u32,
        capacity,
        blocks: blocks as u32,
        allocated: allocated(variant, blocks as u32),
        id,
        modify,
        link: Uuid::nil(),
        parent_modify: Uuid::nil(),
    }
}

/// The header of an image of a whole disk that is made in steps, of this capacity in bytes: none of its blocks has its data
/// yet. The disk's UUID is not nil.
pub fn making_header(variant: Variant, capacity: u64, id: Uuid, modify: Uuid) -> Header
    requires sectors { capacity % 512 ≡ 0 }
    requires some { 512 ≤ capacity }
    requires most { capacity ≤ 2 ^ 41 }
    requires id { IsFalse (is_nil_bytes id) }
    ensures making { IsMakingHeader result }
    ensures image_type { result.image_type ≡ type_of variant }
    ensures capacity { result.capacity ≡ capacity }
    ensures id { result.id ≡ id }
    ensures modify { result.modify ≡ modify }
{
    Header {
        image_type: variant.image_type(),
        ..new_header(Variant::Standard, capacity, id, modify)
    }
}

/// The header of a new differencing image on a parent with this header, of the parent's capacity. The image's UUID is not nil.
pub fn header_over(parent: &Header, id: Uuid, modify: Uuid) -> Header
    requires sectors { parent.now.capacity % 512 ≡ 0 }
    requires some { 512 ≤ parent.now.capacity }
    requires most { parent.now.capacity ≤ 2 ^ 41 }
    requires id { IsFalse (is_nil_bytes id) }
    ensures new { IsNewHeader result }
    ensures image_type { result.image_type ≡ image_types.Differencing }
    ensures linked { IsTrue (is_linked_to parent.now result) }
    ensures capacity { result.capacity ≡ parent.now.capacity }
    ensures id { result.id ≡ id }
    ensures modify { result.modify ≡ modify }
    ensures link { result.link ≡ parent.now.id }
    ensures parent_modify { result.parent_modify ≡ parent.now.modify }
{
    // The types of these arrays are what shows the sizes.
    let _bytes = (parent.id.into_bytes(), parent.modify.into_bytes());
    Header {
        image_type: ImageType::Differencing,
        link: parent.id,
        parent_modify: parent.modify,
        ..new_header(Variant::Standard, parent.capacity, id, modify)
    }
}

// How many blocks have their data from the start.
fn allocated(variant: Variant, blocks: u32) -> u32
    ensures { result ≡ new_allocated (type_of variant) blocks }
{
    match variant {
        Variant::Standard => 0,
        Variant::Fixed => blocks,
    }
}
