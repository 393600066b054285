//! The header of a VDI 1.1 image: read, written, and changed a field at a time.
#![tactic(auto)]

ghost use Rattle.std.specs.Prelude.{◌≡◌};

use uuid::Uuid;

mod places;
mod reading;
mod updates;
mod values;
mod writing;

pub use reading::read_header;
pub use updates::{
    field_allocated, field_blocks, field_capacity, field_links, field_modify, field_off_data,
};
pub use writing::write_header;

/// How many bytes of a file `read_header` needs.
pub const HEADER_LEN: usize = 456;

/// How many bytes of a file `write_header` makes.
pub const WRITTEN_LEN: usize = 472;

/// The bytes of a block, the unit in which an image is allocated: VDI's cbBlock.
pub const BLOCK_LEN: u64 = 1 << 20;

/// The bytes of a sector, the unit in which a disk is read and written.
pub const SECTOR_LEN: u64 = 512;

/// The sectors of a block.
pub const SECTORS_OF_BLOCK: u64 = BLOCK_LEN / SECTOR_LEN;

/// Why a file is no image: the first of twelve conditions that fails.
///
/// Nine are on the header, and the last three on the block map.
#[derive(Clone, Copy, Debug, PartialEq, Eq)]
pub enum BadImage {
    /// The file has fewer than 456 bytes.
    Short = 1,
    /// The signature isn't 0xBEDA107F.
    Signature,
    /// The version isn't 0x00010001, which is 1.1.
    Version,
    /// cbHeader is below 384, or the header reaches past offBlocks.
    HeaderSize,
    /// The type number isn't 1, 2 or 4: 3, an undo image, is refused too.
    TypeNumber,
    /// cbBlock isn't 1 MiB, or cbBlockExtra isn't 0.
    BlockSize,
    /// cbDisk isn't a multiple of 512 from 512 to 2^41, or cBlocks is above 2^21 or too few for it.
    Size,
    /// offBlocks is above 2^31, or the block map reaches past offData or the end of the file.
    Layout,
    /// The image's UUID is nil.
    NilId,
    /// A position in the block map isn't below cBlocksAllocated.
    PositionCount,
    /// The block at a position in the block map reaches past the end of the file.
    PositionFile,
    /// Two blocks have the same position.
    PositionTwice,
}

impl BadImage {
    ghost use Rattle.vbm_header.specs.Header.{condition_number};

    /// The place of the condition among the twelve, from 1 to 12.
    pub fn number(self) -> u32
        ensures { result ≡ condition_number self }
    {
        self as u32
    }
}

/// How an image holds its blocks: VDI's image type.
#[derive(Clone, Copy, Debug, PartialEq, Eq)]
pub enum ImageType {
    /// Blocks are allocated when they are first written.
    Dynamic = 1,
    /// All blocks are allocated from the start.
    Fixed = 2,
    /// Blocks that were never written are the parent's.
    Differencing = 4,
}

impl ImageType {
    ghost use Rattle.vbm_header.specs.Header.{is_differencing};
    ghost use Rattle.vbm_header.specs.Written.{type_number};

    fn number(self) -> u32
        ensures { result ≡ type_number self }
    {
        self as u32
    }

    /// Whether the image stands on a parent.
    pub fn is_differencing(self) -> bool
        ensures { result ≡ is_differencing self }
    {
        matches!(self, ImageType::Differencing)
    }
}

/// The fields of an image's header that differ between images.
#[derive(Clone, Copy, Debug, PartialEq, Eq)]
pub struct Header {
    /// cbHeader: the bytes of the header, from byte 72 of the file.
    pub cb_header: u32,
    /// The image type.
    pub image_type: ImageType,
    /// offBlocks: where the block map stands, in bytes from the start of the file.
    pub off_blocks: u32,
    /// offData: where the blocks stand, in bytes from the start of the file.
    pub off_data: u32,
    /// cbDisk: the capacity of the disk, in bytes.
    pub capacity: u64,
    /// cBlocks: how many blocks of 1 MiB the disk has.
    pub blocks: u32,
    /// cBlocksAllocated: how many positions for blocks the file has.
    pub allocated: u32,
    /// uuidCreate: the UUID of the image.
    pub id: Uuid,
    /// uuidModify: the UUID of the image's last modification.
    pub modify: Uuid,
    /// uuidLinkage: the UUID of the parent image, nil where there is none.
    pub link: Uuid,
    /// uuidParentModify: the UUID of the parent's last modification when this image was linked to it.
    pub parent_modify: Uuid,
}
