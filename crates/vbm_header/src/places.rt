// Where the fields of a header stand, in bytes from the start of the file, and the values of those
// that are the same in all images.

pub(crate) const SIGNATURE_AT: usize = 64;

pub(crate) const VERSION_AT: usize = 68;

pub(crate) const CB_HEADER_AT: usize = 72;

pub(crate) const TYPE_AT: usize = 76;

pub(crate) const FLAGS_AT: usize = 80;

pub(crate) const OFF_BLOCKS_AT: usize = 340;

pub(crate) const OFF_DATA_AT: usize = 344;

pub(crate) const GEOMETRY_AT: usize = 348;

pub(crate) const UNUSED_AT: usize = 364;

pub(crate) const CAPACITY_AT: usize = 368;

pub(crate) const BLOCK_LEN_AT: usize = 376;

pub(crate) const BLOCK_EXTRA_AT: usize = 380;

pub(crate) const BLOCKS_AT: usize = 384;

pub(crate) const ALLOCATED_AT: usize = 388;

pub(crate) const ID_AT: usize = 392;

pub(crate) const MODIFY_AT: usize = 408;

pub(crate) const LINK_AT: usize = 424;

pub(crate) const PARENT_MODIFY_AT: usize = 440;

pub(crate) const LCHS_GEOMETRY_AT: usize = 456;

pub(crate) const SIGNATURE: u32 = 0xBEDA_107F;

pub(crate) const VERSION: u32 = 0x0001_0001;
