//! How many there may be of each thing.

/// How many media a library may have.
pub const MEDIA_LIMIT: usize = 1024;

/// How many machines a library may have.
pub const MACHINE_LIMIT: usize = 256;

/// How many snapshots the machines of a library may have together.
pub const SNAPSHOT_LIMIT: usize = 4096;

/// How many places the snapshots of a library may have together.
pub const PLACE_LIMIT: usize = 16384;

/// Ports are below this.
pub const PORT_LIMIT: u8 = 30;

/// How many sectors a guest reads or fills at once, at most.
pub const FILL_LIMIT: u32 = 256;

/// How many sectors a guest writes at once, at most.
pub const WRITE_LIMIT: usize = 8;

/// How many files a chain may have that is imported.
pub const CHAIN_LIMIT: usize = 32;
