//! How much a record, and a change of it, may have.

/// No record has a longer body, in bytes.
pub const LONGEST_BODY: u32 = 1 << 25;

/// No record has more changes.
pub const MOST_CHANGES: u32 = 1 << 16;

/// No change begins at a higher place of its file, and none cuts a file to a greater length, in bytes.
pub const FARTHEST: u64 = 1 << 53;

/// No fill has more bytes.
pub const LONGEST_FILL: u64 = 1 << 24;

/// How many bytes a log has before the body of its record: the gate, seven that nothing reads, and the record's head.
pub const LOG_HEAD_LEN: usize = 16;
