//! The three conditions on the positions of a block map, tested as its words come in.

ghost use Rattle.std.specs.Prelude.{◌≡◌, ◌≤◌, ◌+◌, ◌*◌, ◌^◌, ◌++◌, ℕ, [], List, not, nat_lt, nat_le, length, IfOk, OnOk};
ghost use Rattle.std.specs.List.{list_all};
ghost use Rattle.vbm_header.specs.Header.{first_that_fails};
ghost use Rattle.vbm_volume.specs.Image.{is_distinct, map_conditions};
ghost use Rattle.vbm_volume.specs.Positions.{positions_in};

use crate::marks::Marks;
use crate::positions::{end_of_words, has_twice, list_words, mark_words};
use std::alloc::Global;
use vbm_header::{BLOCK_LEN, BadImage, Header};
use vbm_ports::NoMemory;

/// Positions below this one have a bit each, where the file has so many.
const MOST_MARKS: u32 = 1 << 22;

/// What the positions are measured by.
#[derive(Clone, Copy)]
struct Limits {
    allocated: u32,
    off_data: u32,
    file_len: u64,
    // Positions below it are marked, the others are listed.
    low_end: u32,
}

/// What was found out about the positions of a block map so far.
#[derive(Drop)]
pub(crate) struct Tally {
    limits: Limits,
    // One past the greatest position, or 0.
    end: u64,
    low: Marks,
    high: Vec<u32>,
    // Whether a position that is marked stood twice.
    is_twice: bool,
    ghost fits: { end ≤ 2 ^ 32 },
    ghost most_marks: { limits.low_end ≤ 2 ^ 22 },
    ghost room: { limits.low_end ≤ 64 * length low },
}

impl Tally {
    ghost use Rattle.vbm_volume.specs.Tally.{IsTally};

    /// The tally of no position, for a file of this length with this header.
    pub(crate) fn new(alloc: Global, header: &Header, file_len: u64) -> Result<Tally, NoMemory>
        ensures none { IfOk result (λ tally. IsTally tally []) }
        ensures allocated { IfOk result (λ tally. tally.limits.allocated ≡ header.now.allocated) }
        ensures off_data { IfOk result (λ tally. tally.limits.off_data ≡ header.now.off_data) }
        ensures file_len { IfOk result (λ tally. tally.limits.file_len ≡ file_len) }
    {
        let low_end = header.allocated.min(MOST_MARKS);
        Ok(Tally {
            limits: Limits {
                allocated: header.allocated,
                off_data: header.off_data,
                file_len,
                low_end,
            },
            end: 0,
            low: Marks::new(alloc, low_end)?,
            high: Vec::new(alloc),
            is_twice: false,
        })
    }

    /// Adds the positions among the first `count` words of a piece of a block map.
    pub(crate) fn add_words(&mut self, piece: &[u8], count: usize) -> Result<(), NoMemory>
        requires { 4 * count ≤ length piece.now }
        ensures limits { self.new.limits ≡ self.old.limits }
        ensures ok { OnOk result ((ps : List ℕ) → IsTally self.old ps
            → IsTally self.new (ps ++ positions_in piece.now count)) }
    {
        let low_end = self.limits.low_end;
        let end = end_of_words(piece, count);
        self.end = self.end.max(end);
        self.is_twice = mark_words(&mut self.low, low_end, self.is_twice, piece, count);
        if end <= low_end as u64 {
            return Ok(());
        }
        list_words(&mut self.high, low_end, piece, count)
    }

    // Whether each position is below the count of the header.
    fn are_counted(&self) -> bool
        ensures { (ps : List ℕ) → IsTally self.now ps
            → result ≡ list_all (λ p. nat_lt p self.now.limits.allocated) ps }
    {
        self.end <= self.limits.allocated as u64
    }

    // Whether the data of each position lies in the file.
    fn are_within(&self) -> bool
        ensures { (ps : List ℕ) → IsTally self.now ps
            → result ≡ list_all (λ p. nat_le (self.now.limits.off_data + (p + 1) * 2 ^ 20) self.now.limits.file_len) ps }
    {
        if self.end == 0 {
            return true;
        }
        self.limits.off_data as u64 + self.end * BLOCK_LEN <= self.limits.file_len
    }

    // Whether a position stood twice.
    fn has_twice(&mut self) -> bool
        ensures { (ps : List ℕ) → IsTally self.old ps → result ≡ not (is_distinct ps) }
    {
        if self.is_twice {
            return true;
        }
        has_twice(&mut self.high)
    }

    /// The first condition on the positions that fails.
    pub(crate) fn fault(&mut self) -> Option<BadImage>
        ensures { (ps : List ℕ) (h : Header) → IsTally self.old ps → h.allocated ≡ self.old.limits.allocated
            → h.off_data ≡ self.old.limits.off_data →
            result ≡ first_that_fails (map_conditions ps h self.old.limits.file_len) }
    {
        if !self.are_counted() {
            return Some(BadImage::PositionCount);
        }
        if !self.are_within() {
            return Some(BadImage::PositionFile);
        }
        if self.has_twice() {
            return Some(BadImage::PositionTwice);
        }
        None
    }
}
