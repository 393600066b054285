//! The positions among words of a block map.

ghost use Rattle.std.specs.Prelude.{◌≡◌, ◌≤◌, ◌<◌, ◌+◌, ◌*◌, ◌^◌, ◌++◌, ℕ, [], ◌∷◌, List, not, filter, max, length, OnOk};
ghost use Rattle.std.specs.List.Sorted.{IsNonDecreasing};
ghost use Rattle.vbm_header.specs.Field.{number_at};
ghost use Rattle.vbm_volume.specs.Image.{is_position, is_distinct};
ghost use Rattle.vbm_volume.specs.Positions.{AreMarked, end_of, is_high, positions_in};

use crate::marks::Marks;
use byteorder::{ByteOrder, LittleEndian};
use vbm_ports::NoMemory;

/// The words of a block map below this one are positions.
pub(crate) const FIRST_OTHER: u32 = 0xFFFF_FFFE;

/// The word at a place of a piece of a block map.
#[tactic(auto, unfolding(vbm_header::specs::Field::number_at))]
pub fn word_at(piece: &[u8], at: usize) -> u32
    requires { at + 4 ≤ length piece.now }
    ensures { result ≡ number_at piece.now at 4 }
{
    LittleEndian::read_u32(&piece[at..])
}

/// One past the greatest position among words, or 0.
pub(crate) fn end_of_words(piece: &[u8], count: usize) -> u64
    requires { 4 * count ≤ length piece.now }
    ensures end { result ≡ end_of (positions_in piece.now count) }
    ensures fits { result ≤ 2 ^ 32 }
{
    let mut end = 0;
    for i in 0..count {
        end = end_with(end, word_at(piece, 4 * i));
    }
    end
}

fn end_with(end: u64, word: u32) -> u64
    requires { end ≤ 2 ^ 32 }
    ensures end { result ≡ max end (end_of (filter is_position (word ∷ []))) }
    ensures fits { result ≤ 2 ^ 32 }
{
    if word < FIRST_OTHER {
        return end.max(word as u64 + 1);
    }
    end
}

/// Marks the positions among words that are below `low_end`, and says whether one stood twice, or if one did before.
pub(crate) fn mark_words(
    low: &mut Marks,
    low_end: u32,
    is_twice: bool,
    piece: &[u8],
    count: usize,
) -> bool
    requires words { 4 * count ≤ length piece.now }
    requires most { low_end ≤ 2 ^ 22 }
    requires room { low_end ≤ 64 * length low.old }
    ensures marked { (ps : List ℕ) → AreMarked low_end low.old is_twice ps
        → AreMarked low_end low.new result (ps ++ positions_in piece.now count) }
    ensures room { length low.new ≡ length low.old }
{
    let mut twice = is_twice;
    for i in 0..count {
        twice = mark(low, low_end, twice, word_at(piece, 4 * i));
    }
    twice
}

fn mark(low: &mut Marks, low_end: u32, is_twice: bool, word: u32) -> bool
    requires most { low_end ≤ 2 ^ 22 }
    requires room { low_end ≤ 64 * length low.old }
    ensures marked { (ps : List ℕ) → AreMarked low_end low.old is_twice ps
        → AreMarked low_end low.new result (ps ++ filter is_position (word ∷ [])) }
    ensures room { length low.new ≡ length low.old }
{
    if word < low_end {
        let is_new = low.mark(word);
        return is_twice | !is_new;
    }
    is_twice
}

/// Lists the positions among words that are not below `low_end`.
pub(crate) fn list_words(
    high: &mut Vec<u32>,
    low_end: u32,
    piece: &[u8],
    count: usize,
) -> Result<(), NoMemory>
    requires { 4 * count ≤ length piece.now }
    ensures { OnOk result (high.new.items ≡ high.old.items ++ filter (is_high low_end) (positions_in piece.now count)) }
{
    for i in 0..count {
        list(high, low_end, word_at(piece, 4 * i))?;
    }
    Ok(())
}

fn list(high: &mut Vec<u32>, low_end: u32, word: u32) -> Result<(), NoMemory>
    ensures { OnOk result (high.new.items ≡ high.old.items ++ filter (is_high low_end) (filter is_position (word ∷ []))) }
{
    if word >= low_end && word < FIRST_OTHER && high.push(word).is_err() {
        return Err(NoMemory);
    }
    Ok(())
}

// Whether a number stands twice in an ascending list.
fn has_repeat(sorted: &[u32]) -> bool
    requires { IsNonDecreasing sorted.now }
    ensures { result ≡ not (is_distinct sorted.now) }
{
    for i in 1..sorted.len() {
        if sorted[i - 1] == sorted[i] {
            return true;
        }
    }
    false
}

/// Whether a number stands twice. It sorts the list.
pub(crate) fn has_twice(numbers: &mut [u32]) -> bool
    ensures { result ≡ not (is_distinct numbers.old) }
{
    numbers.sort_unstable();
    has_repeat(numbers)
}
