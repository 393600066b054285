//! The block map of an image.

ghost use Rattle.std.specs.Prelude.{◌≡◌, ◌≢◌, ◌≤◌, ◌<◌, ◌+◌, ◌-◌, ◌*◌, ◌++◌, ◌⊎◌, ℕ, List, length, filter, min, take, vec_len, IfOk, IfErr, OnOk, OnErr, Some, Err};
ghost use Rattle.vbm_header.specs.declared.Header.{Header};
ghost use Rattle.vbm_header.specs.Field.{number_at};
ghost use Rattle.vbm_ports.specs.Counts.{counted, Rose};
ghost use Rattle.vbm_ports.specs.Disk.{OnlyReads};
ghost use Rattle.vbm_ports.specs.Names.{IsStoreName};
ghost use Rattle.vbm_volume.specs.Faults.{HasHeader, Answers};
ghost use Rattle.vbm_volume.specs.Image.{image_of, is_position, positions, words_at, word_of};
ghost use Rattle.vbm_volume.specs.Tally.{IsTally};

use crate::fault::MapFault;
use crate::positions::word_at;
use crate::tally::Tally;
use std::alloc::Global;
use vbm_header::Header;
use vbm_ports::{Disk, Failed, NoMemory};

/// How many words of a block map are read at once.
const PIECE: u32 = 1 << 16;

/// The word of a free block.
const FREE: u32 = 0xFFFF_FFFF;

/// Tests the three conditions on the block map of a file of this length with this header: the first of them that fails is
/// the answer. It gives the word of one block of the map, or that of a free block where the map has no such block. It takes
/// memory for a bit for each position, up to 2^22, and for the positions past that.
pub fn read_map<D: Disk>(
    alloc: Global,
    disk: &mut D,
    name: &[u8],
    header: &Header,
    file_len: u64,
    block: u64,
) -> Result<u32, MapFault>
    requires name { IsStoreName name.now }
    requires told { D.tells → (f : List ℕ) → (D.state disk.old).files name.now ≡ Some f
        → HasHeader f header.now file_len }
    ensures exact { D.tells → (f : List ℕ) → (D.state disk.old).files name.now ≡ Some f
        → Answers result (λ _. header.now) (image_of f) }
    ensures word { D.tells → IfOk result (λ word. (f : List ℕ) → (D.state disk.old).files name.now ≡ Some f
        → block < header.now.blocks → word ≡ word_of f header.now block) }
    ensures outside { IfOk result (λ word. header.now.blocks ≤ block → word ≡ 0xFFFFFFFF) }
    ensures cause { result ≡ Err MapFault.Failed
        → Rose (D.state disk.old).faults (D.state disk.new).faults }
    ensures no_fault { result ≢ Err MapFault.Failed
        → (D.state disk.new).faults ≡ (D.state disk.old).faults }
    ensures reads { OnlyReads D.tells (D.state disk.old) (D.state disk.new) }
{
    let mut tally = Tally::new(alloc, header, file_len)?;
    let mut piece = room_for(alloc, header.blocks.min(PIECE))?;
    let word = scan(disk, name, header, block, piece.as_mut_slice(), &mut tally)?;
    match tally.fault() {
        None => Ok(word),
        Some(bad) => Err(MapFault::Bad(bad)),
    }
}

// Room for so many words.
fn room_for(alloc: Global, count: u32) -> Result<Vec<u8>, NoMemory>
    ensures { IfOk result (λ piece. vec_len piece ≡ 4 * count) }
{
    vec![in alloc; 0; 4 * count as usize].map_err(|_| NoMemory)
}

// Adds the positions of the block map to the tally, piece by piece, and gives the word of a block.
fn scan<D: Disk>(
    disk: &mut D,
    name: &[u8],
    header: &Header,
    block: u64,
    piece: &mut [u8],
    tally: &mut Tally,
) -> Result<u32, MapFault>
    requires name { IsStoreName name.now }
    requires room { 4 * min header.now.blocks 65536 ≤ length piece.old }
    ensures tally { D.tells → OnOk result ((f ps : List ℕ) → (D.state disk.old).files name.now ≡ Some f
        → header.now.off_blocks + 4 * header.now.blocks ≤ length f →
        IsTally tally.old ps → IsTally tally.new (ps ++ positions f header.now)) }
    ensures limits { tally.new.limits ≡ tally.old.limits }
    ensures word { D.tells → IfOk result (λ word. (f : List ℕ) → (D.state disk.old).files name.now ≡ Some f
        → header.now.off_blocks + 4 * header.now.blocks ≤ length f →
        block < header.now.blocks → word ≡ word_of f header.now block) }
    ensures outside { IfOk result (λ word. header.now.blocks ≤ block → word ≡ 0xFFFFFFFF) }
    ensures err { IfErr result (λ e. ((e ≡ MapFault.NoMemory) × ((D.state disk.new).faults ≡ (D.state disk.old).faults))
        ⊎ ((e ≡ MapFault.Failed) × Rose (D.state disk.old).faults (D.state disk.new).faults)) }
    ensures no_fault { IfOk result (λ _. (D.state disk.new).faults ≡ (D.state disk.old).faults) }
    ensures reads { OnlyReads D.tells (D.state disk.old) (D.state disk.new) }
{
    let mut word = FREE;
    let mut done = 0;
    while done < header.blocks {
        let count = (header.blocks - done).min(PIECE);
        let at = header.off_blocks as u64 + 4 * done as u64;
        add_piece(disk, name, at, count, piece, tally)?;
        word = word_or(piece, done, count, block, word);
        done += count;
    }
    Ok(word)
}

// Adds the positions among the `count` words from `at` on, which it reads into the piece.
fn add_piece<D: Disk>(
    disk: &mut D,
    name: &[u8],
    at: u64,
    count: u32,
    piece: &mut [u8],
    tally: &mut Tally,
) -> Result<(), MapFault>
    requires name { IsStoreName name.now }
    requires room { 4 * count ≤ length piece.old }
    ensures tally { D.tells → OnOk result ((f ps : List ℕ) → (D.state disk.old).files name.now ≡ Some f
        → at + 4 * count ≤ length f →
        IsTally tally.old ps → IsTally tally.new (ps ++ filter is_position (words_at f at count))) }
    ensures limits { tally.new.limits ≡ tally.old.limits }
    ensures fields { D.tells → OnOk result ((f : List ℕ) (o w : ℕ)
        → (D.state disk.old).files name.now ≡ Some f → o + w ≤ length piece.old → at + o + w ≤ length f →
        number_at piece.new o w ≡ number_at f (at + o) w) }
    ensures err { IfErr result (λ e. ((e ≡ MapFault.NoMemory) × ((D.state disk.new).faults ≡ (D.state disk.old).faults))
        ⊎ ((e ≡ MapFault.Failed) × Rose (D.state disk.old).faults (D.state disk.new).faults)) }
    ensures no_fault { OnOk result ((D.state disk.new).faults ≡ (D.state disk.old).faults) }
    ensures reads { OnlyReads D.tells (D.state disk.old) (D.state disk.new) }
{
    read_words(disk, name, at, piece)?;
    tally.add_words(piece, count as usize)?;
    Ok(())
}

/// Reads a piece of a block map by one call of the disk. Words that the disk does not give count as free.
pub fn read_words<D: Disk>(
    disk: &mut D,
    name: &[u8],
    at: u64,
    piece: &mut [u8],
) -> Result<(), Failed>
    requires { IsStoreName name.now }
    ensures fields { D.tells → OnOk result ((f : List ℕ) (o w : ℕ)
        → (D.state disk.old).files name.now ≡ Some f → o + w ≤ length piece.old → at + o + w ≤ length f →
        number_at piece.new o w ≡ number_at f (at + o) w) }
    ensures cause { OnErr result (Rose (D.state disk.old).faults (D.state disk.new).faults) }
    ensures no_fault { OnOk result ((D.state disk.new).faults ≡ (D.state disk.old).faults) }
    ensures reads { OnlyReads D.tells (D.state disk.old) (D.state disk.new) }
    ensures calls { (D.state disk.new).calls ≡ counted (D.state disk.old).calls }
{
    let n = disk.read(name, at, piece)?;
    free_from(piece, n);
    Ok(())
}

// Makes the words of a piece from byte n on free.
fn free_from(piece: &mut [u8], n: usize)
    requires { n ≤ length piece.old }
    ensures { take n piece.new ≡ take n piece.old }
{
    piece[n..].fill(0xFF);
}

// The word of a block that is among the `count` words of a piece, the first of which is that of block `first`; else another.
fn word_or(piece: &[u8], first: u32, count: u32, block: u64, other: u32) -> u32
    requires { 4 * count ≤ length piece.now }
    ensures here { first ≤ block → block < first + count
        → result ≡ number_at piece.now (4 * (block - first)) 4 }
    ensures elsewhere { (block < first) ⊎ (first + count ≤ block) → result ≡ other }
{
    let first = first as u64;
    if block < first || block >= first + count as u64 {
        return other;
    }
    word_at(piece, 4 * (block - first) as usize)
}
