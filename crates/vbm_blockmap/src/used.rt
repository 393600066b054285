//! The positions that the entries of an image have.

ghost use Rattle.std.specs.Prelude.{◌≡◌, ◌+◌, ◌-◌, ◌*◌, ◌^◌, ◌≤◌, ◌<◌, ℕ, List, length, false, slice_index, IfOk, OnOk, OnErr, Ok, Some};
ghost use Rattle.vbm_header.specs.Field.{number_at};
ghost use Rattle.vbm_ports.specs.Counts.{Rose};
ghost use Rattle.vbm_ports.specs.Disk.{OnlyReads};
ghost use Rattle.vbm_ports.specs.Names.{IsStoreName};
ghost use Rattle.vbm_volume.specs.Image.{image_of};
ghost use Rattle.vbm_volume.specs.Marks.{is_marked, MarksOneMore};
ghost use Rattle.vbm_blockmap.specs.declared.used.TheConstants.{POSITION_LIMIT};
ghost use Rattle.vbm_blockmap.specs.Used.{marked_count, AreFull, IsLeast, MarksMap, MarksWords};

use std::alloc::Global;
use std::marker::Model;
use vbm_header::Header;
use vbm_ports::{Disk, Failed, NoMemory};
use vbm_volume::{Marks, read_words, word_at};

/// Each position that is marked is below this one. It is twice as many as an image has blocks.
pub const POSITION_LIMIT: u32 = 1 << 22;

/// How many words of 64 bits that is.
const BIT_WORDS: u32 = POSITION_LIMIT / 64;

/// How many words of a block map are read at once.
const PIECE: u32 = 1 << 16;

/// How many bytes they have.
const PIECE_LEN: usize = 1 << 18;

/// The positions below `POSITION_LIMIT` that the entries of an image have: these are marked. Contracts see the words of their
/// bits.
#[derive(Drop)]
pub struct Used {
    marks: Marks,
    count: u32,
    // The words before this one have all their bits.
    from: u32,
}

impl Model for Used {
    ghost use Rattle.std.specs.Prelude.{◌≡◌, ℕ, List, length};
    ghost use Rattle.vbm_blockmap.specs.Used.{marked_count, AreFull};

    ghost Value = { List ℕ };

    ghost view = { λ used. used.marks };

    ghost invariant = { λ used. (length used.marks ≡ 65536) × (marked_count used.marks ≡ used.count) × AreFull used.marks used.from };
}

impl Used {
    /// No position is marked.
    pub fn new(alloc: Global) -> Result<Used, NoMemory>
        ensures none { IfOk result (λ used. (p : ℕ) → is_marked used p ≡ false) }
        ensures count { IfOk result (λ used. marked_count used ≡ 0) }
    {
        let marks = Marks::new(alloc, POSITION_LIMIT)?;
        Ok(Used {
            marks,
            count: 0,
            from: 0,
        })
    }

    /// How many positions are not marked.
    pub fn unmarked_count(&self) -> u32
        ensures { marked_count self.now + result ≡ POSITION_LIMIT }
    {
        POSITION_LIMIT - self.count
    }

    /// Marks the least position that is not marked yet, and gives it. It takes no memory.
    pub fn take(&mut self) -> u32
        requires { marked_count self.old < POSITION_LIMIT }
        ensures least { IsLeast self.old result }
        ensures low { result < POSITION_LIMIT }
        ensures marks { MarksOneMore self.old self.new result }
        ensures count { marked_count self.new ≡ marked_count self.old + 1 }
    {
        let at = least_unmarked(self.marks.words(), self.from);
        self.from = at / 64;
        self.mark(at);
        at
    }

    /// Marks a position, which may be marked already.
    pub fn mark(&mut self, p: u32)
        requires { p < POSITION_LIMIT }
        ensures marks { MarksOneMore self.old self.new p }
        ensures count { marked_count self.new ≤ marked_count self.old + 1 }
    {
        if self.marks.mark(p) {
            self.count += 1;
        }
    }

    /// Marks the positions below `POSITION_LIMIT` that the block map of an accepted file with this header has, and no others.
    /// It takes no memory. Where the disk fails, some of them may be missing.
    pub fn load<D: Disk>(
        &mut self,
        disk: &mut D,
        name: &[u8],
        header: &Header,
    ) -> Result<(), Failed>
        requires name { IsStoreName name.now }
        requires blocks { header.now.blocks ≤ 2 ^ 21 }
        requires told { D.tells → (f : List ℕ) → (D.state disk.old).files name.now ≡ Some f
            → image_of f ≡ Ok header.now }
        ensures marks { D.tells → OnOk result ((f : List ℕ) → (D.state disk.old).files name.now ≡ Some f
            → MarksMap f header.now self.new) }
        ensures count { OnOk result (marked_count self.new ≤ header.now.blocks) }
        ensures cause { OnErr result (Rose (D.state disk.old).faults (D.state disk.new).faults) }
        ensures no_fault { OnOk result ((D.state disk.new).faults ≡ (D.state disk.old).faults) }
        ensures reads { OnlyReads D.tells (D.state disk.old) (D.state disk.new) }
    {
        self.clear();
        let mut piece = [0; PIECE_LEN];
        let mut done = 0;
        while done < header.blocks {
            let count = (header.blocks - done).min(PIECE);
            let at = header.off_blocks as u64 + 4 * done as u64;
            self.load_piece(disk, name, at, count, &mut piece)?;
            done += count;
        }
        Ok(())
    }

    // Marks the positions among the `count` words from `at` on, which it reads into the piece.
    fn load_piece<D: Disk>(
        &mut self,
        disk: &mut D,
        name: &[u8],
        at: u64,
        count: u32,
        piece: &mut [u8],
    ) -> Result<(), Failed>
        requires name { IsStoreName name.now }
        requires room { 4 * count ≤ length piece.old }
        ensures marks { D.tells → OnOk result ((f : List ℕ) → (D.state disk.old).files name.now ≡ Some f
            → at + 4 * count ≤ length f → MarksWords (λ k. number_at f (at + 4 * k) 4) count self.old self.new) }
        ensures count { OnOk result (marked_count self.new ≤ marked_count self.old + count) }
        ensures cause { OnErr result (Rose (D.state disk.old).faults (D.state disk.new).faults) }
        ensures no_fault { OnOk result ((D.state disk.new).faults ≡ (D.state disk.old).faults) }
        ensures reads { OnlyReads D.tells (D.state disk.old) (D.state disk.new) }
    {
        let words = &mut piece[..4 * count as usize];
        read_words(disk, name, at, words)?;
        self.mark_words(words, count);
        Ok(())
    }

    // Marks the positions below the limit among the first `count` words of a piece.
    fn mark_words(&mut self, piece: &[u8], count: u32)
        requires { 4 * count ≤ length piece.now }
        ensures marks { MarksWords (λ k. number_at piece.now (4 * k) 4) count self.old self.new }
        ensures count { marked_count self.new ≤ marked_count self.old + count }
    {
        for i in 0..count as usize {
            self.mark_low(word_at(piece, 4 * i));
        }
    }

    // Marks a word, if it is a position below the limit.
    fn mark_low(&mut self, word: u32)
        ensures marks { MarksWords (λ k. word) 1 self.old self.new }
        ensures count { marked_count self.new ≤ marked_count self.old + 1 }
    {
        if word < POSITION_LIMIT {
            self.mark(word);
        }
    }

    // Marks no position.
    fn clear(&mut self)
        ensures none { (p : ℕ) → is_marked self.new p ≡ false }
        ensures count { marked_count self.new ≡ 0 }
    {
        self.marks.clear();
        self.count = 0;
        self.from = 0;
    }
}

// The least position that is not marked, where the words before `from` have all their bits.
fn least_unmarked(words: &[u64], from: u32) -> u32
    requires size { length words.now ≡ 65536 }
    requires full { AreFull words.now from }
    requires room { marked_count words.now < POSITION_LIMIT }
    ensures least { IsLeast words.now result }
    ensures low { result < POSITION_LIMIT }
{
    let word = first_word_not_full(words, from);
    64 * word + words[word as usize].trailing_ones()
}

// The first word from `from` on that has not all its bits.
fn first_word_not_full(words: &[u64], from: u32) -> u32
    requires size { length words.now ≡ 65536 }
    requires full { AreFull words.now from }
    requires room { marked_count words.now < POSITION_LIMIT }
    ensures within { result < 65536 }
    ensures full { AreFull words.now result }
    ensures not_full { slice_index words.now result < 2 ^ 64 - 1 }
{
    for i in from..BIT_WORDS {
        if words[i as usize] != u64::MAX {
            return i;
        }
    }
    0
}
