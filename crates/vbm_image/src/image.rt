//! Entries and sectors of an image.

ghost use Rattle.std.specs.Prelude.{◌≡◌, ◌⊎◌, ◌+◌, ◌*◌, ◌/◌, ◌^◌, ◌≤◌, ◌<◌, ℕ, length, Some, IfOk, OnOk, is_err};
ghost use Rattle.vbm_ports.specs.Counts.{counted, IsCounted};
ghost use Rattle.vbm_ports.specs.Disk.{OnlyReads};
ghost use Rattle.vbm_ports.specs.Files.{bytes_of, piece, IsWritten};
ghost use Rattle.vbm_ports.specs.Names.{IsStoreName};
ghost use Rattle.vbm_volume.specs.Image.{word_of, data_at};
ghost use Rattle.vbm_volume.specs.Like.{sector_at};
ghost use Rattle.vbm_volume.specs.Wrote.{sectors_at, Wrote};
ghost use Rattle.vbm_blockmap.specs.Entry.{word_of_entry, IsEntry};
ghost use Rattle.vbm_blockmap.specs.Pending.{position_in};
ghost use Rattle.vbm_image.specs.Image.{image_name, image_id, file_in, staged_word, IsInForm, FitsIn};

use uuid::Uuid;
use vbm_blockmap::{Entry, Pending, Used, entry_of};
use vbm_header::{BLOCK_LEN, Header, SECTOR_LEN};
use vbm_ids::Identified;
use vbm_named::Named;
use vbm_ports::{Disk, Failed, Text};
use vbm_volume::{read_words, word_at};

/// An image file, with the entries that wait for a commit.
#[derive(Drop)]
pub struct Image {
    /// The file's name.
    pub name: Text,
    /// The header as it is in the file.
    pub header: Header,
    /// The entries that are not in the file's block map yet.
    pub pending: Pending,
    /// Which positions have an entry, where that was looked up. Others may be marked, too.
    pub used: Option<Used>,
}

impl Named for Image {
    ghost name_of = { image_name };

    fn name(&self) -> &[u8] {
        self.name.bytes()
    }
}

impl Identified for Image {
    ghost id_of = { image_id };

    fn id(&self) -> Uuid {
        self.header.id
    }
}

/// The entry of a block: the staged one, or that of the file, for which the disk is called once. It fails where the disk does.
pub fn entry<D: Disk>(disk: &mut D, image: &Image, block: u32) -> Result<Entry, Failed>
    requires form { IsInForm image.now }
    requires block { block < image.now.header.blocks }
    requires fits { D.tells → FitsIn (D.state disk.old).files image.now }
    ensures word { D.tells → IfOk result (λ entry. word_of_entry entry
        ≡ staged_word (file_in (D.state disk.old).files image.now) image.now.header image.now.pending.staged block) }
    ensures is { IfOk result IsEntry }
    ensures staged { IfOk result (λ entry. (p : ℕ)
        → position_in image.now.pending.staged block ≡ Some p → entry ≡ Entry.At p) }
    ensures calls { ((D.state disk.new).calls ≡ (D.state disk.old).calls)
        ⊎ ((D.state disk.new).calls ≡ counted (D.state disk.old).calls) }
    ensures reads { OnlyReads D.tells (D.state disk.old) (D.state disk.new) }
    ensures faults { IsCounted (is_err result) (D.state disk.old).faults (D.state disk.new).faults }
{
    if let Some(at) = image.pending.get(block) {
        return Ok(Entry::At(at));
    }
    let word = read_word(disk, image.name.bytes(), &image.header, block)?;
    Ok(entry_of(word))
}

// The word of a block in the file.
fn read_word<D: Disk>(disk: &mut D, name: &[u8], header: &Header, block: u32) -> Result<u32, Failed>
    requires name { IsStoreName name.now }
    requires map { D.tells
        → header.now.off_blocks + 4 * block + 4 ≤ length (bytes_of ((D.state disk.old).files name.now)) }
    ensures word { D.tells
        → IfOk result (λ word. word ≡ word_of (bytes_of ((D.state disk.old).files name.now)) header.now block) }
    ensures calls { (D.state disk.new).calls ≡ counted (D.state disk.old).calls }
    ensures reads { OnlyReads D.tells (D.state disk.old) (D.state disk.new) }
    ensures faults { IsCounted (is_err result) (D.state disk.old).faults (D.state disk.new).faults }
{
    let mut word = [0; 4];
    let at = header.off_blocks as u64 + 4 * block as u64;
    read_words(disk, name, at, &mut word)?;
    Ok(word_at(&word, 0))
}

// Where a sector of a position stands in the file.
pub(crate) fn place(header: &Header, at: u32, first: u32) -> u64
    ensures place { result ≡ sector_at header.now at first }
    ensures low { result ≤ 2 ^ 54 }
{
    u64::from(header.off_data) + u64::from(at) * BLOCK_LEN + u64::from(first) * SECTOR_LEN
}

/// Reads the sectors of a position from one of its 2048 on, by one call of the disk. Bytes that the disk does not give stay. It
/// fails where the disk does.
pub fn read_in_block<D: Disk>(
    disk: &mut D,
    image: &Image,
    at: u32,
    first: u32,
    out: &mut [u8],
) -> Result<(), Failed>
    requires form { IsInForm image.now }
    requires inside { first * 512 + length out.old ≤ 2 ^ 20 }
    requires data { D.tells
        → data_at image.now.header (at + 1) ≤ length (file_in (D.state disk.old).files image.now) }
    ensures bytes { D.tells → OnOk result (out.new
        ≡ piece (file_in (D.state disk.old).files image.now) (sector_at image.now.header at first) (length out.old)) }
    ensures calls { (D.state disk.new).calls ≡ counted (D.state disk.old).calls }
    ensures reads { OnlyReads D.tells (D.state disk.old) (D.state disk.new) }
    ensures faults { IsCounted (is_err result) (D.state disk.old).faults (D.state disk.new).faults }
{
    disk.read(image.name.bytes(), place(&image.header, at, first), out)?;
    Ok(())
}

/// Writes whole sectors of a position from one of its 2048 on, by one call of the disk. It fails where the disk does.
pub fn write_in_block<D: Disk>(
    disk: &mut D,
    image: &Image,
    at: u32,
    first: u32,
    bytes: &[u8],
) -> Result<(), Failed>
    requires form { IsInForm image.now }
    requires some { 0 < length bytes.now }
    requires whole { length bytes.now ≡ length bytes.now / 512 * 512 }
    requires inside { first + length bytes.now / 512 ≤ 2048 }
    requires fits { D.tells → FitsIn (D.state disk.old).files image.now }
    ensures written { D.tells → OnOk result
        (IsWritten image.now.name (sector_at image.now.header at first) bytes.now (D.state disk.old).files (D.state disk.new).files) }
    ensures fits { D.tells → OnOk result (FitsIn (D.state disk.new).files image.now) }
    ensures wrote { D.tells → Wrote image.now.name image.now.header (file_in (D.state disk.old).files image.now)
        (sectors_at (file_in (D.state disk.old).files image.now) image.now.header at first (length bytes.now / 512))
        (D.state disk.old) (D.state disk.new) }
    ensures calls { (D.state disk.new).calls ≡ counted (D.state disk.old).calls }
    ensures faults { IsCounted (is_err result) (D.state disk.old).faults (D.state disk.new).faults }
{
    disk.write(image.name.bytes(), place(&image.header, at, first), bytes)
}
