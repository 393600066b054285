//! Writes of runs of sectors, which lie in one block or two.

ghost use Rattle.std.specs.Prelude.{◌≡◌, ◌+◌, ◌-◌, ◌*◌, ◌/◌, ◌^◌, ◌≤◌, ◌<◌, length, All, true, false, IfOk, OnOk, is_err};
ghost use Rattle.vbm_ports.specs.Counts.{IsCounted};
ghost use Rattle.vbm_ports.specs.Disk.{OnlyReads};
ghost use Rattle.vbm_volume.specs.Sectors.{sector_count};
ghost use Rattle.vbm_volume.specs.Chain.{IsRising};
ghost use Rattle.vbm_image.specs.Image.{IsInForm, FitsIn};
ghost use Rattle.vbm_chain.specs.Settled.{settled_links};
ghost use Rattle.vbm_guest.specs.Runs.{last_of, EndsOnce, OnLast, ReplacesRun, KeepsOtherChains};
ghost use Rattle.vbm_guest.specs.Edited.{AreNamedApart, ChangesAt, StagesAtMost, HasRoomToStage};
ghost use Rattle.vbm_guest.specs.RunEntries.{are_placed, AreEntriesOf};
ghost use Rattle.vbm_guest.specs.Writing.{WroteRun};

use crate::parts::write_part;
use vbm_blockmap::Entry;
use vbm_header::{SECTOR_LEN, SECTORS_OF_BLOCK};
use vbm_image::{Image, Images, entry};
use vbm_ports::{Disk, Failed};

/// The entries of the blocks in which a run begins and ends.
#[derive(Clone, Copy)]
pub(crate) struct RunEntries {
    /// That of the block with the first sector.
    pub(crate) first: Entry,
    /// That of the block with the last sector.
    pub(crate) last: Entry,
}

impl RunEntries {
    /// Looks up the entries of an image: one for each of its blocks, by one call of the disk at most. It fails where the disk does.
    pub(crate) fn look_up<D: Disk>(
        disk: &mut D,
        image: &Image,
        lba: u64,
        count: u64,
    ) -> Result<RunEntries, Failed>
        requires form { IsInForm image.now }
        requires fits { D.tells → FitsIn (D.state disk.old).files image.now }
        requires some { 0 < count }
        requires range { lba + count ≤ sector_count image.now.header }
        ensures entries { IfOk result (AreEntriesOf D.tells (D.state disk.old).files image.now lba count) }
        ensures reads { OnlyReads D.tells (D.state disk.old) (D.state disk.new) }
        ensures faults { IsCounted (is_err result) (D.state disk.old).faults (D.state disk.new).faults }
    {
        let block = lba / SECTORS_OF_BLOCK;
        let last_block = (lba + count - 1) / SECTORS_OF_BLOCK;
        let first = entry(disk, image, block as u32)?;
        if last_block == block {
            return Ok(RunEntries { first, last: first });
        }
        let last = entry(disk, image, last_block as u32)?;
        Ok(RunEntries { first, last })
    }

    /// Whether both have a position, so that the run is written in place.
    pub(crate) fn are_placed(&self) -> bool
        ensures { result ≡ are_placed self.now }
    {
        matches!(self.first, Entry::At(_)) && matches!(self.last, Entry::At(_))
    }
}

/// Writes a run of up to 2048 sectors to the disk of a chain whose last image has these entries. Where they have no position the
/// buffer has room for a block. It takes no memory. It fails where the disk does.
pub(crate) fn write_run<D: Disk>(
    disk: &mut D,
    images: &mut Images,
    chain: &[u32],
    lba: u64,
    bytes: &[u8],
    entries: RunEntries,
    buf: &mut [u8],
) -> Result<(), Failed>
    requires form { All IsInForm images.old.items }
    requires names { AreNamedApart images.old.items }
    requires chain { All (λ k. k < length images.old.items) chain.now }
    requires ends { EndsOnce chain.now }
    requires fits { D.tells → All (FitsIn (D.state disk.old).files) images.old.items }
    requires rising { D.tells → IsRising (settled_links (D.state disk.old).files images.old.items chain.now) }
    requires found { OnLast images.old.items chain.now
        (λ image. AreEntriesOf D.tells (D.state disk.old).files image lba (length bytes.now / 512) entries) }
    requires room { are_placed entries ≡ false → OnLast images.old.items chain.now (HasRoomToStage 2) }
    requires buf { are_placed entries ≡ false → length buf.old ≡ 2 ^ 20 }
    requires some { 0 < length bytes.now }
    requires whole { length bytes.now ≡ length bytes.now / 512 * 512 }
    requires few { length bytes.now ≤ 2 ^ 20 }
    requires low { lba < 2 ^ 32 }
    requires range { OnLast images.old.items chain.now (λ image. lba + length bytes.now / 512 ≤ sector_count image.header) }
    ensures form { All IsInForm images.new.items }
    ensures changes { ChangesAt (StagesAtMost 2) (last_of chain.now) images.old.items images.new.items }
    ensures placed { are_placed entries ≡ true → images.new ≡ images.old }
    ensures spare { images.new.spare ≡ images.old.spare }
    ensures replaces { D.tells → OnOk result (ReplacesRun chain.now (D.state disk.old).files images.old.items
        (D.state disk.new).files images.new.items lba (length bytes.now / 512) bytes.now) }
    ensures others { D.tells → KeepsOtherChains (last_of chain.now) (D.state disk.old).files images.old.items
        (D.state disk.new).files images.new.items }
    ensures fits { D.tells → OnOk result (All (FitsIn (D.state disk.new).files) images.new.items) }
    ensures wrote { D.tells → WroteRun chain.now images.old.items lba (length bytes.now / 512) (D.state disk.old) (D.state disk.new) }
    ensures faults { IsCounted (is_err result) (D.state disk.old).faults (D.state disk.new).faults }
{
    let block = (lba / SECTORS_OF_BLOCK) as u32;
    let first = (lba % SECTORS_OF_BLOCK) as u32;
    let room = (SECTORS_OF_BLOCK - u64::from(first)) as usize * SECTOR_LEN as usize;
    if bytes.len() <= room {
        return write_part(disk, images, chain, block, first, bytes, entries.first, buf);
    }
    let (here, next) = bytes.split_at(room);
    write_part(disk, images, chain, block, first, here, entries.first, buf)?;
    write_part(disk, images, chain, block + 1, 0, next, entries.last, buf)
}
