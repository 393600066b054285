//! Writes inside one block.

ghost use Rattle.std.specs.Prelude.{◌≡◌, ◌+◌, ◌*◌, ◌/◌, ◌^◌, ◌≤◌, ◌<◌, ℕ, length, All, Some, None, true, false, OnOk, is_err};
ghost use Rattle.vbm_ports.specs.Counts.{IsCounted};
ghost use Rattle.vbm_ports.specs.Files.{put};
ghost use Rattle.vbm_volume.specs.Sectors.{sector_count};
ghost use Rattle.vbm_volume.specs.Chain.{IsRising};
ghost use Rattle.vbm_volume.specs.Wrote.{Wrote};
ghost use Rattle.vbm_blockmap.specs.Pending.{position_in};
ghost use Rattle.vbm_image.specs.declared.image.Image.{Image};
ghost use Rattle.vbm_image.specs.Image.{file_in, staged_word, IsInForm, FitsIn};
ghost use Rattle.vbm_chain.specs.Settled.{settled_links};
ghost use Rattle.vbm_guest.specs.Runs.{in_run, last_of, EndsOnce, OnLast, ReplacesRun, KeepsOtherChains};
ghost use Rattle.vbm_guest.specs.Edited.{AreNamedApart, ChangesAt, TakesAtMost, HasRoomToStage};
ghost use Rattle.vbm_guest.specs.Parts.{is_placed, IsEntryAt, KeepsEntriesBut, KeepsEntriesIn, ServesRun, ServesCopied};
ghost use Rattle.vbm_guest.specs.Writing.{WroteRun};

use vbm_blockmap::Entry;
use vbm_chain::copy_up;
use vbm_header::SECTOR_LEN;
use vbm_image::{Image, Images, stage_block, write_in_block};
use vbm_ports::{Disk, Failed};

/// Writes sectors inside one block of the disk of a chain, where the last image has this entry of it: in place at a position, by
/// one call of the disk; else to a copy of the block, which is staged. It takes no memory. It fails where the disk does.
pub(crate) fn write_part<D: Disk>(
    disk: &mut D,
    images: &mut Images,
    chain: &[u32],
    block: u32,
    first: u32,
    bytes: &[u8],
    entry: Entry,
    buf: &mut [u8],
) -> Result<(), Failed>
    requires form { All IsInForm images.old.items }
    requires names { AreNamedApart images.old.items }
    requires chain { All (λ k. k < length images.old.items) chain.now }
    requires ends { EndsOnce chain.now }
    requires fits { D.tells → All (FitsIn (D.state disk.old).files) images.old.items }
    requires rising { D.tells → IsRising (settled_links (D.state disk.old).files images.old.items chain.now) }
    requires found { OnLast images.old.items chain.now (λ image. IsEntryAt D.tells (D.state disk.old).files image block entry) }
    requires room { is_placed entry ≡ false → OnLast images.old.items chain.now (HasRoomToStage 1) }
    requires buf { is_placed entry ≡ false → length buf.old ≡ 2 ^ 20 }
    requires some { 0 < length bytes.now }
    requires whole { length bytes.now ≡ length bytes.now / 512 * 512 }
    requires inside { first + length bytes.now / 512 ≤ 2048 }
    requires range { OnLast images.old.items chain.now
        (λ image. block * 2048 + first + length bytes.now / 512 ≤ sector_count image.header) }
    ensures form { All IsInForm images.new.items }
    ensures changes { ChangesAt (TakesAtMost 1) (last_of chain.now) images.old.items images.new.items }
    ensures placed { is_placed entry ≡ true → images.new ≡ images.old }
    ensures spare { images.new.spare ≡ images.old.spare }
    ensures entries { OnOk result (KeepsEntriesIn (last_of chain.now) block D.tells
        (D.state disk.old).files images.old.items (D.state disk.new).files images.new.items) }
    ensures replaces { D.tells → OnOk result (ReplacesRun chain.now (D.state disk.old).files images.old.items
        (D.state disk.new).files images.new.items (block * 2048 + first) (length bytes.now / 512) bytes.now) }
    ensures others { D.tells → KeepsOtherChains (last_of chain.now) (D.state disk.old).files images.old.items
        (D.state disk.new).files images.new.items }
    ensures fits { D.tells → OnOk result (All (FitsIn (D.state disk.new).files) images.new.items) }
    ensures wrote { D.tells → WroteRun chain.now images.old.items (block * 2048 + first) (length bytes.now / 512)
        (D.state disk.old) (D.state disk.new) }
    ensures faults { IsCounted (is_err result) (D.state disk.old).faults (D.state disk.new).faults }
{
    let last = chain[chain.len() - 1] as usize;
    match entry {
        Entry::At(at) => write_in_place(disk, images.get(last), at, block, first, bytes),
        _ => {
            copy_up(disk, images, chain, block, buf)?;
            stage_copy(disk, images.get_mut(last), block, first, bytes, buf)
        }
    }
}

// Writes sectors at the position of their block.
fn write_in_place<D: Disk>(
    disk: &mut D,
    image: &Image,
    at: u32,
    block: u32,
    first: u32,
    bytes: &[u8],
) -> Result<(), Failed>
    requires form { IsInForm image.now }
    requires position { at < 0xFFFFFFFE }
    requires some { 0 < length bytes.now }
    requires whole { length bytes.now ≡ length bytes.now / 512 * 512 }
    requires inside { first + length bytes.now / 512 ≤ 2048 }
    requires range { block * 2048 + first + length bytes.now / 512 ≤ sector_count image.now.header }
    requires fits { D.tells → FitsIn (D.state disk.old).files image.now }
    requires here { D.tells
        → staged_word (file_in (D.state disk.old).files image.now) image.now.header image.now.pending.staged block ≡ at }
    ensures serves { D.tells → OnOk result (ServesRun (D.state disk.old).files image.now (D.state disk.new).files image.now
        (block * 2048 + first) (length bytes.now / 512) bytes.now) }
    ensures entries { OnOk result
        (KeepsEntriesBut block D.tells (D.state disk.old).files image.now (D.state disk.new).files image.now) }
    ensures fits { D.tells → OnOk result (FitsIn (D.state disk.new).files image.now) }
    ensures wrote { D.tells → Wrote image.now.name image.now.header (file_in (D.state disk.old).files image.now)
        (in_run (block * 2048 + first) (length bytes.now / 512)) (D.state disk.old) (D.state disk.new) }
    ensures faults { IsCounted (is_err result) (D.state disk.old).faults (D.state disk.new).faults }
{
    write_in_block(disk, image, at, first, bytes)
}

// Puts sectors into a copy of their block, and stages it.
fn stage_copy<D: Disk>(
    disk: &mut D,
    image: &mut Image,
    block: u32,
    first: u32,
    bytes: &[u8],
    buf: &mut [u8],
) -> Result<(), Failed>
    requires form { IsInForm image.old }
    requires another { position_in image.old.pending.staged block ≡ None }
    requires room { HasRoomToStage 1 image.old }
    requires some { 0 < length bytes.now }
    requires whole { length bytes.now ≡ length bytes.now / 512 * 512 }
    requires inside { first + length bytes.now / 512 ≤ 2048 }
    requires range { block * 2048 + first + length bytes.now / 512 ≤ sector_count image.old.header }
    requires buf { length buf.old ≡ 2 ^ 20 }
    requires fits { D.tells → FitsIn (D.state disk.old).files image.old }
    ensures form { IsInForm image.new }
    ensures same { TakesAtMost 1 image.old image.new }
    ensures serves { D.tells → OnOk result (ServesCopied (D.state disk.old).files image.old (D.state disk.new).files image.new
        block (block * 2048 + first) (length bytes.now / 512) bytes.now buf.old) }
    ensures entries { OnOk result
        (KeepsEntriesBut block D.tells (D.state disk.old).files image.old (D.state disk.new).files image.new) }
    ensures fits { D.tells → OnOk result (FitsIn (D.state disk.new).files image.new) }
    ensures wrote { D.tells → Wrote image.old.name image.old.header (file_in (D.state disk.old).files image.old) (λ i. false)
        (D.state disk.old) (D.state disk.new) }
    ensures faults { IsCounted (is_err result) (D.state disk.old).faults (D.state disk.new).faults }
{
    overlay(buf, first as usize * SECTOR_LEN as usize, bytes);
    stage_block(disk, image, block, buf)
}

// Puts bytes over others.
fn overlay(buf: &mut [u8], at: usize, bytes: &[u8])
    requires { at + length bytes.now ≤ length buf.old }
    ensures { buf.new ≡ put at bytes.now buf.old }
{
    buf[at..at + bytes.len()].copy_from_slice(bytes);
}
