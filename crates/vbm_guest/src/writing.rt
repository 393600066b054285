//! Guest writes, which take all their memory first.

ghost use Rattle.std.specs.Prelude.{◌≡◌, ◌+◌, ◌*◌, ◌/◌, ◌^◌, ◌≤◌, ◌<◌, length, replicate, All, OnOk};
ghost use Rattle.vbm_ports.specs.Counts.{IsCounted};
ghost use Rattle.vbm_ports.specs.Disk.{OnlyReads, Passes};
ghost use Rattle.vbm_intent.specs.Log.{IsShutInAll};
ghost use Rattle.vbm_volume.specs.Sectors.{sector_count};
ghost use Rattle.vbm_volume.specs.Chain.{IsRising};
ghost use Rattle.vbm_image.specs.Image.{IsInForm, FitsIn};
ghost use Rattle.vbm_chain.specs.Settled.{settled_links};
ghost use Rattle.vbm_guest.specs.declared.flushing.TheConstants.{MOST_STAGED};
ghost use Rattle.vbm_guest.specs.Runs.{last_of, EndsOnce, OnLast, ReplacesRun, KeepsOtherChains};
ghost use Rattle.vbm_guest.specs.Edited.{AreNamedApart, ChangesAt, StagesAtMost, IsRoomed};
ghost use Rattle.vbm_guest.specs.Flushing.{staged_in};
ghost use Rattle.vbm_guest.specs.Memory.{is_failed, UnlessFailed, OnWantOfMemory, HasRoomFor};
ghost use Rattle.vbm_guest.specs.Writing.{AreWritten, WroteRun, WritesRun, IsInWrite};

use crate::flushing::settle_if_full;
use crate::memory::{WriteFault, filled};
use crate::preparing::prepare;
use crate::runs::write_run;
use std::alloc::Global;
use vbm_header::SECTOR_LEN;
use vbm_image::Images;
use vbm_intent::{Log, Plan};
use vbm_ports::Disk;

/// Writes 1 to 256 whole sectors to the disk of a chain, from one on, and settles nothing. A block that the chain's last image has
/// at a position is written in place; another is copied from the chain, and staged. All memory is taken first: without it no
/// sector changes. The plan, which is empty before and after, keeps room for the settling of all staged entries.
pub fn write_sectors<D: Disk>(
    alloc: Global,
    disk: &mut D,
    images: &mut Images,
    chain: &[u32],
    lba: u64,
    bytes: &[u8],
    plan: &mut Plan,
) -> Result<(), WriteFault>
    requires form { All IsInForm images.old.items }
    requires names { AreNamedApart images.old.items }
    requires chain { All (λ k. k < length images.old.items) chain.now }
    requires ends { EndsOnce chain.now }
    requires room { HasRoomFor (staged_in images.old.items) plan.old }
    requires few { staged_in images.old.items < MOST_STAGED }
    requires fits { D.tells → All (FitsIn (D.state disk.old).files) images.old.items }
    requires rising { D.tells → IsRising (settled_links (D.state disk.old).files images.old.items chain.now) }
    requires some { 0 < length bytes.now }
    requires whole { length bytes.now ≡ length bytes.now / 512 * 512 }
    requires run { length bytes.now / 512 ≤ 256 }
    requires range { OnLast images.old.items chain.now (λ image. lba + length bytes.now / 512 ≤ sector_count image.header) }
    ensures form { All IsInForm images.new.items }
    ensures changes { ChangesAt (StagesAtMost 2) (last_of chain.now) images.old.items images.new.items }
    ensures stay { OnWantOfMemory result (ChangesAt IsRoomed (last_of chain.now) images.old.items images.new.items) }
    ensures spare { images.new.spare ≡ images.old.spare }
    ensures room { HasRoomFor (staged_in images.new.items) plan.new }
    ensures count { staged_in images.new.items ≤ staged_in images.old.items + 2 }
    ensures replaces { D.tells → OnOk result (ReplacesRun chain.now (D.state disk.old).files images.old.items
        (D.state disk.new).files images.new.items lba (length bytes.now / 512) bytes.now) }
    ensures others { D.tells → KeepsOtherChains (last_of chain.now) (D.state disk.old).files images.old.items
        (D.state disk.new).files images.new.items }
    ensures fits { D.tells → UnlessFailed result (All (FitsIn (D.state disk.new).files) images.new.items) }
    ensures wrote { D.tells → WroteRun chain.now images.old.items lba (length bytes.now / 512) (D.state disk.old) (D.state disk.new) }
    ensures no_memory { OnWantOfMemory result (OnlyReads D.tells (D.state disk.old) (D.state disk.new)) }
    ensures faults { IsCounted (is_failed result) (D.state disk.old).faults (D.state disk.new).faults }
{
    let count = bytes.len() as u64 / SECTOR_LEN;
    let mut prepared = prepare(alloc, disk, images, chain, lba, count, plan)?;
    match write_run(
        disk,
        images,
        chain,
        lba,
        bytes,
        prepared.entries,
        &mut prepared.buf,
    ) {
        Ok(()) => Ok(()),
        Err(_) => Err(WriteFault::Failed),
    }
}

/// Writes as `write_sectors` does, and settles all staged entries where `MOST_STAGED` of them are staged then.
pub fn guest_write<D: Disk>(
    alloc: Global,
    disk: &mut D,
    log: &mut Log,
    images: &mut Images,
    chain: &[u32],
    lba: u64,
    bytes: &[u8],
    plan: &mut Plan,
) -> Result<(), WriteFault>
    requires form { All IsInForm images.old.items }
    requires names { AreNamedApart images.old.items }
    requires chain { All (λ k. k < length images.old.items) chain.now }
    requires ends { EndsOnce chain.now }
    requires room { HasRoomFor (staged_in images.old.items) plan.old }
    requires few { staged_in images.old.items < MOST_STAGED }
    requires shut { D.tells → IsShutInAll (D.state disk.old).may_leave }
    requires fits { D.tells → All (FitsIn (D.state disk.old).files) images.old.items }
    requires rising { D.tells → IsRising (settled_links (D.state disk.old).files images.old.items chain.now) }
    requires some { 0 < length bytes.now }
    requires whole { length bytes.now ≡ length bytes.now / 512 * 512 }
    requires run { length bytes.now / 512 ≤ 256 }
    requires range { OnLast images.old.items chain.now (λ image. lba + length bytes.now / 512 ≤ sector_count image.header) }
    ensures form { All IsInForm images.new.items }
    ensures images { AreWritten (last_of chain.now) images.old.items images.new.items }
    ensures stay { OnWantOfMemory result (ChangesAt IsRoomed (last_of chain.now) images.old.items images.new.items) }
    ensures spare { images.new.spare ≡ images.old.spare }
    ensures room { HasRoomFor (staged_in images.new.items) plan.new }
    ensures few { UnlessFailed result (staged_in images.new.items < MOST_STAGED) }
    ensures writes { D.tells → OnOk result (WritesRun chain.now images.old.items images.new.items
        lba (length bytes.now / 512) bytes.now (D.state disk.old) (D.state disk.new)) }
    ensures replaces { D.tells → OnOk result (ReplacesRun chain.now (D.state disk.old).files images.old.items
        (D.state disk.new).files images.new.items lba (length bytes.now / 512) bytes.now) }
    ensures others { D.tells → UnlessFailed result (KeepsOtherChains (last_of chain.now) (D.state disk.old).files images.old.items
        (D.state disk.new).files images.new.items) }
    ensures fits { D.tells → UnlessFailed result (All (FitsIn (D.state disk.new).files) images.new.items) }
    ensures shut { D.tells → UnlessFailed result (IsShutInAll (D.state disk.new).may_leave) }
    ensures any_moment { D.tells → Passes (D.state disk.old) (D.state disk.new)
        (IsInWrite chain.now images.old.items lba (length bytes.now / 512) bytes.now (D.state disk.old)) }
    ensures no_memory { OnWantOfMemory result (OnlyReads D.tells (D.state disk.old) (D.state disk.new)) }
    ensures faults { IsCounted (is_failed result) (D.state disk.old).faults (D.state disk.new).faults }
{
    write_sectors(alloc, disk, images, chain, lba, bytes, plan)?;
    match settle_if_full(disk, log, images, plan) {
        Ok(()) => Ok(()),
        Err(_) => Err(WriteFault::Failed),
    }
}

/// Fills 1 to 256 sectors of the disk of a chain with one byte, as `guest_write` writes them.
pub fn guest_fill<D: Disk>(
    alloc: Global,
    disk: &mut D,
    log: &mut Log,
    images: &mut Images,
    chain: &[u32],
    lba: u64,
    count: u32,
    byte: u8,
    plan: &mut Plan,
) -> Result<(), WriteFault>
    requires form { All IsInForm images.old.items }
    requires names { AreNamedApart images.old.items }
    requires chain { All (λ k. k < length images.old.items) chain.now }
    requires ends { EndsOnce chain.now }
    requires room { HasRoomFor (staged_in images.old.items) plan.old }
    requires few { staged_in images.old.items < MOST_STAGED }
    requires shut { D.tells → IsShutInAll (D.state disk.old).may_leave }
    requires fits { D.tells → All (FitsIn (D.state disk.old).files) images.old.items }
    requires rising { D.tells → IsRising (settled_links (D.state disk.old).files images.old.items chain.now) }
    requires some { 0 < count }
    requires run { count ≤ 256 }
    requires range { OnLast images.old.items chain.now (λ image. lba + count ≤ sector_count image.header) }
    ensures form { All IsInForm images.new.items }
    ensures images { AreWritten (last_of chain.now) images.old.items images.new.items }
    ensures stay { OnWantOfMemory result (ChangesAt IsRoomed (last_of chain.now) images.old.items images.new.items) }
    ensures spare { images.new.spare ≡ images.old.spare }
    ensures room { HasRoomFor (staged_in images.new.items) plan.new }
    ensures few { UnlessFailed result (staged_in images.new.items < MOST_STAGED) }
    ensures writes { D.tells → OnOk result (WritesRun chain.now images.old.items images.new.items
        lba count (replicate (count * 512) byte) (D.state disk.old) (D.state disk.new)) }
    ensures replaces { D.tells → OnOk result (ReplacesRun chain.now (D.state disk.old).files images.old.items
        (D.state disk.new).files images.new.items lba count (replicate (count * 512) byte)) }
    ensures others { D.tells → UnlessFailed result (KeepsOtherChains (last_of chain.now) (D.state disk.old).files images.old.items
        (D.state disk.new).files images.new.items) }
    ensures fits { D.tells → UnlessFailed result (All (FitsIn (D.state disk.new).files) images.new.items) }
    ensures shut { D.tells → UnlessFailed result (IsShutInAll (D.state disk.new).may_leave) }
    ensures any_moment { D.tells → Passes (D.state disk.old) (D.state disk.new)
        (IsInWrite chain.now images.old.items lba count (replicate (count * 512) byte) (D.state disk.old)) }
    ensures no_memory { OnWantOfMemory result (OnlyReads D.tells (D.state disk.old) (D.state disk.new)) }
    ensures faults { IsCounted (is_failed result) (D.state disk.old).faults (D.state disk.new).faults }
{
    let bytes = filled(alloc, count * SECTOR_LEN as u32, byte)?;
    guest_write(alloc, disk, log, images, chain, lba, &bytes, plan)
}
