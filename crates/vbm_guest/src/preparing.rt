//! What a write needs before its first sector.

ghost use Rattle.std.specs.Prelude.{◌≡◌, ◌+◌, ◌*◌, ◌/◌, ◌^◌, ◌≤◌, ◌<◌, length, All, IfOk};
ghost use Rattle.vbm_ports.specs.Counts.{IsCounted};
ghost use Rattle.vbm_ports.specs.Disk.{OnlyReads};
ghost use Rattle.vbm_volume.specs.Sectors.{sector_count};
ghost use Rattle.vbm_image.specs.Image.{IsInForm, FitsIn};
ghost use Rattle.vbm_guest.specs.Runs.{last_of, EndsOnce, OnLast};
ghost use Rattle.vbm_guest.specs.Edited.{AreNamedApart, ChangesAt, IsRoomed};
ghost use Rattle.vbm_guest.specs.Flushing.{staged_in};
ghost use Rattle.vbm_guest.specs.Memory.{is_failed, HasRoomFor};
ghost use Rattle.vbm_guest.specs.Preparing.{IsPreparedFor};

use crate::memory::{WriteFault, take_memory};
use crate::planning::count_staged;
use crate::runs::RunEntries;
use std::alloc::Global;
use vbm_image::Images;
use vbm_intent::Plan;
use vbm_ports::Disk;

/// The entries of a run, and a buffer for a block where one of them has no position.
#[derive(Drop)]
pub(crate) struct Prepared {
    pub(crate) entries: RunEntries,
    pub(crate) buf: Vec<u8>,
}

/// Looks up the entries of a run in the last image of a chain, and takes the memory of its write: none where it goes in place.
/// The disk is only read.
pub(crate) fn prepare<D: Disk>(
    alloc: Global,
    disk: &mut D,
    images: &mut Images,
    chain: &[u32],
    lba: u64,
    count: u64,
    plan: &mut Plan,
) -> Result<Prepared, WriteFault>
    requires form { All IsInForm images.old.items }
    requires chain { All (λ k. k < length images.old.items) chain.now }
    requires ends { EndsOnce chain.now }
    requires fits { D.tells → All (FitsIn (D.state disk.old).files) images.old.items }
    requires names { AreNamedApart images.old.items }
    requires room { HasRoomFor (staged_in images.old.items) plan.old }
    requires few { staged_in images.old.items ≤ 8192 }
    requires some { 0 < count }
    requires range { OnLast images.old.items chain.now (λ image. lba + count ≤ sector_count image.header) }
    ensures form { All IsInForm images.new.items }
    ensures fits { D.tells → All (FitsIn (D.state disk.old).files) images.new.items }
    ensures changes { ChangesAt IsRoomed (last_of chain.now) images.old.items images.new.items }
    ensures spare { images.new.spare ≡ images.old.spare }
    ensures room { HasRoomFor (staged_in images.new.items) plan.new }
    ensures prepared { IfOk result (IsPreparedFor D.tells (D.state disk.old).files images.new.items chain.now lba count plan.new) }
    ensures reads { OnlyReads D.tells (D.state disk.old) (D.state disk.new) }
    ensures faults { IsCounted (is_failed result) (D.state disk.old).faults (D.state disk.new).faults }
{
    let last = chain[chain.len() - 1] as usize;
    let Ok(entries) = RunEntries::look_up(disk, images.get(last), lba, count) else {
        return Err(WriteFault::Failed);
    };
    if entries.are_placed() {
        let buf = Vec::new(alloc);
        return Ok(Prepared { entries, buf });
    }
    let staged = count_staged(images);
    let buf = take_memory(alloc, disk, images.get_mut(last), plan, staged)?;
    Ok(Prepared { entries, buf })
}
