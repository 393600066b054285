//! The memory of a write.

ghost use Rattle.std.specs.Prelude.{◌≡◌, ◌+◌, ◌*◌, ◌^◌, ◌≤◌, [], length, vec_len, IfOk, OnOk, replicate, false};
ghost use Rattle.vbm_ports.specs.Counts.{IsCounted};
ghost use Rattle.vbm_ports.specs.Disk.{OnlyReads};
ghost use Rattle.vbm_image.specs.Image.{left_in, IsInForm, FitsIn};
ghost use Rattle.vbm_guest.specs.Edited.{IsRoomed, HasRoomToStage};
ghost use Rattle.vbm_guest.specs.Memory.{is_failed, HasRoomFor};

use std::alloc::Global;
use vbm_blockmap::Used;
use vbm_header::BLOCK_LEN;
use vbm_image::{Image, load_used};
use vbm_intent::Plan;
use vbm_ports::{Disk, NoMemory};

/// Why a write was not done.
#[derive(Clone, Copy, Debug, PartialEq, Eq)]
pub enum WriteFault {
    /// The disk failed. Sectors of the run may hold anything.
    Failed,
    /// There was no memory. No sector changed.
    NoMemory,
}

/// So many blocks a write stages at most: those in which 256 sectors lie.
pub(crate) const MOST_BLOCKS: u32 = 2;

/// How many bytes of a plan the settling of one entry takes at most, with the change of the count.
const SETTLING_LEN: u32 = 200;

/// Makes room for two more staged blocks of an image and for the settling of them in an empty plan, where so many entries are
/// staged, and gives a buffer for a block. Without memory all is as it was, but for room. It fails where the disk does.
pub(crate) fn take_memory<D: Disk>(
    alloc: Global,
    disk: &mut D,
    image: &mut Image,
    plan: &mut Plan,
    staged: u32,
) -> Result<Vec<u8>, WriteFault>
    requires form { IsInForm image.old }
    requires few { length image.old.pending.staged ≤ 8192 }
    requires small { staged ≤ 8192 }
    requires fits { D.tells → FitsIn (D.state disk.old).files image.old }
    ensures form { IsInForm image.new }
    ensures fits { D.tells → FitsIn (D.state disk.old).files image.new }
    ensures same { IsRoomed image.old image.new }
    ensures room { OnOk result (HasRoomToStage 2 image.new) }
    ensures buf { IfOk result (λ buf. vec_len buf ≡ 2 ^ 20) }
    ensures changes { plan.new.changes ≡ plan.old.changes }
    ensures spare { plan.old.spare ≤ plan.new.spare }
    ensures plan { OnOk result (200 * (staged + 2) ≤ plan.new.spare) }
    ensures reads { OnlyReads D.tells (D.state disk.old) (D.state disk.new) }
    ensures faults { IsCounted (is_failed result) (D.state disk.old).faults (D.state disk.new).faults }
{
    let entries = staged + MOST_BLOCKS;
    if image.pending.reserve(MOST_BLOCKS).is_err() {
        return Err(WriteFault::NoMemory);
    }
    if plan.reserve(2 * entries, SETTLING_LEN * entries).is_err() {
        return Err(WriteFault::NoMemory);
    }
    let buf = zeros(alloc, BLOCK_LEN as u32)?;
    take_marks(alloc, disk, image)?;
    Ok(buf)
}

// So many zeros.
fn zeros(alloc: Global, len: u32) -> Result<Vec<u8>, WriteFault>
    ensures size { IfOk result (λ buf. vec_len buf ≡ len) }
    ensures fault { is_failed result ≡ false }
{
    filled(alloc, len, 0)
}

/// So many bytes of one value.
pub(crate) fn filled(alloc: Global, len: u32, byte: u8) -> Result<Vec<u8>, WriteFault>
    ensures items { IfOk result (λ buf. buf.items ≡ replicate len byte) }
    ensures fault { is_failed result ≡ false }
{
    match vec![in alloc; byte; len as usize] {
        Ok(bytes) => Ok(bytes),
        Err(_) => Err(WriteFault::NoMemory),
    }
}

// Loads the positions that an image's entries have, where fewer than two are known to be left: at its first allocating write.
fn take_marks<D: Disk>(alloc: Global, disk: &mut D, image: &mut Image) -> Result<(), WriteFault>
    requires form { IsInForm image.old }
    requires few { length image.old.pending.staged ≤ 8192 }
    requires fits { D.tells → FitsIn (D.state disk.old).files image.old }
    ensures form { IsInForm image.new }
    ensures fits { D.tells → FitsIn (D.state disk.old).files image.new }
    ensures same { IsRoomed image.old image.new }
    ensures spare { image.new.pending.spare ≡ image.old.pending.spare }
    ensures left { OnOk result (2 ≤ left_in image.new.used) }
    ensures reads { OnlyReads D.tells (D.state disk.old) (D.state disk.new) }
    ensures faults { IsCounted (is_failed result) (D.state disk.old).faults (D.state disk.new).faults }
{
    if left(&image.used) >= MOST_BLOCKS {
        return Ok(());
    }
    let mut used = marks_of(alloc, image.used.take())?;
    if load_used(disk, image, &mut used).is_err() {
        return Err(WriteFault::Failed);
    }
    image.used = Some(used);
    Ok(())
}

// How many positions can still be taken.
fn left(used: &Option<Used>) -> u32
    ensures { result ≡ left_in used.now }
{
    match used {
        Some(used) => used.unmarked_count(),
        None => 0,
    }
}

// The marks that are there, or new ones.
fn marks_of(alloc: Global, used: Option<Used>) -> Result<Used, WriteFault>
    ensures { is_failed result ≡ false }
{
    if let Some(used) = used {
        return Ok(used);
    }
    match Used::new(alloc) {
        Ok(used) => Ok(used),
        Err(NoMemory) => Err(WriteFault::NoMemory),
    }
}
