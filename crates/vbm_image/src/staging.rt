//! Blocks that are staged.

ghost use Rattle.std.specs.Prelude.{◌≡◌, ◌+◌, ◌^◌, ◌≤◌, ◌<◌, ℕ, length, true, false, Some, None, OnOk, OnErr, is_err};
ghost use Rattle.vbm_ports.specs.Counts.{counted, IsCounted};
ghost use Rattle.vbm_ports.specs.Disk.{OnlyReads};
ghost use Rattle.vbm_volume.specs.Marks.{is_marked};
ghost use Rattle.vbm_volume.specs.Wrote.{Wrote};
ghost use Rattle.vbm_blockmap.specs.Pending.{position_in};
ghost use Rattle.vbm_blockmap.specs.Used.{marked_count};
ghost use Rattle.vbm_blockmap.specs.declared.used.TheConstants.{POSITION_LIMIT};
ghost use Rattle.vbm_image.specs.Image.{file_in, left_in, IsInForm, MarksEntries, FitsIn};
ghost use Rattle.vbm_image.specs.Staging.{IsTakenFrom, StagesEntry, StagesBlock, IsSameImage};

use crate::image::{Image, place};
use vbm_blockmap::Used;
use vbm_ports::{Disk, Failed};

/// Marks the positions below the limit that an image's settled and staged entries have, and no others. It takes no memory, and
/// fails where the disk does; then some may be missing.
pub fn load_used<D: Disk>(disk: &mut D, image: &Image, used: &mut Used) -> Result<(), Failed>
    requires form { IsInForm image.now }
    requires fits { D.tells → FitsIn (D.state disk.old).files image.now }
    ensures marks { D.tells → OnOk result (MarksEntries image.now.header image.now.pending.staged
        (file_in (D.state disk.old).files image.now) used.new) }
    ensures count { OnOk result (marked_count used.new ≤ image.now.header.blocks + length image.now.pending.staged) }
    ensures reads { OnlyReads D.tells (D.state disk.old) (D.state disk.new) }
    ensures faults { IsCounted (is_err result) (D.state disk.old).faults (D.state disk.new).faults }
{
    used.load(disk, image.name.bytes(), &image.header)?;
    mark_staged(used, image);
    Ok(())
}

// Marks the staged positions.
fn mark_staged(used: &mut Used, image: &Image)
    requires { IsInForm image.now }
    ensures kept { (p : ℕ) → is_marked used.old p ≡ true → is_marked used.new p ≡ true }
    ensures staged { (b p : ℕ) → position_in image.now.pending.staged b ≡ Some p → is_marked used.new p ≡ true }
    ensures count { marked_count used.new ≤ marked_count used.old + length image.now.pending.staged }
{
    for i in 0..image.pending.len() {
        let (_, at) = image.pending.entry(i);
        used.mark(at);
    }
}

/// Writes the 1 MiB of a block to a position that no settled and no staged entry has, and stages the entry. It calls the disk
/// once and takes no memory. It fails where the disk does; then nothing is staged.
pub fn stage_block<D: Disk>(
    disk: &mut D,
    image: &mut Image,
    block: u32,
    bytes: &[u8],
) -> Result<(), Failed>
    requires form { IsInForm image.old }
    requires block { block < image.old.header.blocks }
    requires another { position_in image.old.pending.staged block ≡ None }
    requires room { 0 < image.old.pending.spare }
    requires left { 0 < left_in image.old.used }
    requires size { length bytes.now ≡ 2 ^ 20 }
    requires fits { D.tells → FitsIn (D.state disk.old).files image.old }
    ensures form { IsInForm image.new }
    ensures same { IsSameImage image.old image.new }
    ensures spare { image.old.pending.spare ≤ image.new.pending.spare + 1 }
    ensures left { left_in image.old.used ≤ left_in image.new.used + 1 }
    ensures staged { OnOk result (StagesEntry image.old image.new block) }
    ensures stay { OnErr result (image.new.pending ≡ image.old.pending) }
    ensures ok { D.tells → OnOk result (StagesBlock image.old image.new block bytes.now (D.state disk.old).files (D.state disk.new).files) }
    ensures fits { D.tells → OnOk result (FitsIn (D.state disk.new).files image.new) }
    ensures wrote { D.tells → Wrote image.old.name image.old.header (file_in (D.state disk.old).files image.old) (λ i. false)
        (D.state disk.old) (D.state disk.new) }
    ensures calls { (D.state disk.new).calls ≡ counted (D.state disk.old).calls }
    ensures faults { IsCounted (is_err result) (D.state disk.old).faults (D.state disk.new).faults }
{
    let at = take_from(&mut image.used);
    disk.write(image.name.bytes(), place(&image.header, at, 0), bytes)?;
    image.pending.insert(block, at);
    Ok(())
}

// Takes the least position that is not marked.
fn take_from(used: &mut Option<Used>) -> u32
    requires { 0 < left_in used.old }
    ensures taken { IsTakenFrom used.old used.new result }
    ensures low { result < POSITION_LIMIT }
    ensures left { left_in used.old ≤ left_in used.new + 1 }
{
    match used {
        Some(used) => used.take(),
        None => 0,
    }
}
