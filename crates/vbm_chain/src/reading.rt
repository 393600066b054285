//! Sectors of a chain.

ghost use Rattle.std.specs.Prelude.{◌≡◌, ◌+◌, ◌-◌, ◌*◌, ◌/◌, ◌%◌, ◌^◌, ◌≤◌, ◌<◌, ℕ, min, length, replicate, Some, All, IfOk, OnOk, is_err};
ghost use Rattle.vbm_ports.specs.Counts.{counted, IsCounted};
ghost use Rattle.vbm_ports.specs.Disk.{OnlyReads};
ghost use Rattle.vbm_ports.specs.Files.{piece};
ghost use Rattle.vbm_volume.specs.Image.{data_at};
ghost use Rattle.vbm_volume.specs.Chain.{chain_sector, IsRising};
ghost use Rattle.vbm_image.specs.Image.{file_in, IsInForm, FitsIn};
ghost use Rattle.vbm_chain.specs.Settled.{settled_links, HoldSectors, block_count};
ghost use Rattle.vbm_chain.specs.Resolved.{image_sector};

use crate::resolving::{Place, resolve};
use vbm_header::{SECTOR_LEN, SECTORS_OF_BLOCK};
use vbm_image::{Image, Images, read_in_block};
use vbm_ports::{Disk, Failed};

/// How many bytes a sector has.
const SECTOR: usize = SECTOR_LEN as usize;

/// How many sectors a block has.
const SECTORS: usize = SECTORS_OF_BLOCK as usize;

/// Fills 2^20 bytes with a block of a chain: zeros past the capacity of the image that `resolve` finds. Beside what `resolve`
/// asks it calls the disk once at most. It fails where the disk does, and takes no memory.
pub fn copy_up<D: Disk>(
    disk: &mut D,
    images: &Images,
    chain: &[u32],
    block: u32,
    buf: &mut [u8],
) -> Result<(), Failed>
    requires form { All IsInForm images.now.items }
    requires chain { All (λ k. k < length images.now.items) chain.now }
    requires fits { D.tells → All (FitsIn (D.state disk.old).files) images.now.items }
    requires rising { D.tells → IsRising (settled_links (D.state disk.old).files images.now.items chain.now) }
    requires size { length buf.old ≡ 2 ^ 20 }
    ensures sectors { D.tells → OnOk result
        (HoldSectors (chain_sector (settled_links (D.state disk.old).files images.now.items chain.now)) (block * 2048) 2048 buf.new) }
    ensures calls { (D.state disk.new).calls ≤ (D.state disk.old).calls + (length chain.now + 1) }
    ensures reads { OnlyReads D.tells (D.state disk.old) (D.state disk.new) }
    ensures faults { IsCounted (is_err result) (D.state disk.old).faults (D.state disk.new).faults }
{
    read_part(disk, images, chain, block, 0, buf)
}

/// Reads whole sectors of a chain, from one on: zeros past the capacity of the image that `resolve` finds. For the sectors of one
/// block the disk is called once at most, beside what `resolve` asks. It fails where the disk does, and takes no memory.
pub fn read_sectors<D: Disk>(
    disk: &mut D,
    images: &Images,
    chain: &[u32],
    lba: u64,
    out: &mut [u8],
) -> Result<(), Failed>
    requires form { All IsInForm images.now.items }
    requires chain { All (λ k. k < length images.now.items) chain.now }
    requires fits { D.tells → All (FitsIn (D.state disk.old).files) images.now.items }
    requires rising { D.tells → IsRising (settled_links (D.state disk.old).files images.now.items chain.now) }
    requires whole { length out.old ≡ length out.old / 512 * 512 }
    requires range { lba + length out.old / 512 ≤ 2 ^ 32 }
    ensures sectors { D.tells → OnOk result
        (HoldSectors (chain_sector (settled_links (D.state disk.old).files images.now.items chain.now)) lba (length out.old / 512) out.new) }
    ensures calls { (D.state disk.new).calls
        ≤ (D.state disk.old).calls + block_count lba (length out.old / 512) * (length chain.now + 1) }
    ensures reads { OnlyReads D.tells (D.state disk.old) (D.state disk.new) }
    ensures faults { IsCounted (is_err result) (D.state disk.old).faults (D.state disk.new).faults }
{
    let count = out.len() / SECTOR;
    let mut done = 0;
    while done < count {
        done += read_run(disk, images, chain, lba + done as u64, out, done)?;
    }
    Ok(())
}

// Reads the sectors from one on to the end of their block, as far as they fit, to their place. It says how many.
fn read_run<D: Disk>(
    disk: &mut D,
    images: &Images,
    chain: &[u32],
    lba: u64,
    out: &mut [u8],
    done: usize,
) -> Result<usize, Failed>
    requires form { All IsInForm images.now.items }
    requires chain { All (λ k. k < length images.now.items) chain.now }
    requires fits { D.tells → All (FitsIn (D.state disk.old).files) images.now.items }
    requires rising { D.tells → IsRising (settled_links (D.state disk.old).files images.now.items chain.now) }
    requires some { done < length out.old / 512 }
    requires range { lba < 2 ^ 32 }
    ensures count { IfOk result (λ n. n ≡ min (length out.old / 512 - done) (2048 - lba % 2048)) }
    ensures sectors { D.tells → IfOk result (λ n. (k : ℕ) → k < n → piece out.new ((done + k) * 512) 512
        ≡ chain_sector (settled_links (D.state disk.old).files images.now.items chain.now) (lba + k)) }
    ensures kept { (s m : ℕ) → s + m ≤ done * 512 → piece out.new s m ≡ piece out.old s m }
    ensures calls { (D.state disk.new).calls ≤ (D.state disk.old).calls + (length chain.now + 1) }
    ensures reads { OnlyReads D.tells (D.state disk.old) (D.state disk.new) }
    ensures faults { IsCounted (is_err result) (D.state disk.old).faults (D.state disk.new).faults }
{
    let block = (lba / SECTORS_OF_BLOCK) as u32;
    let first = (lba % SECTORS_OF_BLOCK) as u32;
    let count = (out.len() / SECTOR - done).min(SECTORS - first as usize);
    let run = &mut out[done * SECTOR..(done + count) * SECTOR];
    read_part(disk, images, chain, block, first, run)?;
    Ok(count)
}

// Reads sectors inside one block of a chain.
fn read_part<D: Disk>(
    disk: &mut D,
    images: &Images,
    chain: &[u32],
    block: u32,
    first: u32,
    out: &mut [u8],
) -> Result<(), Failed>
    requires form { All IsInForm images.now.items }
    requires chain { All (λ k. k < length images.now.items) chain.now }
    requires fits { D.tells → All (FitsIn (D.state disk.old).files) images.now.items }
    requires rising { D.tells → IsRising (settled_links (D.state disk.old).files images.now.items chain.now) }
    requires whole { length out.old ≡ length out.old / 512 * 512 }
    requires inside { first + length out.old / 512 ≤ 2048 }
    ensures sectors { D.tells → OnOk result
        (HoldSectors (chain_sector (settled_links (D.state disk.old).files images.now.items chain.now))
        (block * 2048 + first) (length out.old / 512) out.new) }
    ensures calls { (D.state disk.new).calls ≤ (D.state disk.old).calls + (length chain.now + 1) }
    ensures reads { OnlyReads D.tells (D.state disk.old) (D.state disk.new) }
    ensures faults { IsCounted (is_err result) (D.state disk.old).faults (D.state disk.new).faults }
{
    match resolve(disk, images, chain, block)? {
        Place::Zeros => {
            zero_from(out, 0);
            Ok(())
        }
        Place::In { image, at } => {
            read_place(disk, images.get(image as usize), at, block, first, out)
        }
    }
}

// Reads sectors inside one position, by one call of the disk. Those past the capacity are zeros.
fn read_place<D: Disk>(
    disk: &mut D,
    image: &Image,
    at: u32,
    block: u32,
    first: u32,
    out: &mut [u8],
) -> Result<(), Failed>
    requires form { IsInForm image.now }
    requires in_file { D.tells
        → data_at image.now.header (at + 1) ≤ length (file_in (D.state disk.old).files image.now) }
    requires whole { length out.old ≡ length out.old / 512 * 512 }
    requires inside { first + length out.old / 512 ≤ 2048 }
    ensures sectors { D.tells → OnOk result
        (HoldSectors (image_sector (D.state disk.old).files (Some image.now) at) (block * 2048 + first) (length out.old / 512) out.new) }
    ensures calls { (D.state disk.new).calls ≡ counted (D.state disk.old).calls }
    ensures reads { OnlyReads D.tells (D.state disk.old) (D.state disk.new) }
    ensures faults { IsCounted (is_err result) (D.state disk.old).faults (D.state disk.new).faults }
{
    read_in_block(disk, image, at, first, out)?;
    let end = image.header.capacity / SECTOR_LEN;
    let from = u64::from(block) * SECTORS_OF_BLOCK + u64::from(first);
    let count = end.saturating_sub(from).min(out.len() as u64 / SECTOR_LEN);
    zero_from(out, count as usize * SECTOR);
    Ok(())
}

// Puts zeros from a byte on.
fn zero_from(out: &mut [u8], from: usize)
    requires { from ≤ length out.old }
    ensures kept { (s m : ℕ) → s + m ≤ from → piece out.new s m ≡ piece out.old s m }
    ensures zeros { (s m : ℕ) → from ≤ s → s + m ≤ length out.old → piece out.new s m ≡ replicate m 0 }
{
    out[from..].fill(0);
}
