//! Where a chain has its blocks.

ghost use Rattle.std.specs.Prelude.{◌≡◌, ◌+◌, ◌/◌, ◌<◌, ◌≤◌, ℕ, length, All, IfOk, is_err};
ghost use Rattle.vbm_ports.specs.Counts.{IsCounted};
ghost use Rattle.vbm_ports.specs.Disk.{OnlyReads};
ghost use Rattle.vbm_volume.specs.Chain.{chain_sector, IsRising};
ghost use Rattle.vbm_blockmap.specs.Entry.{IsEntry};
ghost use Rattle.vbm_image.specs.Image.{IsInForm, FitsIn};
ghost use Rattle.vbm_chain.specs.Settled.{settled_links};
ghost use Rattle.vbm_chain.specs.Resolved.{entry_in, block_place, place_sector, IsPlaceIn, IsPosition, IsInFile};

use vbm_blockmap::Entry;
use vbm_header::{SECTOR_LEN, SECTORS_OF_BLOCK};
use vbm_image::{Image, Images, entry};
use vbm_ports::{Disk, Failed};

/// Where a chain has the data of a block.
#[derive(Clone, Copy, Debug, PartialEq, Eq)]
pub enum Place {
    /// It has none: the block reads as zeros.
    Zeros,
    /// At a position of an image.
    In {
        /// The image's number, from 0.
        image: u32,
        /// The position.
        at: u32,
    },
}

/// Where a chain has a block: in the last image that has a sector of the block within its capacity, and whose entry of it isn't
/// free. A chain is the numbers of its images among all images, base first. The disk is called at most once for each of them. It
/// fails where the disk does, and takes no memory.
pub fn resolve<D: Disk>(
    disk: &mut D,
    images: &Images,
    chain: &[u32],
    block: u32,
) -> Result<Place, Failed>
    requires form { All IsInForm images.now.items }
    requires chain { All (λ k. k < length images.now.items) chain.now }
    requires fits { D.tells → All (FitsIn (D.state disk.old).files) images.now.items }
    requires rising { D.tells → IsRising (settled_links (D.state disk.old).files images.now.items chain.now) }
    ensures place { D.tells
        → IfOk result (λ place. place ≡ block_place (D.state disk.old).files images.now.items chain.now block) }
    ensures sectors { D.tells → IfOk result (λ place. (i : ℕ) → i / 2048 ≡ block
        → chain_sector (settled_links (D.state disk.old).files images.now.items chain.now) i
        ≡ place_sector (D.state disk.old).files images.now.items place i) }
    ensures within { IfOk result (IsPlaceIn images.now.items) }
    ensures position { IfOk result IsPosition }
    ensures in_file { D.tells → IfOk result (IsInFile (D.state disk.old).files images.now.items) }
    ensures calls { (D.state disk.new).calls ≤ (D.state disk.old).calls + length chain.now }
    ensures reads { OnlyReads D.tells (D.state disk.old) (D.state disk.new) }
    ensures faults { IsCounted (is_err result) (D.state disk.old).faults (D.state disk.new).faults }
{
    let mut left = chain.len();
    while left > 0 {
        left -= 1;
        let image = chain[left];
        match entry_in(disk, images.get(image as usize), block)? {
            Entry::Free => {}
            Entry::Zero => return Ok(Place::Zeros),
            Entry::At(at) => return Ok(Place::In { image, at }),
        }
    }
    Ok(Place::Zeros)
}

// The entry of a block, which is free where the image has no sector of it.
fn entry_in<D: Disk>(disk: &mut D, image: &Image, block: u32) -> Result<Entry, Failed>
    requires form { IsInForm image.now }
    requires fits { D.tells → FitsIn (D.state disk.old).files image.now }
    ensures entry { D.tells → IfOk result (λ entry. entry ≡ entry_in (D.state disk.old).files image.now block) }
    ensures is { IfOk result IsEntry }
    ensures calls { (D.state disk.new).calls ≤ (D.state disk.old).calls + 1 }
    ensures reads { OnlyReads D.tells (D.state disk.old) (D.state disk.new) }
    ensures faults { IsCounted (is_err result) (D.state disk.old).faults (D.state disk.new).faults }
{
    if u64::from(block) * SECTORS_OF_BLOCK >= image.header.capacity / SECTOR_LEN {
        return Ok(Entry::Free);
    }
    entry(disk, image, block)
}
