//! Guest reads.

ghost use Rattle.std.specs.Prelude.{◌≡◌, ◌+◌, ◌*◌, ◌/◌, ◌^◌, ◌≤◌, ◌<◌, length, All, OnOk, is_err};
ghost use Rattle.vbm_ports.specs.Counts.{IsCounted};
ghost use Rattle.vbm_ports.specs.Disk.{OnlyReads};
ghost use Rattle.vbm_volume.specs.Chain.{chain_sector, IsRising};
ghost use Rattle.vbm_image.specs.Image.{IsInForm, FitsIn};
ghost use Rattle.vbm_chain.specs.Settled.{settled_links, HoldSectors, block_count};

use vbm_chain::read_sectors;
use vbm_image::Images;
use vbm_ports::{Disk, Failed};

/// Reads whole sectors of the disk of a chain, from one on; staged entries count. A chain is the numbers of its images among all
/// images, base first. It fails where the disk does, and takes no memory.
pub fn guest_read<D: Disk>(
    disk: &mut D,
    images: &Images,
    chain: &[u32],
    lba: u64,
    out: &mut [u8],
) -> Result<(), Failed>
    requires form { All IsInForm images.now.items }
    requires chain { All (λ k. k < length images.now.items) chain.now }
    requires fits { D.tells → All (FitsIn (D.state disk.old).files) images.now.items }
    requires rising { D.tells → IsRising (settled_links (D.state disk.old).files images.now.items chain.now) }
    requires whole { length out.old ≡ length out.old / 512 * 512 }
    requires range { lba + length out.old / 512 ≤ 2 ^ 32 }
    ensures sectors { D.tells → OnOk result
        (HoldSectors (chain_sector (settled_links (D.state disk.old).files images.now.items chain.now)) lba (length out.old / 512) out.new) }
    ensures calls { (D.state disk.new).calls
        ≤ (D.state disk.old).calls + block_count lba (length out.old / 512) * (length chain.now + 1) }
    ensures reads { OnlyReads D.tells (D.state disk.old) (D.state disk.new) }
    ensures faults { IsCounted (is_err result) (D.state disk.old).faults (D.state disk.new).faults }
{
    read_sectors(disk, images, chain, lba, out)
}
