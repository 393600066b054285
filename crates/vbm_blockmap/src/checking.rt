//! The conditions on a block map.

ghost use Rattle.std.specs.Prelude.{◌≡◌, ◌≢◌, ℕ, List, Some, Err};
ghost use Rattle.vbm_ports.specs.Counts.{Rose};
ghost use Rattle.vbm_ports.specs.Disk.{OnlyReads};
ghost use Rattle.vbm_ports.specs.Names.{IsStoreName};
ghost use Rattle.vbm_volume.specs.Faults.{HasHeader, Answers};
ghost use Rattle.vbm_volume.specs.Image.{image_of};

use std::alloc::Global;
use vbm_header::Header;
use vbm_ports::Disk;
use vbm_volume::{MapFault, read_map};

/// Tests the three conditions on the block map of a file of this length with this header: the first of them that fails is
/// the answer. It takes memory for a bit for each position, up to 2^22, and for the positions past that.
pub fn check_map<D: Disk>(
    alloc: Global,
    disk: &mut D,
    name: &[u8],
    header: &Header,
    file_len: u64,
) -> Result<(), MapFault>
    requires name { IsStoreName name.now }
    requires told { D.tells → (f : List ℕ) → (D.state disk.old).files name.now ≡ Some f
        → HasHeader f header.now file_len }
    ensures exact { D.tells → (f : List ℕ) → (D.state disk.old).files name.now ≡ Some f
        → Answers result (λ _. header.now) (image_of f) }
    ensures cause { result ≡ Err MapFault.Failed
        → Rose (D.state disk.old).faults (D.state disk.new).faults }
    ensures no_fault { result ≢ Err MapFault.Failed
        → (D.state disk.new).faults ≡ (D.state disk.old).faults }
    ensures reads { OnlyReads D.tells (D.state disk.old) (D.state disk.new) }
{
    read_map(alloc, disk, name, header, file_len, 0)?;
    Ok(())
}
