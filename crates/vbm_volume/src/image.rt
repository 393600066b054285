//! An image file as a whole.

ghost use Rattle.std.specs.Prelude.{◌≡◌, ◌≢◌, ◌≤◌, ◌<◌, ℕ, List, length, IfOk, Some, Ok, Err};
ghost use Rattle.vbm_header.specs.declared.Header.{Header};
ghost use Rattle.vbm_header.specs.Header.{header_of};
ghost use Rattle.vbm_ports.specs.Counts.{Rose};
ghost use Rattle.vbm_ports.specs.Disk.{OnlyReads};
ghost use Rattle.vbm_ports.specs.Names.{IsStoreName};
ghost use Rattle.vbm_volume.specs.Faults.{Answers};
ghost use Rattle.vbm_volume.specs.Image.{image_of, word_of, IsSoundHeader};

use crate::fault::MapFault;
use crate::map::read_map;
use std::alloc::Global;
use vbm_header::{HEADER_LEN, Header, read_header};
use vbm_ports::Disk;

/// The header of a file of this length, if it is an accepted image, and the word of one block of its block map, or that of a
/// free block where the map has no such block.
pub fn read_image<D: Disk>(
    alloc: Global,
    disk: &mut D,
    name: &[u8],
    file_len: u64,
    block: u64,
) -> Result<(Header, u32), MapFault>
    requires name { IsStoreName name.now }
    requires told { D.tells → (f : List ℕ) → (D.state disk.old).files name.now ≡ Some f
        → length f ≡ file_len }
    ensures exact { D.tells → (f : List ℕ) → (D.state disk.old).files name.now ≡ Some f
        → Answers result (λ read. read.0) (image_of f) }
    ensures word { D.tells → IfOk result (λ read. (f : List ℕ) → (D.state disk.old).files name.now ≡ Some f
        → block < read.0.blocks → read.1 ≡ word_of f read.0 block) }
    ensures outside { IfOk result (λ read. read.0.blocks ≤ block → read.1 ≡ 0xFFFFFFFF) }
    ensures sound { IfOk result (λ read. IsSoundHeader read.0) }
    ensures cause { result ≡ Err MapFault.Failed
        → Rose (D.state disk.old).faults (D.state disk.new).faults }
    ensures no_fault { result ≢ Err MapFault.Failed
        → (D.state disk.new).faults ≡ (D.state disk.old).faults }
    ensures reads { OnlyReads D.tells (D.state disk.old) (D.state disk.new) }
{
    let header = read_front(disk, name, file_len)?;
    let word = read_map(alloc, disk, name, &header, file_len, block)?;
    Ok((header, word))
}

// The header of a file by itself.
fn read_front<D: Disk>(disk: &mut D, name: &[u8], file_len: u64) -> Result<Header, MapFault>
    requires name { IsStoreName name.now }
    requires told { D.tells → (f : List ℕ) → (D.state disk.old).files name.now ≡ Some f
        → length f ≡ file_len }
    ensures exact { D.tells → (f : List ℕ) → (D.state disk.old).files name.now ≡ Some f
        → Answers result (λ header. header) (header_of f file_len) }
    ensures sound { IfOk result IsSoundHeader }
    ensures cause { result ≡ Err MapFault.Failed
        → Rose (D.state disk.old).faults (D.state disk.new).faults }
    ensures no_fault { result ≢ Err MapFault.Failed
        → (D.state disk.new).faults ≡ (D.state disk.old).faults }
    ensures reads { OnlyReads D.tells (D.state disk.old) (D.state disk.new) }
{
    let mut front = [0; HEADER_LEN];
    disk.read(name, 0, &mut front)?;
    let size = file_len.min(HEADER_LEN as u64) as usize;
    match read_header(&front[..size], file_len) {
        Ok(header) => Ok(header),
        Err(bad) => Err(MapFault::Bad(bad)),
    }
}
