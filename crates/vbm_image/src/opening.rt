//! Opening an image.

ghost use Rattle.std.specs.Prelude.{◌≡◌, ◌≢◌, ℕ, List, length, Some, None, IfOk, IfErr};
ghost use Rattle.vbm_ports.specs.Counts.{IsCounted};
ghost use Rattle.vbm_ports.specs.Disk.{OnlyReads};
ghost use Rattle.vbm_ports.specs.Names.{IsStoreName};
ghost use Rattle.vbm_intent.specs.Changes.{log_name};
ghost use Rattle.vbm_image.specs.Image.{IsInForm, FitsIn};
ghost use Rattle.vbm_image.specs.Opened.{IsOpenedFrom, IsFresh, is_device_fault};

use crate::image::Image;
use std::alloc::Global;
use vbm_blockmap::Pending;
use vbm_header::{BadImage, Header};
use vbm_ports::{Disk, Failed, NoMemory, Text};
use vbm_volume::{MapFault, read_image};

/// Why an image was not opened.
#[derive(Clone, Copy, Debug, PartialEq, Eq)]
pub enum OpenFault {
    /// There is no such file.
    Missing,
    /// The first of the twelve conditions on an image that fails.
    Bad(BadImage),
    /// The disk failed.
    Failed,
    /// There was no memory.
    NoMemory,
}

/// Opens the image of a file, of which all twelve conditions are tested. Nothing of it is staged.
pub fn open_image<D: Disk>(alloc: Global, disk: &mut D, name: &[u8]) -> Result<Image, OpenFault>
    requires name { IsStoreName name.now }
    requires not_log { name.now ≢ log_name }
    ensures opened { D.tells → IsOpenedFrom ((D.state disk.old).files name.now) result }
    ensures name { IfOk result (λ image. image.name ≡ name.now) }
    ensures fresh { IfOk result IsFresh }
    ensures form { IfOk result IsInForm }
    ensures fits { D.tells → IfOk result (FitsIn (D.state disk.new).files) }
    ensures reads { OnlyReads D.tells (D.state disk.old) (D.state disk.new) }
    ensures faults { IsCounted (is_device_fault result) (D.state disk.old).faults (D.state disk.new).faults }
{
    match disk.length(name) {
        Err(Failed) => Err(OpenFault::Failed),
        Ok(None) => Err(OpenFault::Missing),
        Ok(Some(len)) => open_file(alloc, disk, name, len),
    }
}

// Opens the image of a file of this length.
fn open_file<D: Disk>(
    alloc: Global,
    disk: &mut D,
    name: &[u8],
    len: u64,
) -> Result<Image, OpenFault>
    requires name { IsStoreName name.now }
    requires not_log { name.now ≢ log_name }
    requires there { D.tells → (D.state disk.old).files name.now ≢ None }
    requires told { D.tells → (f : List ℕ) → (D.state disk.old).files name.now ≡ Some f
        → length f ≡ len }
    ensures opened { D.tells → IsOpenedFrom ((D.state disk.old).files name.now) result }
    ensures name { IfOk result (λ image. image.name ≡ name.now) }
    ensures fresh { IfOk result IsFresh }
    ensures form { IfOk result IsInForm }
    ensures fits { D.tells → IfOk result (FitsIn (D.state disk.new).files) }
    ensures reads { OnlyReads D.tells (D.state disk.old) (D.state disk.new) }
    ensures faults { IsCounted (is_device_fault result) (D.state disk.old).faults (D.state disk.new).faults }
{
    match read_image(alloc, disk, name, len, 0) {
        Ok((header, _)) => fresh_image(alloc, name, header),
        Err(MapFault::Bad(bad)) => Err(OpenFault::Bad(bad)),
        Err(MapFault::Failed) => Err(OpenFault::Failed),
        Err(MapFault::NoMemory) => Err(OpenFault::NoMemory),
    }
}

// An image of which nothing is staged.
fn fresh_image(alloc: Global, name: &[u8], header: Header) -> Result<Image, OpenFault>
    ensures name { IfOk result (λ image. image.name ≡ name.now) }
    ensures header { IfOk result (λ image. image.header ≡ header) }
    ensures fresh { IfOk result IsFresh }
    ensures err { IfErr result (λ fault. fault ≡ OpenFault.NoMemory) }
{
    match Text::new(alloc, name) {
        Ok(name) => Ok(Image {
            name,
            header,
            pending: Pending::new(alloc),
            used: None,
        }),
        Err(NoMemory) => Err(OpenFault::NoMemory),
    }
}
