//! Disks that are made of others.

ghost use Rattle.std.specs.Prelude.{◌≡◌, ◌≤◌, [], drop, length, unwrap_or, IfOk};
ghost use Rattle.std.specs.Option.{option_copied};
ghost use Rattle.vbm_world.specs.Clones.{padded, disk_len, first_sector, sector_or, laid_over};

use std::alloc::Global;
use vbm_ports::{Copied, NoMemory};
use vbm_volume::{Flat, Sector};

// A copy of a disk, an empty one where there is none.
pub(crate) fn copy_of(alloc: Global, disk: Option<&Flat>) -> Result<Flat, NoMemory>
    ensures { IfOk result (λ flat. flat ≡ unwrap_or (option_copied disk.entry) []) }
{
    match disk {
        Some(disk) => disk.copied(alloc),
        None => Flat::zeros(alloc, 0),
    }
}

// How many sectors a disk has, none where there is none.
pub(crate) fn disk_len(disk: Option<&Flat>) -> u64
    ensures { result ≡ disk_len (option_copied disk.entry) }
{
    match disk {
        Some(disk) => disk.len(),
        None => 0,
    }
}

// A disk with zeros behind it, so that it has this length.
pub(crate) fn padded(alloc: Global, long: u64, disk: &Flat) -> Result<Flat, NoMemory>
    requires { length disk.now ≤ long }
    ensures { IfOk result (λ flat. flat ≡ padded long disk.now) }
{
    let mut flat = Flat::zeros(alloc, long)?;
    for i in 0..disk.len() {
        flat.set(i, disk.get(i));
    }
    Ok(flat)
}

// The sector of a differencing image, or else that of the disk below, which has zeros past its end.
fn sector_over(disk: &Flat, own: &Option<Sector>, i: u64) -> Sector
    ensures { result ≡ sector_or own.now (first_sector (drop i disk.now)) }
{
    match own {
        Some(sector) => *sector,
        None if i < disk.len() => *disk.get(i),
        None => [0; 512],
    }
}

// The disk of a differencing image over a disk.
pub(crate) fn laid_over(
    alloc: Global,
    disk: &Flat,
    sectors: &[Option<Sector>],
) -> Result<Flat, NoMemory>
    ensures { IfOk result (λ flat. flat ≡ laid_over disk.now sectors.now) }
{
    let mut flat = Flat::zeros(alloc, sectors.len() as u64)?;
    for (i, own) in sectors.iter().enumerate() {
        let sector = sector_over(disk, own, i as u64);
        flat.set(i as u64, &sector);
    }
    Ok(flat)
}
