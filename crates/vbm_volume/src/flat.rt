//! Flat disks.

ghost use Rattle.std.specs.Prelude.{◌≡◌, ◌<◌, List, ℕ, length, replicate, set, slice_get, Some, IfOk, IsTrue, ◌↔◌, []};

use std::alloc::Global;
use std::marker::Model;
use uuid::Uuid;
use vbm_header::ImageType;
use vbm_ports::{Copied, NoMemory};

/// The bytes of a sector.
pub type Sector = [u8; 512];

/// How the file of a medium grows: image types 1 and 2 of VDI.
#[derive(Clone, Copy, Debug, PartialEq, Eq)]
pub enum Variant {
    /// Its blocks are added as they are written.
    Standard,
    /// All of its blocks are there from the start.
    Fixed,
}

impl Variant {
    ghost use Rattle.vbm_volume.specs.Made.{type_of};

    /// The type of an image of a whole disk.
    pub fn image_type(self) -> ImageType
        ensures { result ≡ type_of self }
    {
        match self {
            Variant::Standard => ImageType::Dynamic,
            Variant::Fixed => ImageType::Fixed,
        }
    }
}

/// A disk as the list of its sectors.
#[derive(Drop)]
pub struct Flat {
    sectors: Vec<Sector>,
}

impl Model for Flat {
    ghost use Rattle.std.specs.Prelude.{List, ℕ};

    ghost Value = { List (List ℕ) };

    ghost view = { λ flat. flat.sectors.items };
}

impl Flat {
    /// A disk of so many sectors of zeros.
    pub fn zeros(alloc: Global, n: u64) -> Result<Flat, NoMemory>
        ensures { IfOk result (λ flat. flat ≡ replicate n (replicate 512 0)) }
    {
        match vec![in alloc; [0u8; 512]; n as usize] {
            Ok(sectors) => Ok(Flat { sectors }),
            Err(_) => Err(NoMemory),
        }
    }

    /// How many sectors the disk has.
    pub fn len(&self) -> u64
        ensures { result ≡ length self.now }
    {
        self.sectors.len() as u64
    }

    /// Whether the disk has no sector.
    pub fn is_empty(&self) -> bool
        ensures { IsTrue result ↔ (self.now ≡ []) }
    {
        self.sectors.is_empty()
    }

    /// Lends a sector.
    pub fn get(&self, i: u64) -> &Sector
        requires { i < length self.now }
        ensures { slice_get self.now i ≡ Some result.now }
    {
        &self.sectors[i as usize]
    }

    /// Replaces a sector.
    pub fn set(&mut self, i: u64, sector: &Sector)
        requires { i < length self.old }
        ensures { self.new ≡ set self.old i sector.now }
    {
        self.sectors[i as usize] = *sector;
    }
}

/// What an image of a whole disk holds.
#[derive(Drop)]
pub struct Volume {
    pub id: Uuid,
    /// It changes with the disk.
    pub modify: Uuid,
    pub variant: Variant,
    /// In bytes.
    pub capacity: u64,
    pub flat: Flat,
}

impl Copied for Flat {
    fn copied(&self, alloc: Global) -> Result<Flat, NoMemory> {
        match Vec::from_slice(alloc, &self.sectors) {
            Ok(sectors) => Ok(Flat { sectors }),
            Err(_) => Err(NoMemory),
        }
    }
}

impl Copied for Volume {
    fn copied(&self, alloc: Global) -> Result<Volume, NoMemory> {
        Ok(Volume {
            id: self.id,
            modify: self.modify,
            variant: self.variant,
            capacity: self.capacity,
            flat: self.flat.copied(alloc)?,
        })
    }
}
