//! Files that are opened one after another.

ghost use Rattle.std.specs.Prelude.{◌≡◌, ◌≢◌, ◌<◌, ◌≤◌, ◌+◌, ◌^◌, [], ◌∷◌, ◌++◌, length, slice_get, IfOk, IfErr, OnOk, MatchOption, IsTrue, All, is_err};
ghost use Rattle.vbm_ports.specs.Counts.{IsCounted};
ghost use Rattle.vbm_ports.specs.Disk.{OnlyReads};
ghost use Rattle.vbm_ports.specs.Files.{Files};
ghost use Rattle.vbm_ports.specs.Names.{is_medium_name};
ghost use Rattle.vbm_volume.specs.Chain.{broken_at, chain_count, chain_sector};
ghost use Rattle.vbm_image.specs.declared.image.Image.{Image};
ghost use Rattle.vbm_peek.specs.Opened.{opened_names, opened_links, AreOpened, AreOpenedFrom, AddsFile, IsFaultOf, open_failed};

use std::alloc::Global;
use vbm_chain::{check_links, read_sectors};
use vbm_header::{Header, SECTOR_LEN};
use vbm_image::{Image, Images, OpenFault, open_image};
use vbm_ports::{Disk, Failed, NoMemory};
use vbm_volume::Sector;

/// Files that were opened one after another, base first. A file that stands twice has one image.
#[derive(Drop)]
pub(crate) struct OpenedFiles {
    images: Images,
    // For each file the number of its image, and its header.
    chain: Vec<u32>,
    headers: Vec<Header>,
}

impl OpenedFiles {
    /// No file, with room for so many.
    pub(crate) fn new(alloc: Global, room: u32) -> Result<OpenedFiles, NoMemory>
        ensures opened { IfOk result AreOpened }
        ensures none { IfOk result (λ opened. opened.images.items ≡ []) }
        ensures names { IfOk result (λ opened. opened_names opened ≡ []) }
    {
        let mut images = Images::new(alloc);
        images.reserve(room)?;
        Ok(OpenedFiles {
            images,
            chain: Vec::with_capacity(alloc, room as usize).map_err(|_| NoMemory)?,
            headers: Vec::with_capacity(alloc, room as usize).map_err(|_| NoMemory)?,
        })
    }

    /// Opens the next file, but for one that was opened before.
    pub(crate) fn open<D: Disk>(
        &mut self,
        alloc: Global,
        disk: &mut D,
        name: &[u8],
    ) -> Result<(), OpenFault>
        requires medium { IsTrue (is_medium_name name.now) }
        requires few { length self.old.images.items < 2 ^ 32 }
        requires opened { AreOpened self.old }
        ensures opened { OnOk result (AreOpened self.new) }
        ensures names { OnOk result (opened_names self.new ≡ opened_names self.old ++ name.now ∷ []) }
        ensures count { OnOk result (length self.new.images.items ≤ length self.old.images.items + 1) }
        ensures from { D.tells → OnOk result (AreOpenedFrom (D.state disk.old).files self.old
            → AreOpenedFrom (D.state disk.old).files self.new) }
        ensures fault { D.tells → IfErr result (IsFaultOf ((D.state disk.old).files name.now)) }
        ensures reads { OnlyReads D.tells (D.state disk.old) (D.state disk.new) }
        ensures faults { IsCounted (open_failed result) (D.state disk.old).faults (D.state disk.new).faults }
    {
        if let Some(number) = self.find(name) {
            return self.push(number);
        }
        let image = open_image(alloc, disk, name)?;
        self.push_image(image)
    }

    // The number of the image with this name.
    fn find(&self, name: &[u8]) -> Option<usize>
        ensures { MatchOption result (All (λ image. image.name ≢ name.now) self.now.images.items)
            (λ number. (image : Image) × (slice_get self.now.images.items number ≡ Some image) × (image.name ≡ name.now)) }
    {
        for (number, image) in self.images.as_slice().iter().enumerate() {
            if image.name.bytes() == name {
                return Some(number);
            }
        }
        None
    }

    // Appends a file with a new image.
    fn push_image(&mut self, image: Image) -> Result<(), OpenFault>
        requires { length self.old.images.items < 2 ^ 32 }
        ensures added { OnOk result (AddsFile self.old self.new (image ∷ []) image) }
        ensures memory { IfErr result (λ fault. fault ≡ OpenFault.NoMemory) }
    {
        let number = self.images.len();
        if self.images.push(image).is_err() {
            return Err(OpenFault::NoMemory);
        }
        self.push(number)
    }

    // Appends a file with the image of this number.
    fn push(&mut self, number: usize) -> Result<(), OpenFault>
        requires number { number < length self.old.images.items }
        requires fits { number < 2 ^ 32 }
        ensures added { OnOk result ((image : Image) → slice_get self.old.images.items number ≡ Some image
            → AddsFile self.old self.new [] image) }
        ensures memory { IfErr result (λ fault. fault ≡ OpenFault.NoMemory) }
    {
        let header = self.images.get(number).header;
        if self.chain.push(number as u32).is_err() || self.headers.push(header).is_err() {
            return Err(OpenFault::NoMemory);
        }
        Ok(())
    }

    /// How many sectors the last file has.
    pub(crate) fn sector_count(&self) -> u64
        requires { AreOpened self.now }
        ensures count { (files : Files) → result ≡ chain_count (opened_links files self.now) }
        ensures most { result ≤ 2 ^ 32 }
    {
        match self.headers.last() {
            Some(last) => last.capacity / SECTOR_LEN,
            None => 0,
        }
    }

    /// The place of the first file that is not linked to the one before it, from 0; none where the files are a chain.
    pub(crate) fn broken_at(&self) -> Option<u32>
        requires some { 0 < length self.now.headers.items }
        requires few { length self.now.headers.items < 2 ^ 32 }
        ensures { result ≡ broken_at self.now.headers.items }
    {
        match check_links(&self.headers) {
            Ok(()) => None,
            Err((place, _)) => Some(place),
        }
    }

    /// A sector of the disk that the files of a chain hold.
    pub(crate) fn read_sector<D: Disk>(&self, disk: &mut D, lba: u64) -> Result<Sector, Failed>
        requires opened { AreOpened self.now }
        requires chain { broken_at self.now.headers.items ≡ None }
        requires range { lba < 2 ^ 32 }
        requires from { D.tells → AreOpenedFrom (D.state disk.old).files self.now }
        ensures sector { D.tells → IfOk result (λ sector. sector
            ≡ chain_sector (opened_links (D.state disk.old).files self.now) lba) }
        ensures reads { OnlyReads D.tells (D.state disk.old) (D.state disk.new) }
        ensures faults { IsCounted (is_err result) (D.state disk.old).faults (D.state disk.new).faults }
    {
        let mut sector = [0; 512];
        read_sectors(disk, &self.images, &self.chain, lba, &mut sector)?;
        Ok(sector)
    }
}
