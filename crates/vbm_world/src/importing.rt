//! Chains of files made one medium, plain and slow: each copies all disks.

ghost use Rattle.std.specs.Prelude.{◌≡◌, ◌≤◌, [], ◌∷◌, ◌++◌, map, length, unwrap_or, IfOk};
ghost use Rattle.std.specs.List.{list_any};
ghost use Rattle.std.specs.Option.{option_copied};
ghost use Rattle.vbm_named.specs.Names.{Name};
ghost use Rattle.vbm_world.specs.Refusals.{is_medium, first_refusal};
ghost use Rattle.vbm_world.specs.Clones.{file_of, files_of, is_nowhere, bad_check, is_link_to, broken_link, broken_file};
ghost use Rattle.vbm_world.specs.Clones.{chain_checks, import_checks, disk_over, chain_disk, import_chain};
ghost use Rattle.vbm_world.specs.Seen.{seen, on_shelf, outcome_of};
ghost use Rattle.vbm_world.specs.ImportingSeen.{next_below};
ghost use Rattle.vbm_world.specs.Sound.{IsSound};

use crate::command::{Refusal, Which};
use crate::disks::laid_over;
use crate::limits::CHAIN_LIMIT;
use crate::media::Stepped;
use crate::world::{LinkFile, Shelved, World};
use std::alloc::Global;
use uuid::Uuid;
use vbm_ports::{Copied, NoMemory, Text};
use vbm_volume::{Flat, Volume};

// What a differencing image has to name of the image below it.
#[derive(Clone, Copy)]
pub(crate) struct Below {
    pub(crate) id: Uuid,
    pub(crate) modify: Uuid,
    // In bytes.
    pub(crate) capacity: u64,
}

// Whether an image is linked to the one below it, and does not shrink it.
fn is_link_to(below: Below, link: &LinkFile) -> bool
    ensures { result ≡ is_link_to below.id below.modify below.capacity link.now }
{
    link.link == below.id && link.parent_modify == below.modify && below.capacity <= link.capacity
}

// The refusal of a file that is no image.
fn bad_refusal(file: Option<&Shelved>) -> Option<Refusal>
    ensures { result ≡ first_refusal (bad_check (option_copied file.entry) ∷ []) }
{
    match file {
        Some(Shelved::Bad(condition)) => Some(Refusal::NotAnImage(*condition)),
        Some(Shelved::Volume(_)) | Some(Shelved::Link(_)) | None => None,
    }
}

impl World {
    fn is_medium(&self, name: &[u8]) -> bool
        ensures { result ≡ is_medium (seen self.now) name.now }
    {
        self.medium(name).is_some()
    }

    fn is_nowhere(&self, name: &[u8]) -> bool
        ensures { result ≡ is_nowhere (seen self.now) name.now }
    {
        !self.is_medium(name) && self.on_shelf(name).is_none()
    }

    fn any_nowhere(&self, files: &[Text]) -> bool
        ensures { result ≡ list_any (is_nowhere (seen self.now)) files.now }
    {
        files.iter().any(|file| self.is_nowhere(file.bytes()))
    }

    fn any_medium(&self, files: &[Text]) -> bool
        ensures { result ≡ list_any (is_medium (seen self.now)) files.now }
    {
        files.iter().any(|file| self.is_medium(file.bytes()))
    }

    // The refusal of the first file that is no image.
    fn image_refusal(&self, files: &[Text]) -> Option<Refusal>
        ensures { result ≡ first_refusal (map (λ (file : Name). bad_check (on_shelf self.now.shelf file)) files.now) }
    {
        for file in files {
            if let Some(refusal) = bad_refusal(self.on_shelf(file.bytes())) {
                return Some(refusal);
            }
        }
        None
    }

    // What the image over a file has to name, where the file is linked to the one below it.
    fn next_below(&self, below: Below, name: &[u8]) -> Option<Below>
        ensures { result ≡ next_below below (file_of (seen self.now) name.now) }
    {
        match self.on_shelf(name) {
            Some(Shelved::Link(link)) if is_link_to(below, link) => Some(Below {
                id: link.id,
                modify: link.modify,
                capacity: link.capacity,
            }),
            _ => None,
        }
    }

    // The place of the first file that is not linked to the one before it.
    fn broken_link(&self, base: &Volume, above: &[Text]) -> Option<u32>
        requires { length above.now ≤ CHAIN_LIMIT }
        ensures { result ≡ broken_link 1 base.now.id base.now.modify base.now.capacity (files_of (seen self.now) above.now) }
    {
        let mut below = Below {
            id: base.id,
            modify: base.modify,
            capacity: base.capacity,
        };
        let mut place = 1;
        for name in above {
            match self.next_below(below, name.bytes()) {
                Some(next) => below = next,
                None => return Some(place),
            }
            place += 1;
        }
        None
    }

    // The place of the first file that is out of the chain.
    fn broken_file(&self, files: &[Text]) -> Option<u32>
        requires { length files.now ≤ CHAIN_LIMIT }
        ensures { result ≡ broken_file (files_of (seen self.now) files.now) }
    {
        let [base, above @ ..] = files else {
            return Some(0);
        };
        match self.on_shelf(base.bytes()) {
            Some(Shelved::Volume(volume)) => self.broken_link(volume, above),
            _ => Some(0),
        }
    }

    // What is asked of files that are images.
    fn chain_refusal(&self, files: &[Text]) -> Option<Refusal>
        requires { length files.now ≤ CHAIN_LIMIT }
        ensures { result ≡ first_refusal (chain_checks (seen self.now) files.now) }
    {
        if self.any_medium(files) {
            return Some(Refusal::InUse);
        }
        if self.is_full() {
            return Some(Refusal::Full(Which::Media));
        }
        if self.is_spent() {
            return Some(Refusal::IdsSpent);
        }
        match self.broken_file(files) {
            Some(place) => Some(Refusal::BrokenChain(place)),
            None => None,
        }
    }

    // What is asked of files that are there.
    fn files_refusal(&self, files: &[Text]) -> Option<Refusal>
        requires { length files.now ≤ CHAIN_LIMIT }
        ensures { result ≡ first_refusal (map (λ (file : Name). bad_check (on_shelf self.now.shelf file)) files.now
            ++ chain_checks (seen self.now) files.now) }
    {
        match self.image_refusal(files) {
            Some(refusal) => Some(refusal),
            None => self.chain_refusal(files),
        }
    }

    fn import_refusal(&self, files: &[Text], name: &[u8]) -> Option<Refusal>
        requires { length files.now ≤ CHAIN_LIMIT }
        ensures { result ≡ first_refusal (import_checks (seen self.now) files.now name.now) }
    {
        if self.is_medium(name) {
            return Some(Refusal::NameTaken);
        }
        if self.on_shelf(name).is_some() {
            return Some(Refusal::FileExists);
        }
        if self.any_nowhere(files) {
            return Some(Refusal::NoSuchFile);
        }
        self.files_refusal(files)
    }

    // The disk of a file over a disk, which stays where the file is no differencing image.
    fn disk_over(&self, alloc: Global, disk: Flat, name: &[u8]) -> Result<Flat, NoMemory>
        ensures { IfOk result (λ flat. flat ≡ disk_over disk (file_of (seen self.now) name.now ∷ [])) }
    {
        match self.on_shelf(name) {
            Some(Shelved::Link(link)) => laid_over(alloc, &disk, link.sectors.as_slice()),
            _ => Ok(disk),
        }
    }

    fn disk_above(&self, alloc: Global, base: &Volume, above: &[Text]) -> Result<Flat, NoMemory>
        ensures { IfOk result (λ flat. flat ≡ disk_over base.now.flat (files_of (seen self.now) above.now)) }
    {
        let mut flat = base.flat.copied(alloc)?;
        for name in above {
            flat = self.disk_over(alloc, flat, name.bytes())?;
        }
        Ok(flat)
    }

    // The disk of a chain of files, base first.
    fn chain_disk(&self, alloc: Global, files: &[Text]) -> Result<Flat, NoMemory>
        ensures { IfOk result (λ flat. flat ≡ chain_disk (files_of (seen self.now) files.now)) }
    {
        let [base, above @ ..] = files else {
            return Flat::zeros(alloc, 0);
        };
        match self.on_shelf(base.bytes()) {
            Some(Shelved::Volume(volume)) => self.disk_above(alloc, volume, above),
            _ => Flat::zeros(alloc, 0),
        }
    }

    pub(crate) fn import_chain(&self, alloc: Global, files: &[Text], name: &[u8]) -> Stepped
        requires sound { IsSound (seen self.now) }
        requires few { length files.now ≤ CHAIN_LIMIT }
        ensures outcome { IfOk result (λ r. outcome_of r ≡ import_chain (seen self.now) files.now name.now) }
        ensures shelf { IfOk result (λ r. r.0.shelf ≡ self.now.shelf) }
    {
        if let Some(refusal) = self.import_refusal(files, name) {
            return self.refused(alloc, refusal);
        }
        let flat = self.chain_disk(alloc, files)?;
        self.entered(alloc, name, flat)
    }
}
