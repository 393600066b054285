//! What a library lists.

ghost use Rattle.std.specs.Prelude.{◌≡◌, ◌≤◌, length, IfOk, IsFalse};
ghost use Rattle.vbm_named.specs.Names.{has_name};
ghost use Rattle.vbm_registry.specs.Library.{medium_entry_name};
ghost use Rattle.vbm_registry.specs.Named.{named};
ghost use Rattle.vbm_registry.specs.Rules.{IsLibrary};
ghost use Rattle.vbm_registry.specs.Renumbered.{medium_place, with_medium_entry, without_medium_entry};

use crate::media::{Media, Medium, place_of};
use crate::renumbered::moved;
use std::alloc::Global;
use uuid::Uuid;
use vbm_machines::{Machines, Renumbering, place_for};
use vbm_ports::{Copied, NoMemory, Sequence, Text};

/// No library's file is longer, in bytes.
pub const LONGEST_LIBRARY: usize = 1 << 20;

/// An image of the store.
#[derive(Clone, Copy, Debug, PartialEq, Eq)]
pub enum ImageRef {
    /// The image of the medium at this place of the library's list.
    Medium(u32),
    /// The inner image of this number.
    Inner(u64),
}

/// An inner image, and the image that it stands on.
#[derive(Clone, Copy, Debug, PartialEq, Eq)]
pub struct Inner {
    pub number: u64,
    pub parent: ImageRef,
}

impl Copied for Inner {
    fn copied(&self, _alloc: Global) -> Result<Inner, NoMemory> {
        Ok(*self)
    }
}

/// Inner images, in the order of their numbers.
pub type Inners = Sequence<Inner>;

/// An inner image that is being merged with the image below it, which gets a number of its own.
#[derive(Clone, Copy, Debug, PartialEq, Eq)]
pub struct Merging {
    pub parent: ImageRef,
    pub child: u64,
    pub number: u64,
}

impl Copied for Merging {
    fn copied(&self, _alloc: Global) -> Result<Merging, NoMemory> {
        Ok(*self)
    }
}

/// Merges that have begun.
pub type Mergings = Sequence<Merging>;

/// All that a store lists.
#[derive(Drop)]
pub struct Library {
    /// The seed of the store's identifiers.
    pub seed: Uuid,
    /// How many identifiers of media were drawn.
    pub next: u64,
    /// How many identifiers of inner images were drawn.
    pub inner: u64,
    pub media: Media,
    pub inners: Inners,
    pub machines: Machines,
    /// The name of the file that is being made.
    pub making: Option<Text>,
    pub merging: Mergings,
}

impl Copied for Library {
    fn copied(&self, alloc: Global) -> Result<Library, NoMemory> {
        Ok(Library {
            seed: self.seed,
            next: self.next,
            inner: self.inner,
            media: self.media.copied(alloc)?,
            inners: self.inners.copied(alloc)?,
            machines: self.machines.copied(alloc)?,
            making: Copied::copied(&self.making, alloc)?,
            merging: self.merging.copied(alloc)?,
        })
    }
}

impl Library {
    /// The place of the medium of a name, or the number of media where none has it.
    pub fn place_of(&self, name: &[u8]) -> usize
        ensures place { result ≡ medium_place self.now name.now }
        ensures within { result ≤ length self.now.media }
    {
        place_of(self.media.as_slice(), name)
    }

    /// A copy with one more medium, in its place. The places behind it are one higher, wherever they are named.
    pub fn with_medium(&self, alloc: Global, medium: Medium) -> Result<Library, NoMemory>
        requires rules { IsLibrary (named self.now) }
        requires another { IsFalse (has_name medium_entry_name medium.name self.now.media) }
        ensures { IfOk result (λ l. l ≡ with_medium_entry self.now medium) }
    {
        let at = place_for(self.media.as_slice(), medium.name.bytes());
        let mut library = moved(alloc, Renumbering::Entered(at as u32), self)?;
        library.media.insert(medium)?;
        Ok(library)
    }

    /// A copy without the medium of a name, which nothing names. The places behind it are one lower, wherever they are named.
    pub fn without_medium(&self, alloc: Global, name: &[u8]) -> Result<Library, NoMemory>
        requires rules { IsLibrary (named self.now) }
        ensures { IfOk result (λ l. l ≡ without_medium_entry self.now name.now) }
    {
        let at = self.place_of(name);
        let mut library = moved(alloc, Renumbering::Left(at as u32), self)?;
        library.media.remove(name);
        Ok(library)
    }
}
