//! Why commands are refused.

ghost use Rattle.std.specs.Prelude.{◌≡◌};
ghost use Rattle.std.specs.List.{list_any};
ghost use Rattle.std.specs.Option.{option_copied};
ghost use Rattle.vbm_world.specs.World.{is_in_snapshot, is_in_use, is_normal, is_frozen};
ghost use Rattle.vbm_world.specs.Refusals.{capacity_of, is_bad_size, is_full, is_spent};
ghost use Rattle.vbm_world.specs.Refusals.{first_refusal};
ghost use Rattle.vbm_world.specs.Media.{create_checks, id_checks, file_checks, open_checks, close_checks};
ghost use Rattle.vbm_world.specs.Seen.{seen};

use crate::command::{Refusal, Size, Which};
use crate::limits::MEDIA_LIMIT;
use crate::lookups::has_medium;
use crate::world::{Shelved, World, WorldMachine, WorldMedium};
use uuid::Uuid;
use vbm_ids::{NUMBER_LIMIT, has_id, is_foreign};
use vbm_modes::Mode;

impl Size {
    /// The capacity in bytes; a product of this width does not wrap.
    pub fn capacity(self) -> u128
        ensures { result ≡ capacity_of self }
    {
        match self {
            Size::Mb(n) => u128::from(n) * (1 << 20),
            Size::Bytes(n) => u128::from(n),
        }
    }
}

/// Whether no medium can have this capacity in bytes.
pub fn is_bad_size(capacity: u128) -> bool
    ensures { result ≡ is_bad_size capacity }
{
    capacity == 0 || capacity > 1 << 41 || capacity % 512 != 0
}

pub(crate) fn is_normal(mode: Mode) -> bool
    ensures { result ≡ is_normal mode }
{
    matches!(mode, Mode::Normal)
}

impl WorldMachine {
    // Whether a snapshot has the medium.
    pub(crate) fn has_in_snapshot(&self, name: &[u8]) -> bool
        ensures { result ≡ is_in_snapshot name.now self.now }
    {
        let mut snapshots = self.snapshots.as_slice().iter();
        snapshots.any(|snapshot| has_medium(snapshot.slots.as_slice(), name))
    }
}

impl World {
    // Whether a slot or a snapshot has the medium.
    pub(crate) fn is_in_use(&self, name: &[u8]) -> bool
        ensures { result ≡ is_in_use self.now.machines name.now }
    {
        let mut machines = self.machines.as_slice().iter();
        machines.any(|machine| {
            has_medium(machine.slots.as_slice(), name) || machine.has_in_snapshot(name)
        })
    }

    fn is_in_snapshot(&self, name: &[u8]) -> bool
        ensures { result ≡ list_any (is_in_snapshot name.now) self.now.machines }
    {
        let mut machines = self.machines.as_slice().iter();
        machines.any(|machine| machine.has_in_snapshot(name))
    }

    // Whether a snapshot has the medium, which is normal.
    pub(crate) fn is_frozen(&self, medium: &WorldMedium) -> bool
        ensures { result ≡ is_frozen self.now.machines medium.now }
    {
        is_normal(medium.mode) && self.is_in_snapshot(medium.name.bytes())
    }

    pub(crate) fn is_full(&self) -> bool
        ensures { result ≡ is_full (seen self.now) }
    {
        self.media.len() >= MEDIA_LIMIT
    }

    pub(crate) fn is_spent(&self) -> bool
        ensures { result ≡ is_spent (seen self.now) }
    {
        self.next >= NUMBER_LIMIT
    }

    pub(crate) fn create_refusal(&self, name: &[u8], capacity: u128) -> Option<Refusal>
        ensures { result ≡ first_refusal (create_checks (seen self.now) name.now capacity) }
    {
        if self.medium(name).is_some() {
            return Some(Refusal::NameTaken);
        }
        if self.on_shelf(name).is_some() {
            return Some(Refusal::FileExists);
        }
        if is_bad_size(capacity) {
            return Some(Refusal::BadSize);
        }
        if self.is_full() {
            return Some(Refusal::Full(Which::Media));
        }
        if self.is_spent() {
            return Some(Refusal::IdsSpent);
        }
        None
    }

    fn id_refusal(&self, id: Uuid) -> Option<Refusal>
        ensures { result ≡ first_refusal (id_checks (seen self.now) id) }
    {
        if has_id(self.media.as_slice(), id) {
            return Some(Refusal::DuplicateId);
        }
        if is_foreign(self.seed, self.next, id) {
            return Some(Refusal::ForeignId);
        }
        if self.is_full() {
            return Some(Refusal::Full(Which::Media));
        }
        None
    }

    fn file_refusal(&self, file: Option<&Shelved>) -> Option<Refusal>
        ensures { result ≡ first_refusal (file_checks (seen self.now) (option_copied file.entry)) }
    {
        match file {
            None => Some(Refusal::NoSuchFile),
            Some(Shelved::Bad(condition)) => Some(Refusal::NotAnImage(*condition)),
            Some(Shelved::Volume(volume)) => self.id_refusal(volume.id),
            Some(Shelved::Link(link)) => {
                self.id_refusal(link.id).or(Some(Refusal::BrokenChain(0)))
            }
        }
    }

    pub(crate) fn open_refusal(&self, name: &[u8]) -> Option<Refusal>
        ensures { result ≡ first_refusal (open_checks (seen self.now) name.now) }
    {
        if self.medium(name).is_some() {
            return Some(Refusal::NameTaken);
        }
        self.file_refusal(self.on_shelf(name))
    }

    pub(crate) fn close_refusal(&self, name: &[u8]) -> Option<Refusal>
        ensures { result ≡ first_refusal (close_checks (seen self.now) name.now) }
    {
        if self.is_in_use(name) {
            return Some(Refusal::InUse);
        }
        None
    }
}
