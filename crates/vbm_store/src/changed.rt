//! Media that have changed since a start.

ghost use Rattle.std.specs.Prelude.{◌≡◌, [], ◌∷◌, ◌++◌, OnOk, OnErr};
ghost use Rattle.vbm_machines.specs.Renumbering.{itself};
ghost use Rattle.vbm_named.specs.Names.{has_name, without};
ghost use Rattle.vbm_store.specs.Edits.{still_changed, without_all};

use crate::images::Edit;
use std::alloc::Global;
use std::marker::Model;
use vbm_named::names::is_same;
use vbm_ports::{NoMemory, Text};

/// The names of the media that have changed since a start.
#[derive(Drop)]
pub struct Changed {
    names: Vec<Text>,
}

impl Model for Changed {
    ghost use Rattle.std.specs.Prelude.{List};
    ghost use Rattle.vbm_named.specs.Names.{Name};

    ghost Value = { List Name };

    ghost view = { λ changed. changed.names.items };
}

impl Changed {
    /// None has changed.
    pub fn new(alloc: Global) -> Changed
        ensures { result ≡ [] }
    {
        Changed {
            names: Vec::new(alloc),
        }
    }

    /// Forgets a medium whose image comes or goes, and those that a start makes unchanged. It takes no memory.
    pub(crate) fn apply(&mut self, edit: &Edit)
        ensures { self.new ≡ still_changed edit.now self.old }
    {
        match edit {
            Edit::Keep => {}
            Edit::Unchanged(names) => self.forget_all(names.as_slice()),
            Edit::Put(image) => self.forget(image.name.bytes()),
            Edit::Remove(name) => self.forget(name.bytes()),
        }
    }

    fn forget_all(&mut self, names: &[Text])
        ensures { self.new ≡ without_all names.now self.old }
    {
        let mut rest = names;
        while let [name, after @ ..] = rest {
            self.forget(name.bytes());
            rest = after;
        }
    }

    /// Marks a medium as changed, or changes nothing.
    pub fn mark(&mut self, name: Text) -> Result<(), NoMemory>
        ensures ok { OnOk result (self.new ≡ self.old ++ name ∷ []) }
        ensures err { OnErr result (self.new ≡ self.old) }
    {
        match self.names.push(name) {
            Ok(()) => Ok(()),
            Err(_) => Err(NoMemory),
        }
    }

    /// Whether a medium is marked as changed.
    pub fn has(&self, name: &[u8]) -> bool
        ensures { result ≡ has_name itself name.now self.now }
    {
        self.names
            .iter()
            .any(|changed| is_same(changed.bytes(), name))
    }

    /// Takes the mark from a medium. It takes no memory.
    pub fn forget(&mut self, name: &[u8])
        ensures { self.new ≡ without itself name.now self.old }
    {
        self.names.retain(|changed| !is_same(changed.bytes(), name));
    }
}
