//! Lists that are read by place and by name.

ghost use Rattle.std.specs.Prelude.{◌≡◌, ◌<◌, [], ◌∷◌, ◌++◌, length, IsFalse, OnOk, OnErr, Some, slice_get};
ghost use Rattle.std.specs.Option.{option_copied};
ghost use Rattle.vbm_named.specs.Names.{find_by, has_name, put_by, without, Rises};

use crate::names::Named;
use indexmap::IndexMap;
use std::alloc::Global;
use std::marker::Model;
use vbm_ports::{Copied, NoMemory};

/// A list of items, no two of one name.
#[derive(Drop)]
pub struct ByName<T: Named> {
    alloc: Global,
    items: IndexMap<Vec<u8>, T>,
}

impl<T: Named> Model for ByName<T> {
    ghost use Rattle.std.specs.Prelude.{List};
    ghost use Rattle.indexmap.specs.IndexMap.{values};
    ghost use Rattle.vbm_named.specs.Keyed.{AreKeyed};

    ghost Value = { List T };

    ghost view = { λ list. values list.items };

    ghost invariant = { λ list. AreKeyed (λ k. k.items) T.name_of list.items.entries };
}

impl<T: Named> ByName<T> {
    /// The empty list.
    pub fn new(alloc: Global) -> ByName<T>
        ensures { result ≡ [] }
    {
        ByName {
            alloc,
            items: IndexMap::new(alloc),
        }
    }

    /// How many items there are.
    pub fn len(&self) -> usize
        ensures { result ≡ length self.now }
    {
        self.items.len()
    }

    /// Lends the item at a place.
    pub fn get(&self, i: usize) -> &T
        requires { i < length self.now }
        ensures { slice_get self.now i ≡ Some result.now }
    {
        &self.items[i]
    }

    /// Lends all items.
    pub fn as_slice(&self) -> &[T]
        ensures { result.now ≡ self.now }
    {
        self.items.values().as_slice()
    }

    /// Lends the item of a name.
    pub fn find(&self, name: &[u8]) -> Option<&T>
        ensures { option_copied result ≡ find_by T.name_of name.now self.now }
    {
        self.items.get(name)
    }

    /// Appends an item, or changes nothing.
    pub fn push(&mut self, item: T) -> Result<(), NoMemory>
    where
        T: Drop,
        requires { IsFalse (has_name T.name_of (T.name_of item) self.old) }
        ensures ok { OnOk result (self.new ≡ self.old ++ item ∷ []) }
        ensures err { OnErr result (self.new ≡ self.old) }
    {
        let Ok(name) = Vec::from_slice(self.alloc, item.name()) else {
            return Err(NoMemory);
        };
        match self.items.insert(name, item) {
            Ok(_) => Ok(()),
            Err(_) => Err(NoMemory),
        }
    }

    /// Puts an item at its place among rising names, or changes nothing.
    pub fn insert(&mut self, item: T) -> Result<(), NoMemory>
    where
        T: Drop,
        requires rises { Rises T.name_of self.old }
        requires another { IsFalse (has_name T.name_of (T.name_of item) self.old) }
        ensures ok { OnOk result (self.new ≡ put_by T.name_of item self.old) }
        ensures err { OnErr result (self.new ≡ self.old) }
    {
        let Ok(name) = Vec::from_slice(self.alloc, item.name()) else {
            return Err(NoMemory);
        };
        match self.items.insert_sorted(name, item) {
            Ok(_) => Ok(()),
            Err(_) => Err(NoMemory),
        }
    }

    /// Takes the item of a name away, if there is one.
    pub fn remove(&mut self, name: &[u8])
    where
        T: Drop,
        ensures { self.new ≡ without T.name_of name.now self.old }
    {
        self.items.shift_remove(name);
    }
}

impl<T: Named + Copied + Drop> Copied for ByName<T> {
    fn copied(&self, alloc: Global) -> Result<ByName<T>, NoMemory> {
        let mut copy = ByName::new(alloc);
        for i in 0..self.items.len() {
            copy.push(self.items[i].copied(alloc)?)?;
        }
        Ok(copy)
    }
}
