//! Copies that take memory.

ghost use Rattle.std.specs.Prelude.{◌≡◌, IfOk};

use crate::{NoMemory, Sequence, Text};
use std::alloc::Global;

/// A type whose values can be copied, where there is memory.
pub trait Copied {
    /// A copy.
    fn copied(&self, alloc: Global) -> Result<Self, NoMemory>
        ensures { IfOk result (λ copy. copy ≡ self.now) };
}

impl Copied for Text {
    fn copied(&self, alloc: Global) -> Result<Text, NoMemory> {
        Text::new(alloc, self.bytes())
    }
}

impl<T: Copied + Drop> Copied for Sequence<T> {
    fn copied(&self, alloc: Global) -> Result<Sequence<T>, NoMemory> {
        let mut copy = Sequence::new(alloc);
        for item in self.as_slice() {
            copy.push(item.copied(alloc)?)?;
        }
        Ok(copy)
    }
}

impl<T: Copied + Drop> Copied for Option<T> {
    fn copied(&self, alloc: Global) -> Result<Option<T>, NoMemory> {
        match self {
            Some(item) => Ok(Some(item.copied(alloc)?)),
            None => Ok(None),
        }
    }
}

impl<const N: usize> Copied for [u8; N] {
    fn copied(&self, _alloc: Global) -> Result<[u8; N], NoMemory> {
        Ok(*self)
    }
}
