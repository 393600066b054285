//! Media in the order of their names.

ghost use Rattle.std.specs.Prelude.{◌≡◌, ◌≤◌, length};
ghost use Rattle.std.specs.List.{position_or_len};
ghost use Rattle.vbm_named.specs.Names.{is_named};
ghost use Rattle.vbm_registry.specs.Library.{medium_entry_name};

use std::alloc::Global;
use vbm_modes::Mode;
use vbm_named::names::is_same;
use vbm_named::{ByName, Named};
use vbm_ports::{Copied, NoMemory, Text};

/// A medium as the library lists it.
#[derive(Drop)]
pub struct Medium {
    pub name: Text,
    pub mode: Mode,
}

impl Named for Medium {
    ghost name_of = { λ medium. medium.name };

    fn name(&self) -> &[u8] {
        self.name.bytes()
    }
}

impl Copied for Medium {
    fn copied(&self, alloc: Global) -> Result<Medium, NoMemory> {
        Ok(Medium {
            name: self.name.copied(alloc)?,
            mode: self.mode,
        })
    }
}

/// Media, in the order of their names.
pub type Media = ByName<Medium>;

/// The place of the medium of a name, or their number where none has it.
pub(crate) fn place_of(media: &[Medium], name: &[u8]) -> usize
    ensures place { result ≡ position_or_len (is_named medium_entry_name name.now) media.now }
    ensures within { result ≤ length media.now }
{
    let mut place = 0;
    let mut rest = media;
    while let [first, after @ ..] = rest {
        if is_same(first.name.bytes(), name) {
            break;
        }
        place += 1;
        rest = after;
    }
    place
}
