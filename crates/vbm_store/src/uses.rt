//! Which media machines have.

ghost use Rattle.std.specs.Prelude.{◌≡◌};
ghost use Rattle.std.specs.List.{list_any};
ghost use Rattle.vbm_machines.specs.declared.Machine.{Machine};
ghost use Rattle.vbm_registry.specs.Entries.{is_using};
ghost use Rattle.vbm_registry.specs.Named.{named};
ghost use Rattle.vbm_registry.specs.Renumbered.{has_medium_at, uses_medium};
ghost use Rattle.vbm_registry.specs.Rules.{IsLibrary};
ghost use Rattle.vbm_standing.specs.Meaning.{is_frozen_in};
ghost use Rattle.vbm_store.specs.Uses.{is_taken_at};

use vbm_machines::{Machine, Slot};
use vbm_modes::Mode;
use vbm_registry::{Library, Medium};

// Whether a slot has the medium at a place.
fn has_medium(slots: &[Slot], place: u32) -> bool
    ensures { result ≡ has_medium_at place slots.now }
{
    slots.iter().any(|slot| slot.medium == place)
}

// Whether a snapshot has the medium at a place.
fn is_taken(machine: &Machine, place: u32) -> bool
    ensures { result ≡ is_taken_at place machine.now }
{
    machine
        .snapshots
        .as_slice()
        .iter()
        .any(|snapshot| has_medium(snapshot.slots.as_slice(), place))
}

// Whether some machine or snapshot has the medium at a place.
fn some_uses(machines: &[Machine], place: u32) -> bool
    ensures { result ≡ list_any (uses_medium place) machines.now }
{
    machines.iter().any(|machine| has_medium(machine.slots.as_slice(), place)
        || is_taken(machine, place))
}

// Whether some snapshot has it.
fn some_is_taken(machines: &[Machine], place: u32) -> bool
    ensures { result ≡ list_any (is_taken_at place) machines.now }
{
    machines.iter().any(|machine| is_taken(machine, place))
}

/// Whether a machine or a snapshot has the medium of a name.
pub fn is_in_use(library: &Library, name: &[u8]) -> bool
    requires { IsLibrary (named library.now) }
    ensures { result ≡ list_any (is_using name.now) (named library.now).machines }
{
    let place = library.place_of(name) as u32;
    some_uses(library.machines.as_slice(), place)
}

/// Whether a medium is frozen: it is normal, and a snapshot has it.
pub fn is_frozen(library: &Library, medium: &Medium) -> bool
    requires { IsLibrary (named library.now) }
    ensures { result ≡ is_frozen_in (named library.now).machines medium.now }
{
    match medium.mode {
        Mode::Normal => {
            let place = library.place_of(medium.name.bytes()) as u32;
            some_is_taken(library.machines.as_slice(), place)
        }
        Mode::Immutable | Mode::Writethrough | Mode::MultiAttach | Mode::Readonly => false,
    }
}
