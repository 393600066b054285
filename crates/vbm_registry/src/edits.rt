//! Copies of a library with another mode of a medium, and with other machines and inner images, which nothing names by a place.

ghost use Rattle.std.specs.Prelude.{◌≡◌, ◌==◌, not, filter, Some, IfOk, IsTrue, IsFalse};
ghost use Rattle.vbm_named.specs.Names.{find_by, has_name, Rises};
ghost use Rattle.vbm_registry.specs.declared.library.Inner.{Inner};
ghost use Rattle.vbm_registry.specs.Library.{medium_entry_name};
ghost use Rattle.vbm_registry.specs.Grammar.{machine_entry_name};
ghost use Rattle.vbm_registry.specs.Renumbered.{with_mode_entry, with_machine_entry, with_machine_renewed, without_machine_entry, with_inner_entry, without_inner_entry};

use crate::library::{Inner, Inners, Library};
use crate::media::Medium;
use std::alloc::Global;
use vbm_machines::Machine;
use vbm_modes::Mode;
use vbm_ports::{Copied, NoMemory, Sequence, Text};

fn inners_without(alloc: Global, inners: &[Inner], number: u64) -> Result<Inners, NoMemory>
    ensures { IfOk result (λ all. all ≡ filter (λ (x : Inner). not (x.number == number)) inners.now) }
{
    let mut all = Sequence::new(alloc);
    let mut rest = inners;
    while let [inner, after @ ..] = rest {
        if inner.number != number {
            all.push(*inner)?;
        }
        rest = after;
    }
    Ok(all)
}

impl Library {
    /// A copy with another mode of the medium of a name. No place is another.
    pub fn with_mode(&self, alloc: Global, name: &[u8], mode: Mode) -> Result<Library, NoMemory>
        requires rises { Rises medium_entry_name self.now.media }
        requires there { IsTrue (has_name medium_entry_name name.now self.now.media) }
        ensures { IfOk result (λ l. l ≡ with_mode_entry self.now name.now mode) }
    {
        let medium = Medium {
            name: Text::new(alloc, name)?,
            mode,
        };
        let mut library = self.copied(alloc)?;
        library.media.remove(name);
        library.media.insert(medium)?;
        Ok(library)
    }

    /// Lends the machine of a name, which is there.
    pub fn machine_of(&self, name: &[u8]) -> &Machine
        requires { IsTrue (has_name machine_entry_name name.now self.now.machines) }
        ensures { find_by machine_entry_name name.now self.now.machines ≡ Some result.now }
    {
        let Some(machine) = self.machines.find(name) else {
            unreachable!();
        };
        machine
    }

    /// A copy with one more machine, in its place.
    pub fn with_machine(&self, alloc: Global, machine: Machine) -> Result<Library, NoMemory>
        requires rises { Rises machine_entry_name self.now.machines }
        requires another { IsFalse (has_name machine_entry_name machine.name self.now.machines) }
        ensures { IfOk result (λ l. l ≡ with_machine_entry self.now machine) }
    {
        let mut library = self.copied(alloc)?;
        library.machines.insert(machine)?;
        Ok(library)
    }

    /// A copy with a machine in the place of the one of its name.
    pub fn with_machine_renewed(&self, alloc: Global, machine: Machine) -> Result<Library, NoMemory>
        requires rises { Rises machine_entry_name self.now.machines }
        requires there { IsTrue (has_name machine_entry_name machine.name self.now.machines) }
        ensures { IfOk result (λ l. l ≡ with_machine_renewed self.now machine) }
    {
        let mut library = self.copied(alloc)?;
        library.machines.remove(machine.name.bytes());
        library.machines.insert(machine)?;
        Ok(library)
    }

    /// A copy without the machine of a name.
    pub fn without_machine(&self, alloc: Global, name: &[u8]) -> Result<Library, NoMemory>
        ensures { IfOk result (λ l. l ≡ without_machine_entry self.now name.now) }
    {
        let mut library = self.copied(alloc)?;
        library.machines.remove(name);
        Ok(library)
    }

    /// A copy with one more inner image, behind all others.
    pub fn with_inner(&self, alloc: Global, inner: Inner) -> Result<Library, NoMemory>
        ensures { IfOk result (λ l. l ≡ with_inner_entry self.now inner) }
    {
        let mut library = self.copied(alloc)?;
        library.inners.push(inner)?;
        Ok(library)
    }

    /// A copy without the inner image of a number.
    pub fn without_inner(&self, alloc: Global, number: u64) -> Result<Library, NoMemory>
        ensures { IfOk result (λ l. l ≡ without_inner_entry self.now number) }
    {
        let mut library = self.copied(alloc)?;
        library.inners = inners_without(alloc, self.inners.as_slice(), number)?;
        Ok(library)
    }
}
