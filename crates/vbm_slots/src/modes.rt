//! The modes of media.

ghost use Rattle.std.specs.Prelude.{◌≡◌, false, IfOk, IfErr, OnOk};
ghost use Rattle.vbm_ports.specs.Files.{Files};
ghost use Rattle.vbm_modes.specs.declared.Mode.{Mode as AnyMode};
ghost use Rattle.vbm_modes.specs.Modes.{is_own};
ghost use Rattle.vbm_world.specs.declared.command.Command.TheVariants.{SetMode};
ghost use Rattle.vbm_store.specs.Serves.{IsSoundStore, Holds};
ghost use Rattle.vbm_store.specs.Undone.{has_failed};
ghost use Rattle.vbm_store.specs.Steps.{Refuses, Plans, IsSoundTurn};
ghost use Rattle.vbm_slots.specs.Modes.{CanSetMode};

use std::alloc::Global;
use vbm_modes::Mode;
use vbm_ports::NoMemory;
use vbm_store::{Edit, Store, Turn, Undone, is_in_use, library_plan};
use vbm_world::{Answer, Refusal};

/// Why `modifymedium --type` is refused, if it is.
pub fn check_mode(store: &Store, name: &[u8]) -> Result<(), Undone<Refusal>>
    requires sound { IsSoundStore store.now }
    ensures refused { (files : Files) → (mode : AnyMode) → IfErr result (Refuses files store.now (SetMode name.now mode)) }
    ensures can { OnOk result (CanSetMode store.now.library name.now) }
    ensures no_fault { has_failed result ≡ false }
{
    let Some(_) = store.library.media.find(name) else {
        return Err(Undone::Refused(Refusal::NoSuchMedium));
    };
    if is_in_use(&store.library, name) {
        return Err(Undone::Refused(Refusal::InUse));
    }
    Ok(())
}

/// The turn of `modifymedium --type`, where no check refuses it and slots share the disks of media of this mode.
pub fn plan_mode(alloc: Global, store: &Store, name: &[u8], mode: Mode) -> Result<Turn, NoMemory>
    requires sound { IsSoundStore store.now }
    requires can { CanSetMode store.now.library name.now }
    requires shared { is_own mode ≡ false }
    ensures plans { (files : Files) → Holds store.now.library store.now.images files
        → IfOk result (Plans files store.now (SetMode name.now mode)) }
    ensures sound { IfOk result (IsSoundTurn store.now) }
{
    let library = store.library.with_mode(alloc, name, mode)?;
    let plan = library_plan(alloc, &library)?;
    Ok(Turn {
        library,
        edit: Edit::Keep,
        plan,
        answer: Answer::Done,
    })
}
