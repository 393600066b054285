//! Closing media.

ghost use Rattle.std.specs.Prelude.{◌≡◌, ◌++◌, Bool, IfOk, IfErr, OnOk, IsTrue, false};
ghost use Rattle.vbm_ports.specs.Files.{Files};
ghost use Rattle.vbm_ports.specs.Names.{is_medium_name};
ghost use Rattle.vbm_registry.specs.Renumbered.{without_medium_entry};
ghost use Rattle.vbm_world.specs.declared.command.Command.TheVariants.{CloseMedium};
ghost use Rattle.vbm_media.specs.Closes.{CanClose, removal};
ghost use Rattle.vbm_store.specs.Plans.{library_changes};
ghost use Rattle.vbm_store.specs.Serves.{IsWritable, IsSoundStore, Holds};
ghost use Rattle.vbm_store.specs.Undone.{has_failed};
ghost use Rattle.vbm_store.specs.Steps.{Refuses, Plans, IsSoundTurn};

use std::alloc::Global;
use vbm_intent::{Change, Plan};
use vbm_ports::{NoMemory, Text};
use vbm_registry::Library;
use vbm_store::{Edit, Store, Turn, Undone, is_in_use, plan_library};
use vbm_world::{Answer, Refusal};

// Removes the file of a name, where it is asked for.
fn plan_removal(alloc: Global, name: &[u8], delete: bool) -> Result<Plan, NoMemory>
    requires name { IsTrue (is_medium_name name.now) }
    ensures { IfOk result (λ plan. plan.changes ≡ removal name.now delete) }
{
    let mut plan = Plan::new(alloc);
    if delete {
        let name = Text::new(alloc, name)?;
        plan.push(Change::Remove { name })?;
    }
    Ok(plan)
}

fn plan_closing(
    alloc: Global,
    library: &Library,
    name: &[u8],
    delete: bool,
) -> Result<Plan, NoMemory>
    requires library { IsWritable library.now }
    requires name { IsTrue (is_medium_name name.now) }
    ensures { IfOk result (λ plan. plan.changes ≡ removal name.now delete ++ library_changes library.now) }
{
    let mut plan = plan_removal(alloc, name, delete)?;
    plan_library(alloc, &mut plan, library)?;
    Ok(plan)
}

// The library without the medium, its name, and the plan.
fn close_entry(
    alloc: Global,
    store: &Store,
    name: &[u8],
    delete: bool,
) -> Result<(Library, Text, Plan), NoMemory>
    requires library { IsWritable store.now.library }
    requires name { IsTrue (is_medium_name name.now) }
    requires can { CanClose store.now.library name.now }
    ensures library { IfOk result (λ x. x.0 ≡ without_medium_entry store.now.library name.now) }
    ensures name { IfOk result (λ x. x.1 ≡ name.now) }
    ensures plan { IfOk result (λ x. x.2.changes
        ≡ removal name.now delete ++ library_changes (without_medium_entry store.now.library name.now)) }
{
    let library = store.library.without_medium(alloc, name)?;
    let plan = plan_closing(alloc, &library, name, delete)?;
    Ok((library, Text::new(alloc, name)?, plan))
}

/// Why `closemedium` is refused, if it is.
pub fn check_close(store: &Store, name: &[u8]) -> Result<(), Undone<Refusal>>
    requires sound { IsSoundStore store.now }
    ensures refused { (files : Files) → (delete : Bool) → IfErr result (Refuses files store.now (CloseMedium name.now delete)) }
    ensures can { OnOk result (CanClose store.now.library name.now) }
    ensures no_fault { has_failed result ≡ false }
{
    let Some(_) = store.library.media.find(name) else {
        return Err(Undone::Refused(Refusal::NoSuchMedium));
    };
    if is_in_use(&store.library, name) {
        return Err(Undone::Refused(Refusal::InUse));
    }
    Ok(())
}

/// The turn of `closemedium`, where no check refuses it.
pub fn plan_close(alloc: Global, store: &Store, name: &[u8], delete: bool) -> Result<Turn, NoMemory>
    requires sound { IsSoundStore store.now }
    requires name { IsTrue (is_medium_name name.now) }
    requires can { CanClose store.now.library name.now }
    ensures plans { (files : Files) → Holds store.now.library store.now.images files
        → IfOk result (Plans files store.now (CloseMedium name.now delete)) }
    ensures sound { IfOk result (IsSoundTurn store.now) }
{
    let (library, name, plan) = close_entry(alloc, store, name, delete)?;
    Ok(Turn {
        library,
        edit: Edit::Remove(name),
        plan,
        answer: Answer::Done,
    })
}
