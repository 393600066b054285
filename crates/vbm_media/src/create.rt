//! Making media.

ghost use Rattle.std.specs.Prelude.{◌≡◌, ◌+◌, ◌<◌, ◌≤◌, ◌^◌, ◌++◌, None, length, IfOk, IfErr, OnOk, OnErr, IsTrue, IsFalse};
ghost use Rattle.vbm_ports.specs.Counts.{Rose, IsCounted};
ghost use Rattle.vbm_ports.specs.Disk.{OnlyReads};
ghost use Rattle.vbm_ports.specs.Files.{Files};
ghost use Rattle.vbm_ports.specs.Names.{is_medium_name};
ghost use Rattle.vbm_header.specs.declared.ImageType.TheVariants.{Dynamic};
ghost use Rattle.vbm_volume.specs.Made.{IsNewHeader};
ghost use Rattle.vbm_volume.specs.declared.flat.Variant.TheVariants.{Standard};
ghost use Rattle.vbm_ids.specs.Identifier.{IsSeed};
ghost use Rattle.vbm_world.specs.declared.command.Command.TheVariants as commands;
ghost use Rattle.vbm_named.specs.Names.{has_name};
ghost use Rattle.vbm_world.specs.Refusals.{capacity_of, is_bad_size, first_refusal};
ghost use Rattle.vbm_world.specs.Media.{create_checks};
ghost use Rattle.vbm_registry.specs.Library.{medium_entry_name};
ghost use Rattle.vbm_registry.specs.Named.{named};
ghost use Rattle.vbm_registry.specs.Rules.{IsLibrary};
ghost use Rattle.vbm_store.specs.Plans.{library_changes, image_changes};
ghost use Rattle.vbm_store.specs.Undone.{has_failed};
ghost use Rattle.vbm_store.specs.Serves.{serves, IsWritable, IsSoundStore, Holds};
ghost use Rattle.vbm_store.specs.Steps.{Refuses, Plans, IsSoundTurn};
ghost use Rattle.vbm_media.specs.Creates.{first_check, library_made, CanCreate, IsNewMedium, MayCreate, Creates};

use std::alloc::Global;
use vbm_blockmap::Pending;
use vbm_header::Header;
use vbm_ids::{Kind, NUMBER_LIMIT, id_of};
use vbm_image::Image;
use vbm_intent::Plan;
use vbm_modes::Mode;
use vbm_ports::{Disk, Failed, NoMemory, Text};
use vbm_registry::{Library, Medium};
use vbm_store::{Edit, Store, Turn, Undone, plan_image, plan_library};
use vbm_volume::{Variant, new_header};
use vbm_world::{Answer, MEDIA_LIMIT, Refusal, Size, Which, is_bad_size};

// The first of the conditions that holds.
fn first_that_holds(
    taken: bool,
    there: bool,
    bad_size: bool,
    full: bool,
    spent: bool,
) -> Option<Refusal>
    ensures { result ≡ first_check taken there bad_size full spent }
{
    if taken {
        return Some(Refusal::NameTaken);
    }
    if there {
        return Some(Refusal::FileExists);
    }
    if bad_size {
        return Some(Refusal::BadSize);
    }
    if full {
        return Some(Refusal::Full(Which::Media));
    }
    if spent {
        return Some(Refusal::IdsSpent);
    }
    None
}

// Why a medium isn't made, if it isn't.
fn create_refusal<D: Disk>(
    store: &Store,
    disk: &mut D,
    name: &[u8],
    size: Size,
) -> Result<Option<Refusal>, Failed>
    requires sound { IsSoundStore store.now }
    requires name { IsTrue (is_medium_name name.now) }
    ensures answer { D.tells → IfOk result (λ r. r
        ≡ first_refusal (create_checks (serves store.now (D.state disk.old).files) name.now (capacity_of size))) }
    ensures can { IfOk result (λ r. r ≡ None → CanCreate store.now.library name.now (capacity_of size)) }
    ensures absent { D.tells → IfOk result (λ r. r ≡ None → (D.state disk.old).files name.now ≡ None) }
    ensures reads { OnlyReads D.tells (D.state disk.old) (D.state disk.new) }
    ensures cause { OnErr result (Rose (D.state disk.old).faults (D.state disk.new).faults) }
    ensures no_fault { IfOk result (λ _. (D.state disk.new).faults ≡ (D.state disk.old).faults) }
{
    let len = disk.length(name)?;
    let library = &store.library;
    Ok(first_that_holds(
        library.media.find(name).is_some(),
        len.is_some(),
        is_bad_size(size.capacity()),
        library.media.len() >= MEDIA_LIMIT,
        library.next >= NUMBER_LIMIT,
    ))
}

/// Why `createmedium` is refused, if it is.
pub fn check_create<D: Disk>(
    store: &Store,
    disk: &mut D,
    name: &[u8],
    size: Size,
) -> Result<(), Undone<Refusal>>
    requires sound { IsSoundStore store.now }
    requires name { IsTrue (is_medium_name name.now) }
    ensures refused { D.tells → (variant : Variant)
        → IfErr result (Refuses (D.state disk.old).files store.now (commands.CreateMedium name.now size variant)) }
    ensures can { OnOk result (CanCreate (store.now).library name.now (capacity_of size)) }
    ensures may { D.tells → OnOk result (MayCreate (D.state disk.old).files store.now name.now (capacity_of size)) }
    ensures reads { OnlyReads D.tells (D.state disk.old) (D.state disk.new) }
    ensures faults { IsCounted (has_failed result) (D.state disk.old).faults (D.state disk.new).faults }
{
    match create_refusal(store, disk, name, size) {
        Ok(None) => Ok(()),
        Ok(Some(refusal)) => Err(Undone::Refused(refusal)),
        Err(Failed) => Err(Undone::Failed),
    }
}

// The header of a new medium's image.
fn header_of(library: &Library, capacity: u64, variant: Variant) -> Header
    requires seed { IsSeed (library.now).seed }
    requires next { (library.now).next < NUMBER_LIMIT }
    requires capacity { IsFalse (is_bad_size capacity) }
    requires variant { variant ≡ Standard }
    ensures { IsNewMedium library.now capacity result }
{
    let id = id_of(library.seed, Kind::Medium, library.next);
    let modify = id_of(library.seed, Kind::Modify, library.next);
    new_header(variant, capacity, id, modify)
}

// A copy of the library with a new medium, for which an identifier was drawn.
fn with_new(alloc: Global, library: &Library, name: &[u8]) -> Result<Library, NoMemory>
    requires rules { IsLibrary (named library.now) }
    requires new { IsFalse (has_name medium_entry_name name.now (library.now).media) }
    requires next { (library.now).next < NUMBER_LIMIT }
    ensures { IfOk result (λ l. l ≡ library_made library.now name.now) }
{
    let medium = Medium {
        name: Text::new(alloc, name)?,
        mode: Mode::Normal,
    };
    let mut made = library.with_medium(alloc, medium)?;
    made.next += 1;
    Ok(made)
}

// The making of the image and the writing of the library, in one plan.
fn plan_of(alloc: Global, name: &[u8], header: &Header, library: &Library) -> Result<Plan, NoMemory>
    requires name { IsTrue (is_medium_name name.now) }
    requires header { IsNewHeader header.now }
    requires library { IsWritable library.now }
    ensures { IfOk result (λ plan. plan.changes ≡ image_changes name.now header.now ++ library_changes library.now) }
{
    let mut plan = Plan::new(alloc);
    plan_image(alloc, &mut plan, name, header)?;
    plan_library(alloc, &mut plan, library)?;
    Ok(plan)
}

// The turn to a store with a new medium.
fn turn_of(
    alloc: Global,
    store: &Store,
    name: &[u8],
    capacity: u64,
    variant: Variant,
) -> Result<Turn, NoMemory>
    requires sound { IsSoundStore store.now }
    requires name { IsTrue (is_medium_name name.now) }
    requires can { CanCreate (store.now).library name.now capacity }
    requires variant { variant ≡ Standard }
    ensures { IfOk result (Creates store.now name.now capacity) }
{
    let header = header_of(&store.library, capacity, variant);
    let library = with_new(alloc, &store.library, name)?;
    let plan = plan_of(alloc, name, &header, &library)?;
    let image = Image {
        name: Text::new(alloc, name)?,
        header,
        pending: Pending::new(alloc),
        used: None,
    };
    Ok(Turn {
        library,
        edit: Edit::Put(image),
        plan,
        answer: Answer::Id(header.id),
    })
}

/// The turn of `createmedium`, where no check refuses it.
pub fn plan_create(
    alloc: Global,
    store: &Store,
    name: &[u8],
    size: Size,
    variant: Variant,
) -> Result<Turn, NoMemory>
    requires sound { IsSoundStore store.now }
    requires name { IsTrue (is_medium_name name.now) }
    requires variant { variant ≡ Standard }
    requires can { CanCreate (store.now).library name.now (capacity_of size) }
    ensures plans { (files : Files) → Holds store.now.library store.now.images files
        → MayCreate files store.now name.now (capacity_of size)
        → IfOk result (Plans files store.now (commands.CreateMedium name.now size variant)) }
    ensures sound { IfOk result (IsSoundTurn store.now) }
{
    turn_of(alloc, store, name, size.capacity() as u64, variant)
}
