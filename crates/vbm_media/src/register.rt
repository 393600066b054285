//! Opening media: a file of the shelf becomes a medium.

ghost use Rattle.std.specs.Prelude.{◌≡◌, false, Ok, IfOk, IfErr, IsTrue, IsFalse};
ghost use Rattle.vbm_ports.specs.Counts.{IsCounted};
ghost use Rattle.vbm_ports.specs.Disk.{OnlyReads};
ghost use Rattle.vbm_ports.specs.Files.{Files};
ghost use Rattle.vbm_ports.specs.Names.{is_medium_name};
ghost use Rattle.vbm_registry.specs.Library.{medium_entry_name};
ghost use Rattle.vbm_registry.specs.Named.{named};
ghost use Rattle.vbm_registry.specs.Renumbered.{with_medium_entry};
ghost use Rattle.vbm_registry.specs.Rules.{IsLibrary};
ghost use Rattle.vbm_named.specs.Names.{has_name};
ghost use Rattle.vbm_world.specs.Refusals.{first_refusal};
ghost use Rattle.vbm_world.specs.declared.command.Command.TheVariants.{OpenMedium};
ghost use Rattle.vbm_store.specs.Edits.{IsNewImage};
ghost use Rattle.vbm_store.specs.Images.{IsRead};
ghost use Rattle.vbm_store.specs.Plans.{library_changes};
ghost use Rattle.vbm_media.specs.Creates.{new_entry};
ghost use Rattle.vbm_media.specs.Registers.{image_checks, undone_by, CanOpen};
ghost use Rattle.vbm_store.specs.Serves.{media_images, IsWritable, IsSoundStore, Holds, FitsDisk};
ghost use Rattle.vbm_store.specs.Undone.{has_failed};
ghost use Rattle.vbm_store.specs.Steps.{Refuses, Plans, IsSoundTurn};

use std::alloc::Global;
use uuid::Uuid;
use vbm_header::Header;
use vbm_ids::{Identified, has_id, is_foreign};
use vbm_image::{Image, OpenFault, open_image};
use vbm_intent::Plan;
use vbm_modes::Mode;
use vbm_ports::{Disk, NoMemory, Text};
use vbm_registry::{Library, Medium};
use vbm_store::{Edit, Store, Turn, Undone, library_plan};
use vbm_world::{Answer, MEDIA_LIMIT, Refusal, Which};

// Why an accepted image is refused.
fn image_refusal(store: &Store, header: &Header) -> Option<Refusal>
    requires { IsSoundStore store.now }
    ensures { result ≡ first_refusal (image_checks store.now.library (media_images store.now) header.now) }
{
    if has_id(store.media_images(), header.id) {
        return Some(Refusal::DuplicateId);
    }
    if is_foreign(store.library.seed, store.library.next, header.id) {
        return Some(Refusal::ForeignId);
    }
    if store.library.media.len() >= MEDIA_LIMIT {
        return Some(Refusal::Full(Which::Media));
    }
    if header.image_type.is_differencing() {
        return Some(Refusal::BrokenChain(0));
    }
    None
}

fn library_with(alloc: Global, library: &Library, name: &[u8]) -> Result<Library, NoMemory>
    requires rules { IsLibrary (named library.now) }
    requires free { IsFalse (has_name medium_entry_name name.now library.now.media) }
    ensures { IfOk result (λ l. l ≡ with_medium_entry library.now (new_entry name.now)) }
{
    let name = Text::new(alloc, name)?;
    library.with_medium(
        alloc,
        Medium {
            name,
            mode: Mode::Normal,
        },
    )
}

// The library with the image's medium, and the plan.
fn add_entry(alloc: Global, store: &Store, image: &Image) -> Result<(Library, Plan), NoMemory>
    requires rules { IsLibrary (named store.now.library) }
    requires free { IsFalse (has_name medium_entry_name image.now.name store.now.library.media) }
    requires grown { IsWritable (with_medium_entry store.now.library (new_entry image.now.name)) }
    ensures library { IfOk result (λ x. x.0 ≡ with_medium_entry store.now.library (new_entry image.now.name)) }
    ensures plan { IfOk result (λ x. x.1.changes ≡ library_changes (with_medium_entry store.now.library (new_entry image.now.name))) }
{
    let library = library_with(alloc, &store.library, image.name.bytes())?;
    let plan = library_plan(alloc, &library)?;
    Ok((library, plan))
}

// An image whose name no medium has, unless it is refused.
fn check_image(store: &Store, image: Image) -> Result<Image, Undone<Refusal>>
    requires sound { IsSoundStore store.now }
    requires name { IsTrue (is_medium_name image.name) }
    requires free { has_name medium_entry_name image.name store.now.library.media ≡ false }
    requires new { IsNewImage image }
    ensures refused { (files : Files) → Holds store.now.library store.now.images files
        → IsRead (files image.name) (Ok image.header) → IfErr result (Refuses files store.now (OpenMedium image.name)) }
    ensures same { IfOk result (λ it. it ≡ image) }
    ensures can { IfOk result (CanOpen store.now) }
    ensures no_fault { has_failed result ≡ false }
{
    match image_refusal(store, &image.header) {
        Some(refusal) => Err(Undone::Refused(refusal)),
        None => Ok(image),
    }
}

// Why a file is not opened.
fn undone(fault: OpenFault) -> Undone<Refusal>
    ensures { result ≡ undone_by fault }
{
    match fault {
        OpenFault::Missing => Undone::Refused(Refusal::NoSuchFile),
        OpenFault::Bad(bad) => Undone::Refused(Refusal::NotAnImage(bad.number())),
        OpenFault::Failed => Undone::Failed,
        OpenFault::NoMemory => Undone::NoMemory,
    }
}

// The image of a name that no medium has, unless it is refused.
fn check_file<D: Disk>(
    alloc: Global,
    store: &Store,
    disk: &mut D,
    name: &[u8],
) -> Result<Image, Undone<Refusal>>
    requires sound { IsSoundStore store.now }
    requires name { IsTrue (is_medium_name name.now) }
    requires fits { D.tells → FitsDisk store.now (D.state disk.old) }
    requires free { has_name medium_entry_name name.now store.now.library.media ≡ false }
    ensures refused { D.tells → IfErr result (Refuses (D.state disk.old).files store.now (OpenMedium name.now)) }
    ensures name { IfOk result (λ image. image.name ≡ name.now) }
    ensures can { IfOk result (CanOpen store.now) }
    ensures read { D.tells → IfOk result (λ image. IsRead ((D.state disk.old).files name.now) (Ok image.header)) }
    ensures reads { OnlyReads D.tells (D.state disk.old) (D.state disk.new) }
    ensures faults { IsCounted (has_failed result) (D.state disk.old).faults (D.state disk.new).faults }
{
    match open_image(alloc, disk, name) {
        Ok(image) => check_image(store, image),
        Err(fault) => Err(undone(fault)),
    }
}

/// The image that `openmedium` makes a medium of, unless it is refused.
pub fn check_open<D: Disk>(
    alloc: Global,
    store: &Store,
    disk: &mut D,
    name: &[u8],
) -> Result<Image, Undone<Refusal>>
    requires sound { IsSoundStore store.now }
    requires name { IsTrue (is_medium_name name.now) }
    requires fits { D.tells → FitsDisk store.now (D.state disk.old) }
    ensures refused { D.tells → IfErr result (Refuses (D.state disk.old).files store.now (OpenMedium name.now)) }
    ensures name { IfOk result (λ image. image.name ≡ name.now) }
    ensures can { IfOk result (CanOpen store.now) }
    ensures read { D.tells → IfOk result (λ image. IsRead ((D.state disk.old).files name.now) (Ok image.header)) }
    ensures reads { OnlyReads D.tells (D.state disk.old) (D.state disk.new) }
    ensures faults { IsCounted (has_failed result) (D.state disk.old).faults (D.state disk.new).faults }
{
    match store.library.media.find(name) {
        Some(_) => Err(Undone::Refused(Refusal::NameTaken)),
        None => check_file(alloc, store, disk, name),
    }
}

/// The turn of `openmedium`, where no check refuses the image.
pub fn plan_open(alloc: Global, store: &Store, image: Image) -> Result<Turn, NoMemory>
    requires sound { IsSoundStore store.now }
    requires name { IsTrue (is_medium_name image.name) }
    requires can { CanOpen store.now image }
    ensures plans { (files : Files) → Holds store.now.library store.now.images files
        → IsRead (files image.name) (Ok image.header) → IfOk result (Plans files store.now (OpenMedium image.name)) }
    ensures sound { IfOk result (IsSoundTurn store.now) }
{
    let id = image.id();
    let (library, plan) = add_entry(alloc, store, &image)?;
    Ok(Turn {
        library,
        edit: Edit::Put(image),
        plan,
        answer: Answer::Id(id),
    })
}
