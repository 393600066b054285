//! Opening a store.

ghost use Rattle.std.specs.Prelude.{◌≡◌, ◌≢◌, ◌⊎◌, ◌+◌, ◌^◌, ◌≤◌, min, length, ◌∷◌, ◌++◌, [], ℕ, List, map, Option, Some, None, Result, Ok, Err, IfOk, OnOk, IsTrue, false};
ghost use Rattle.std.specs.List.{AllByRecursion, list_any};
ghost use Rattle.std.specs.Str.{bytes_eq};
ghost use Rattle.vbm_ports.specs.Files.{bytes_of};
ghost use Rattle.vbm_ports.specs.Counts.{IsCounted};
ghost use Rattle.vbm_ports.specs.Crash.{Only};
ghost use Rattle.vbm_ports.specs.Disk.{Passes, OnlyReads};
ghost use Rattle.vbm_ports.specs.Names.{is_medium_name};
ghost use Rattle.vbm_header.specs.declared.Header.{Header};
ghost use Rattle.vbm_image.specs.Image.{image_name};
ghost use Rattle.vbm_image.specs.Opened.{IsOpenedFrom, is_device_fault};
ghost use Rattle.vbm_intent.specs.Changes.{log_name};
ghost use Rattle.vbm_intent.specs.Log.{IsOpen, recorded_size};
ghost use Rattle.vbm_registry.specs.Library.{library_name, medium_entry_name};
ghost use Rattle.vbm_registry.specs.declared.features.TheConstants.{BUILT as built};
ghost use Rattle.vbm_registry.specs.Grammar.{library_in, IsDecoded};
ghost use Rattle.vbm_registry.specs.PlaceRules.{keeps_places};
ghost use Rattle.vbm_registry.specs.Named.{named};
ghost use Rattle.vbm_standing.specs.Faults.{medium_header_fault, file_fault, medium_fault, same_id_fault, media_fault};
ghost use Rattle.vbm_standing.specs.Stands.{library_of, read_library, held_by};
ghost use Rattle.vbm_store.specs.Undone.{is_failed, has_failed};
ghost use Rattle.vbm_store.specs.Edits.{IsNewImage};
ghost use Rattle.vbm_store.specs.Serves.{head_of, head_in, image_files, Holds};
ghost use Rattle.vbm_engine.specs.Opens.{Opens, SyncsFirst, OpensSound, opening_failed, StandsAlike};
ghost use Rattle.vbm_engine.specs.Parts.{OnBad, Finds, ids_of, fault_behind, OpensOf};
ghost use Rattle.vbm_intent.specs.declared.limits.TheConstants.{LONGEST_BODY};

use crate::engine::{Engine, Opened};
use crate::recover::{BadLog, recover_record};
use std::alloc::Global;
use uuid::Uuid;
use vbm_ids::{has_id, is_foreign};
use vbm_image::{Image, OpenFault, open_image};
use vbm_intent::{Log, record_size};
use vbm_ports::{Disk, Failed, LIBRARY_NAME, NoMemory, Text};
use vbm_registry::{BadStore, DecodeFault, LONGEST_LIBRARY, Library, Medium, decode};
use vbm_store::{Changed, Images, Store, Undone};

/// Opens a store: makes the changes that wait in its log, and reads its library and every image of it. The first fault of the
/// store is the answer otherwise; its files then stay, but for a log whose gate was open, whose changes are made. A crash inside
/// it, any number of times, changes nothing of what the store stands for: until its first sync has returned it leaves what it
/// could have left at the call, and from then on what stands for the same.
pub fn open<D: Disk>(alloc: Global, disk: &mut D) -> Opened
    ensures opens { D.tells → Opens (D.state disk.old) (D.state disk.new) result }
    ensures sound { OpensSound result }
    ensures any_moment { D.tells → Passes (D.state disk.old) (D.state disk.new)
        (λ image. (D.state disk.old).may_leave image ⊎ StandsAlike (D.state disk.old).files image) }
    ensures synced { D.tells → SyncsFirst (D.state disk.old) (D.state disk.new) (StandsAlike (D.state disk.old).files)
        ⊎ ((result ≡ Opened.Fault) × OnlyReads D.tells (D.state disk.old) (D.state disk.new)) }
    ensures faults { IsCounted (opening_failed result) (D.state disk.old).faults (D.state disk.new).faults }
{
    match disk.sync() {
        Ok(()) => open_settled(alloc, disk),
        Err(Failed) => Opened::Fault,
    }
}

// Opens a store that is settled.
fn open_settled<D: Disk>(alloc: Global, disk: &mut D) -> Opened
    requires settled { D.tells → Only (D.state disk.old).files (D.state disk.old).may_leave }
    ensures opens { D.tells → Opens (D.state disk.old) (D.state disk.new) result }
    ensures sound { OpensSound result }
    ensures any_moment { D.tells
        → Passes (D.state disk.old) (D.state disk.new) (StandsAlike (D.state disk.old).files) }
    ensures faults { IsCounted (opening_failed result) (D.state disk.old).faults (D.state disk.new).faults }
{
    match record_size(disk) {
        Ok(Some(size)) => open_pending(alloc, disk, size),
        Ok(None) => open_closed(alloc, disk),
        Err(Failed) => Opened::Fault,
    }
}

// Opens a store in whose log a record of this size waits: its changes are made first.
fn open_pending<D: Disk>(alloc: Global, disk: &mut D, size: u32) -> Opened
    requires settled { D.tells → Only (D.state disk.old).files (D.state disk.old).may_leave }
    requires open { D.tells → IsOpen ((D.state disk.old).files log_name) }
    requires told { D.tells → size ≡ recorded_size ((D.state disk.old).files log_name) }
    requires bound { size ≤ LONGEST_BODY }
    ensures opens { D.tells → Opens (D.state disk.old) (D.state disk.new) result }
    ensures sound { OpensSound result }
    ensures any_moment { D.tells
        → Passes (D.state disk.old) (D.state disk.new) (StandsAlike (D.state disk.old).files) }
    ensures faults { IsCounted (opening_failed result) (D.state disk.old).faults (D.state disk.new).faults }
{
    match recover_record(alloc, disk, Some(size)) {
        Ok(log) => open_redone(alloc, disk, log),
        Err(Undone::Refused(BadLog)) => Opened::Refused(BadStore::BadLog),
        Err(Undone::Failed) => Opened::Fault,
        Err(Undone::NoMemory) => Opened::NoMemory,
    }
}

// Opens a store whose log was redone.
fn open_redone<D: Disk>(alloc: Global, disk: &mut D, log: Log) -> Opened
    ensures opens { D.tells → OpensOf (D.state disk.old).files result }
    ensures sound { OpensSound result }
    ensures reads { OnlyReads D.tells (D.state disk.old) (D.state disk.new) }
    ensures faults { IsCounted (opening_failed result) (D.state disk.old).faults (D.state disk.new).faults }
{
    match load(alloc, disk) {
        Ok((library, images)) => Opened::Open(Engine {
            store: Store {
                library,
                changed: Changed::new(alloc),
                images,
                log,
            },
        }),
        Err(Undone::Refused(bad)) => Opened::Refused(bad),
        Err(Undone::Failed) => Opened::Fault,
        Err(Undone::NoMemory) => Opened::NoMemory,
    }
}

// Opens a store whose log's gate is not open. The log is left alone unless the store opens.
fn open_closed<D: Disk>(alloc: Global, disk: &mut D) -> Opened
    requires settled { D.tells → Only (D.state disk.old).files (D.state disk.old).may_leave }
    requires closed { D.tells → IsOpen ((D.state disk.old).files log_name) → ⊥ }
    ensures opens { D.tells → Opens (D.state disk.old) (D.state disk.new) result }
    ensures sound { OpensSound result }
    ensures any_moment { D.tells
        → Passes (D.state disk.old) (D.state disk.new) (StandsAlike (D.state disk.old).files) }
    ensures faults { IsCounted (opening_failed result) (D.state disk.old).faults (D.state disk.new).faults }
{
    match load(alloc, disk) {
        Ok((library, images)) => start(alloc, disk, library, images),
        Err(Undone::Refused(bad)) => Opened::Refused(bad),
        Err(Undone::Failed) => Opened::Fault,
        Err(Undone::NoMemory) => Opened::NoMemory,
    }
}

// Starts the log of a store that opens.
fn start<D: Disk>(alloc: Global, disk: &mut D, library: Library, images: Images) -> Opened
    requires settled { D.tells → Only (D.state disk.old).files (D.state disk.old).may_leave }
    requires closed { D.tells → IsOpen ((D.state disk.old).files log_name) → ⊥ }
    requires holds { D.tells → Holds library images (D.state disk.old).files }
    requires rules { IsDecoded built keeps_places library }
    requires names { map image_name images ≡ image_files (named library) }
    requires new { AllByRecursion IsNewImage images }
    ensures opens { D.tells → Opens (D.state disk.old) (D.state disk.new) result }
    ensures sound { OpensSound result }
    ensures any_moment { D.tells
        → Passes (D.state disk.old) (D.state disk.new) (StandsAlike (D.state disk.old).files) }
    ensures faults { IsCounted (opening_failed result) (D.state disk.old).faults (D.state disk.new).faults }
{
    match Log::start(disk) {
        Ok(log) => Opened::Open(Engine {
            store: Store {
                library,
                changed: Changed::new(alloc),
                images,
                log,
            },
        }),
        Err(Failed) => Opened::Fault,
    }
}

// The library and the images of the files.
fn load<D: Disk>(alloc: Global, disk: &mut D) -> Result<(Library, Images), Undone<BadStore>>
    ensures told { D.tells → Finds
        (λ x. Holds x.0 x.1 (D.state disk.old).files) (λ bad. held_by (D.state disk.old).files ≡ Err bad) result }
    ensures rules { IfOk result (λ x. IsDecoded built keeps_places x.0) }
    ensures names { IfOk result (λ x. map image_name x.1 ≡ image_files (named x.0)) }
    ensures new { IfOk result (λ x. AllByRecursion IsNewImage x.1) }
    ensures reads { OnlyReads D.tells (D.state disk.old) (D.state disk.new) }
    ensures faults { IsCounted (has_failed result) (D.state disk.old).faults (D.state disk.new).faults }
{
    let library = load_library(alloc, disk)?;
    let images = open_images(alloc, disk, &library)?;
    Ok((library, images))
}

// Reads the library's file, and no more of it than shows that it is too long.
fn load_library<D: Disk>(alloc: Global, disk: &mut D) -> Result<Library, Undone<BadStore>>
    ensures told { D.tells
        → Finds (λ l. library_of (D.state disk.old).files ≡ Ok l) (λ bad. library_of (D.state disk.old).files ≡ Err bad) result }
    ensures rules { IfOk result (IsDecoded built keeps_places) }
    ensures reads { OnlyReads D.tells (D.state disk.old) (D.state disk.new) }
    ensures faults { IsCounted (has_failed result) (D.state disk.old).faults (D.state disk.new).faults }
{
    match disk.length(LIBRARY_NAME) {
        Err(Failed) => Err(Undone::Failed),
        Ok(None) => Err(Undone::Refused(BadStore::NoLibrary)),
        Ok(Some(len)) => { read_front(alloc, disk, len.min(LONGEST_LIBRARY as u64 + 1) as usize) }
    }
}

// The library that the first bytes of its file spell.
fn read_front<D: Disk>(alloc: Global, disk: &mut D, len: usize) -> Result<Library, Undone<BadStore>>
    requires file { D.tells → (D.state disk.old).files library_name ≢ None }
    requires long { D.tells → len ≡ min (length (bytes_of ((D.state disk.old).files library_name))) (LONGEST_LIBRARY + 1) }
    ensures told { D.tells
        → Finds (λ l. library_of (D.state disk.old).files ≡ Ok l) (λ bad. library_of (D.state disk.old).files ≡ Err bad) result }
    ensures rules { IfOk result (IsDecoded built keeps_places) }
    ensures reads { OnlyReads D.tells (D.state disk.old) (D.state disk.new) }
    ensures faults { IsCounted (has_failed result) (D.state disk.old).faults (D.state disk.new).faults }
{
    let Ok(mut front) = vec![in alloc; 0u8; len] else {
        return Err(Undone::NoMemory);
    };
    read_into(alloc, disk, front.as_mut_slice())
}

fn read_into<D: Disk>(
    alloc: Global,
    disk: &mut D,
    front: &mut [u8],
) -> Result<Library, Undone<BadStore>>
    requires file { D.tells → (D.state disk.old).files library_name ≢ None }
    requires long { D.tells → length front.old ≡ min (length (bytes_of ((D.state disk.old).files library_name))) (LONGEST_LIBRARY + 1) }
    ensures told { D.tells
        → Finds (λ l. library_of (D.state disk.old).files ≡ Ok l) (λ bad. library_of (D.state disk.old).files ≡ Err bad) result }
    ensures rules { IfOk result (IsDecoded built keeps_places) }
    ensures reads { OnlyReads D.tells (D.state disk.old) (D.state disk.new) }
    ensures faults { IsCounted (has_failed result) (D.state disk.old).faults (D.state disk.new).faults }
{
    let Ok(n) = disk.read(LIBRARY_NAME, 0, front) else {
        return Err(Undone::Failed);
    };
    decode_library(alloc, &front[..n])
}

fn decode_library(alloc: Global, bytes: &[u8]) -> Result<Library, Undone<BadStore>>
    ensures told { Finds (λ l. read_library (library_in built keeps_places bytes.now) ≡ Ok l) (λ bad. read_library (library_in built keeps_places bytes.now) ≡ Err bad) result }
    ensures rules { IfOk result (IsDecoded built keeps_places) }
    ensures no_fault { has_failed result ≡ false }
{
    match decode(alloc, bytes) {
        Ok(library) => Ok(library),
        Err(DecodeFault::Bad(offset)) => Err(Undone::Refused(BadStore::BadLibrary(offset))),
        Err(DecodeFault::NoMemory) => Err(Undone::NoMemory),
    }
}

// Opens the images of the media, in their order.
fn open_images<D: Disk>(
    alloc: Global,
    disk: &mut D,
    library: &Library,
) -> Result<Images, Undone<BadStore>>
    requires { IsDecoded built keeps_places library.now }
    ensures told { D.tells → Finds
        (λ images. (media_fault (named library.now) (D.state disk.old).files [] library.now.media ≡ None)
        × (map head_of images ≡ map (head_in (D.state disk.old).files) (map medium_entry_name library.now.media)))
        (λ bad. media_fault (named library.now) (D.state disk.old).files [] library.now.media ≡ Some bad) result }
    ensures names { IfOk result (λ images. map image_name images ≡ map medium_entry_name library.now.media) }
    ensures new { IfOk result (λ images. AllByRecursion IsNewImage images) }
    ensures reads { OnlyReads D.tells (D.state disk.old) (D.state disk.new) }
    ensures faults { IsCounted (has_failed result) (D.state disk.old).faults (D.state disk.new).faults }
{
    let mut images = Images::new(alloc);
    for medium in library.media.as_slice() {
        add_image(alloc, disk, library, medium, &mut images)?;
    }
    Ok(images)
}

// Opens the image of a medium behind those of earlier ones.
fn add_image<D: Disk>(
    alloc: Global,
    disk: &mut D,
    library: &Library,
    medium: &Medium,
    images: &mut Images,
) -> Result<(), Undone<BadStore>>
    requires { IsTrue (is_medium_name medium.now.name) }
    ensures told { D.tells → Finds
        (λ _. (fault_behind library.now (D.state disk.old).files (ids_of images.old) medium.now ≡ None)
        × (map head_of images.new ≡ map head_of images.old ++ head_in (D.state disk.old).files medium.now.name ∷ []))
        (λ bad. fault_behind library.now (D.state disk.old).files (ids_of images.old) medium.now ≡ Some bad) result }
    ensures names { OnOk result (map image_name images.new ≡ map image_name images.old ++ medium.now.name ∷ []) }
    ensures new { OnOk result (AllByRecursion IsNewImage images.old → AllByRecursion IsNewImage images.new) }
    ensures reads { OnlyReads D.tells (D.state disk.old) (D.state disk.new) }
    ensures faults { IsCounted (has_failed result) (D.state disk.old).faults (D.state disk.new).faults }
{
    let image = open_medium(alloc, disk, library, medium)?;
    push_image(images, image)
}

// Appends an image whose identifier no other has.
fn push_image(images: &mut Images, image: Image) -> Result<(), Undone<BadStore>>
    ensures told { Finds
        (λ _. (same_id_fault (ids_of images.old) image.name image.header.id ≡ None) × (images.new ≡ images.old ++ image ∷ []))
        (λ bad. same_id_fault (ids_of images.old) image.name image.header.id ≡ Some bad) result }
    ensures pushed { OnOk result (images.new ≡ images.old ++ image ∷ []) }
    ensures no_fault { has_failed result ≡ false }
{
    let Image {
        name,
        header,
        pending,
        used,
    } = image;
    if has_id(images.as_slice(), header.id) {
        return Err(Undone::Refused(BadStore::SameId(name)));
    }
    match images.push(Image {
        name,
        header,
        pending,
        used,
    }) {
        Ok(()) => Ok(()),
        Err(NoMemory) => Err(Undone::NoMemory),
    }
}

// Opens the image of a medium, which is of a whole disk and has an identifier that is not foreign.
fn open_medium<D: Disk>(
    alloc: Global,
    disk: &mut D,
    library: &Library,
    medium: &Medium,
) -> Result<Image, Undone<BadStore>>
    requires { IsTrue (is_medium_name medium.now.name) }
    ensures told { D.tells → Finds
        (λ image. (medium_fault (named library.now) (D.state disk.old).files medium.now ≡ None)
        × (head_of image ≡ head_in (D.state disk.old).files medium.now.name))
        (λ bad. medium_fault (named library.now) (D.state disk.old).files medium.now ≡ Some bad) result }
    ensures name { IfOk result (λ image. image.name ≡ medium.now.name) }
    ensures new { IfOk result IsNewImage }
    ensures reads { OnlyReads D.tells (D.state disk.old) (D.state disk.new) }
    ensures faults { IsCounted (has_failed result) (D.state disk.old).faults (D.state disk.new).faults }
{
    let name = medium.name.bytes();
    match open_image(alloc, disk, name) {
        Ok(image) => accept(library, image),
        Err(fault) => Err(fault_of_file(alloc, name, fault)),
    }
}

// Accepts the image of a medium.
fn accept(library: &Library, image: Image) -> Result<Image, Undone<BadStore>>
    ensures told { Finds
        (λ accepted. (medium_header_fault (named library.now) image.name image.header ≡ None) × (accepted ≡ image))
        (λ bad. medium_header_fault (named library.now) image.name image.header ≡ Some bad) result }
    ensures same { IfOk result (λ accepted. accepted ≡ image) }
    ensures no_fault { has_failed result ≡ false }
{
    let Image {
        name,
        header,
        pending,
        used,
    } = image;
    if header.image_type.is_differencing() {
        return Err(Undone::Refused(BadStore::WrongType(name)));
    }
    if is_foreign(library.seed, library.next, header.id) {
        return Err(Undone::Refused(BadStore::WrongId(name)));
    }
    Ok(Image {
        name,
        header,
        pending,
        used,
    })
}

// What is said of a store whose medium of this name was not opened.
fn fault_of_file(alloc: Global, name: &[u8], fault: OpenFault) -> Undone<BadStore>
    ensures bad { (header_fault : Header → Option BadStore) → (file : Option (List ℕ)) → IsOpenedFrom file (Err fault)
        → OnBad (λ bad. file_fault name.now header_fault file ≡ Some bad) result }
    ensures cause { is_failed result ≡ is_device_fault (Err fault) }
{
    match fault {
        OpenFault::Failed => Undone::Failed,
        OpenFault::NoMemory => Undone::NoMemory,
        OpenFault::Missing => match Text::new(alloc, name) {
            Ok(name) => Undone::Refused(BadStore::MissingFile(name)),
            Err(NoMemory) => Undone::NoMemory,
        },
        OpenFault::Bad(bad) => match Text::new(alloc, name) {
            Ok(name) => Undone::Refused(BadStore::BadImage(name, bad.number())),
            Err(NoMemory) => Undone::NoMemory,
        },
    }
}
