//! Disks in memory: their files, copies, and what a crash leaves.

use crate::ended::Ended;
use crate::pieces::{LONGEST, put_pieces};
use crate::runs::{PLAIN, run_play, run_words};
use crate::scenario::Scenario;
use std::alloc::Global;
use vbm_memdisk::{MemDisk, Pick};
use vbm_ports::{Disk, names_store_file};
use vbm_top::status;

/// The first byte of a log that waits for redo.
const OPEN_GATE: u8 = 0xa5;

/// A disk that has the same files, settled.
pub(crate) fn copy(disk: &MemDisk) -> Result<MemDisk, Ended> {
    Ok(disk.images_of_last_sync(Pick::New)?)
}

/// Whether two disks have the same files.
pub(crate) fn has_same_files(disk: &MemDisk, other: &MemDisk) -> Result<bool, Ended> {
    let names = disk.names()?;
    if names.len() != other.names()?.len() {
        return Ok(false);
    }
    for name in names.as_slice() {
        if disk.file(name.bytes()) != other.file(name.bytes()) {
            return Ok(false);
        }
    }
    Ok(true)
}

/// Puts the pieces of a text over a file, which is made if it is absent.
pub(crate) fn put_file(
    alloc: Global,
    disk: &mut MemDisk,
    name: &[u8],
    pieces: &str,
) -> Result<(), Ended> {
    let mut file = Vec::from_slice(alloc, disk.file(name).unwrap_or(b""))?;
    put_pieces(alloc, &mut file, pieces)?;
    if file.len() > 2 * LONGEST {
        return Err(Ended::Here("a file is too long"));
    }
    disk.put_file(name, file.as_slice())?;
    Ok(())
}

/// Removes a file of a store, if it is there.
pub(crate) fn remove_file(disk: &mut MemDisk, name: &[u8]) -> Result<(), Ended> {
    if !names_store_file(name) || disk.remove(name).is_err() {
        return Err(Ended::Here("no file of a store"));
    }
    *disk = copy(disk)?;
    Ok(())
}

/// Runs words, whose answer has to be no refusal, and settles all.
pub(crate) fn run_well(alloc: Global, disk: &mut MemDisk, line: &str) -> Result<(), Ended> {
    let outcome = run_words(alloc, disk, line.as_bytes(), PLAIN)?;
    if outcome.status != status::DONE {
        return Err(Ended::Here("refused"));
    }
    *disk = copy(disk)?;
    Ok(())
}

/// What a crash leaves at the last call of a run at which the log then waits.
pub(crate) fn waiting(
    alloc: Global,
    disk: &MemDisk,
    pick: Pick,
    line: &str,
) -> Result<MemDisk, Ended> {
    let mut whole = copy(disk)?;
    run_words(alloc, &mut whole, line.as_bytes(), PLAIN)?;
    let calls = whole.calls();
    for i in 0..calls {
        let image = stopped_image(alloc, disk, pick, line, calls - 1 - i)?;
        if waits(&image) {
            return Ok(image);
        }
    }
    Err(Ended::Here("no stop leaves a log that waits"))
}

fn stopped_image(
    alloc: Global,
    disk: &MemDisk,
    pick: Pick,
    line: &str,
    call: u64,
) -> Result<MemDisk, Ended> {
    let mut stopped = copy(disk)?;
    stopped.stop_at(call);
    run_words(alloc, &mut stopped, line.as_bytes(), PLAIN)?;
    Ok(stopped.images_of_last_sync(pick)?)
}

fn waits(disk: &MemDisk) -> bool {
    match disk.file(b"intent.vbm") {
        Some(log) => log.first() == Some(&OPEN_GATE),
        None => false,
    }
}

/// The disk that a scenario begins with.
pub(crate) fn begin(scenario: &Scenario) -> Result<MemDisk, Ended> {
    let mut disk = copy(&scenario.all.start)?;
    for file in &scenario.unsettled {
        if !is_written(&mut disk, file.name.as_bytes(), file.bytes.as_slice()) {
            return Err(Ended::At(scenario.all.line, "an unsettled file is not written"));
        }
    }
    Ok(disk)
}

// Writes a file of a store, and gives whether it could.
fn is_written(disk: &mut MemDisk, name: &[u8], bytes: &[u8]) -> bool {
    if !names_store_file(name) || bytes.is_empty() || bytes.len() > LONGEST {
        return false;
    }
    disk.write(name, 0, bytes).is_ok()
}

/// What asking lines find: what they write, and then a line with the status, the files whose names end as those of images, and a
/// mark for each thing that is said of files, whether it holds.
pub(crate) fn ask(
    alloc: Global,
    disk: &mut MemDisk,
    scenario: &Scenario,
) -> Result<Vec<u8>, Ended> {
    let outcome = run_play(alloc, disk, &scenario.asking)?;
    let mut found = outcome.text(alloc)?;
    found.extend_from_slice(b", files")?;
    for name in &image_names(alloc, disk)? {
        found.push(b' ')?;
        found.extend_from_slice(name.as_slice())?;
    }
    for check in &scenario.all.checks {
        let mark = if check.holds(alloc, &scenario.all.start, disk)? {
            b"; holds"
        } else {
            b"; fails"
        };
        found.extend_from_slice(mark)?;
    }
    Ok(found)
}

// The names of a disk's files that end as those of images, in their order.
fn image_names(alloc: Global, disk: &MemDisk) -> Result<Vec<Vec<u8>>, Ended> {
    let mut images = Vec::new(alloc);
    for name in disk.names()?.as_slice() {
        if name.bytes().ends_with(b".vdi") {
            images.push(Vec::from_slice(alloc, name.bytes())?)?;
        }
    }
    images.sort()?;
    Ok(images)
}
