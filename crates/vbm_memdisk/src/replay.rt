//! What an event does to files.

ghost use Rattle.std.specs.Prelude.{◌≡◌, ◌≤◌, List, length, take, drop, reverse, Some, IfOk, OnOk, OnErr};
ghost use Rattle.vbm_ports.specs.Files.{Files};
ghost use Rattle.vbm_memdisk.specs.Folders.{files_in, with_file, smeared};
ghost use Rattle.vbm_memdisk.specs.declared.events.Pick.{Pick};
ghost use Rattle.vbm_memdisk.specs.Events.{after_event, settled, with_byte, effect_of, is_sync, replays, files_after, since_sync};

use crate::Pick;
use crate::events::{Event, Whole, Write};
use crate::folder::Folder;
use vbm_ports::NoMemory;

/// The files after some events, of which the newest comes last. Those since the last sync leave such bytes as a crash may.
pub(crate) fn replayed(first: &Folder, events: &[Event], pick: Pick) -> Result<Folder, NoMemory>
    ensures { IfOk result (λ folder. files_in folder ≡ since_sync (effect_of pick) (files_in first.now) (reverse events.now)) }
{
    let start = last_sync(events);
    let mut folder = first.copy()?;
    replay(&mut folder, &events[..start], Pick::New)?;
    replay(&mut folder, &events[start..], pick)?;
    Ok(folder)
}

// How many events there are up to the last sync.
fn last_sync(events: &[Event]) -> usize
    ensures within { result ≤ length events.now }
    ensures parts { (pick : Pick) → (first : Files)
        → since_sync (effect_of pick) first (reverse events.now) ≡ replays (effect_of pick) (files_after first (reverse (take result events.now))) (reverse (drop result events.now)) }
{
    let mut start = 0;
    for (i, event) in events.iter().enumerate() {
        if settles(event) {
            start = i + 1;
        }
    }
    start
}

fn settles(event: &Event) -> bool
    ensures { result ≡ is_sync event.now }
{
    matches!(event, Event::Synced)
}

// What events do to files, one after another.
fn replay(folder: &mut Folder, events: &[Event], pick: Pick) -> Result<(), NoMemory>
    ensures { OnOk result (files_in folder.new ≡ replays (effect_of pick) (files_in folder.old) (reverse events.now)) }
{
    for event in events {
        apply(folder, pick, event)?;
    }
    Ok(())
}

/// What an event since the last sync does to files, of which a crash leaves such bytes.
pub(crate) fn apply(folder: &mut Folder, pick: Pick, event: &Event) -> Result<(), NoMemory>
    ensures ok { OnOk result (files_in folder.new ≡ effect_of pick event.now (files_in folder.old)) }
    ensures err { OnErr result (files_in folder.new ≡ files_in folder.old) }
{
    match pick {
        Pick::Old => settle(folder, event),
        Pick::New => happen(folder, event),
        Pick::Byte(byte) => happen_with(folder, byte, event),
    }
}

// What an event does to the files that reads give.
fn happen(folder: &mut Folder, event: &Event) -> Result<(), NoMemory>
    ensures ok { OnOk result (files_in folder.new ≡ after_event event.now (files_in folder.old)) }
    ensures err { OnErr result (files_in folder.new ≡ files_in folder.old) }
{
    match event {
        Event::Wrote(write) => folder.write(write.name.bytes(), write.at, kept(write)),
        Event::Cut { name, len } => {
            folder.cut(name.bytes(), *len);
            Ok(())
        }
        Event::Removed { name } => {
            folder.remove(name.bytes());
            Ok(())
        }
        Event::Synced => Ok(()),
        Event::Put(file) => put(folder, file),
    }
}

// What an event does at once, with no sync.
fn settle(folder: &mut Folder, event: &Event) -> Result<(), NoMemory>
    ensures ok { OnOk result (files_in folder.new ≡ settled event.now (files_in folder.old)) }
    ensures err { OnErr result (files_in folder.new ≡ files_in folder.old) }
{
    match event {
        Event::Put(file) => put(folder, file),
        _ => Ok(()),
    }
}

// What an event does, but with this byte all over a written range.
fn happen_with(folder: &mut Folder, byte: u8, event: &Event) -> Result<(), NoMemory>
    ensures ok { OnOk result (files_in folder.new ≡ with_byte byte event.now (files_in folder.old)) }
    ensures err { OnErr result (files_in folder.new ≡ files_in folder.old) }
{
    match event {
        Event::Wrote(write) => smear(folder, byte, write),
        _ => happen(folder, event),
    }
}

fn smear(folder: &mut Folder, byte: u8, write: &Write) -> Result<(), NoMemory>
    ensures ok { OnOk result (files_in folder.new ≡ with_file write.now.name (smeared byte write.now.at (length write.now.bytes) (take write.now.kept write.now.bytes) (files_in folder.old write.now.name)) (files_in folder.old)) }
    ensures err { OnErr result (files_in folder.new ≡ files_in folder.old) }
{
    let len = write.bytes.len() as u64;
    folder.smear(write.name.bytes(), write.at, len, byte, kept(write))
}

fn put(folder: &mut Folder, file: &Whole) -> Result<(), NoMemory>
    ensures ok { OnOk result (files_in folder.new ≡ with_file file.now.name (Some file.now.bytes) (files_in folder.old)) }
    ensures err { OnErr result (files_in folder.new ≡ files_in folder.old) }
{
    folder.set_copy(file.name.bytes(), file.bytes.as_slice())
}

// The bytes of a write that reads give.
fn kept(write: &Write) -> &[u8]
    ensures { result.now ≡ take write.now.kept write.now.bytes }
{
    &write.bytes.as_slice()[..write.kept]
}
