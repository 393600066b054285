//! Commits of plans, also stopped and failing at each call, and what a crash leaves of them.

ghost use Rattle.std.specs.Prelude.{◌≡◌, [], ◌∷◌, None, IfOk};
ghost use Rattle.vbm_memdisk.specs.MemDisk.{memory_state};
ghost use Rattle.vbm_intent.specs.Changes.{log_name};
ghost use Rattle.vbm_log_tests.specs.Plans.{FitsAll, a_written, b_removed, a_put, a_cut, b_zeros, c_nines, d_removed, e_made};

use crate::redo::{End, redo_log, same_besides_log};
use std::alloc::Global;
use std::process::Abort;
use std::test::Fail;
use vbm_intent::{Change, INDEX_ROOM, Log, Plan};
use vbm_memdisk::{MemDisk, Pick};
use vbm_ports::{Bytes, Failed, Text};

/// The record of the plan of six: the 111 bytes of its body, its 6 changes, and these.
static RECORD: &[u8] =
    b"o\0\0\0\x06\0\0\0\x01\x05a.vdi\0\0\0\0\0\0\0\0\x02\0\0\0\x07\x08\x03\x05a.vdi\x05\0\0\0\0\0\0\0\x02\x05b.vdi\0\0\0\0\0\0\0\0\x03\0\0\0\0\0\0\0\0\x02\x05c.vdi\0\0\0\0\0\0\0\0\x88\x13\0\0\0\0\0\0\x09\x04\x05d.vdi\x01\x05e.vdi\0\0\0\0\0\0\0\0\x01\0\0\0\x01";

/// The images of a crash that are looked at.
static PICKS: [Pick; 4] = [Pick::Old, Pick::New, Pick::Byte(7), Pick::Byte(0xA5)];

fn write_a(alloc: Global) -> Result<Change, Fail>
    ensures { IfOk result (λ change. change ≡ a_written) }
{
    let name = Text::new(alloc, b"a.vdi")?;
    let bytes = Bytes::from_slice(alloc, b"\x03")?;
    Ok(Change::Write { name, at: 0, bytes })
}

fn remove_b(alloc: Global) -> Result<Change, Fail>
    ensures { IfOk result (λ change. change ≡ b_removed) }
{
    let name = Text::new(alloc, b"b.vdi")?;
    Ok(Change::Remove { name })
}

// Writes one byte of one file, and removes another.
fn plan_of_two(alloc: Global) -> Result<Plan, Fail>
    ensures { IfOk result (λ plan. plan.changes ≡ a_written ∷ b_removed ∷ []) }
{
    let mut plan = Plan::new(alloc);
    plan.push(write_a(alloc)?)?;
    plan.push(remove_b(alloc)?)?;
    Ok(plan)
}

fn disk_of_two(alloc: Global) -> Result<MemDisk, Fail> {
    let mut disk = MemDisk::new(alloc);
    disk.put_file(b"a.vdi", b"\x01")?;
    disk.put_file(b"b.vdi", b"\x02")?;
    Ok(disk)
}

// Makes and settles a plan.
pub(crate) fn start_and_commit(disk: &mut MemDisk, plan: &Plan) -> Result<(), Failed>
    requires absent { (memory_state disk.old).files log_name ≡ None }
    requires fits { FitsAll plan.now.changes }
{
    let mut log = Log::start(disk)?;
    log.commit(disk, plan)
}

// Commits the plan over the disk of two, and checks both files.
fn check_files(
    rt: &impl Abort,
    alloc: Global,
    plan: &Plan,
    a: &[u8],
    b: Option<&[u8]>,
) -> Result<(), Fail>
    requires fits { FitsAll plan.now.changes }
{
    let mut disk = disk_of_two(alloc)?;
    assert!(rt; disk.file(b"intent.vbm").is_none());
    assert!(rt; start_and_commit(&mut disk, plan).is_ok());
    let settled = disk.images_of_last_sync(Pick::Byte(9))?;
    assert!(rt; settled.file(b"a.vdi") == Some(a));
    assert!(rt; settled.file(b"b.vdi") == b);
    Ok(())
}

#[test]
fn makes_what_was_set(rt: HostRuntime) -> Result<(), Fail> {
    let alloc = rt.alloc();
    let mut plan = plan_of_two(alloc)?;
    plan.set(0, 0, b"\x04");
    check_files(&rt, alloc, &plan, b"\x04", None)
}

#[test]
fn makes_nothing_that_was_cleared(rt: HostRuntime) -> Result<(), Fail> {
    let alloc = rt.alloc();
    let mut plan = plan_of_two(alloc)?;
    plan.clear();
    assert_eq!(rt; plan.size(), 0);
    plan.push(put_a(alloc)?)?;
    check_files(&rt, alloc, &plan, b"\x07\x08", Some(b"\x02"))
}

fn put_a(alloc: Global) -> Result<Change, Fail>
    ensures { IfOk result (λ change. change ≡ a_put) }
{
    let name = Text::new(alloc, b"a.vdi")?;
    let bytes = Bytes::from_slice(alloc, b"\x07\x08")?;
    Ok(Change::Write { name, at: 0, bytes })
}

fn cut_a(alloc: Global, len: u64) -> Result<Change, Fail>
    ensures { IfOk result (λ change. change ≡ a_cut len) }
{
    let name = Text::new(alloc, b"a.vdi")?;
    Ok(Change::Cut { name, len })
}

fn fill_b(alloc: Global) -> Result<Change, Fail>
    ensures { IfOk result (λ change. change ≡ b_zeros) }
{
    let name = Text::new(alloc, b"b.vdi")?;
    Ok(Change::Fill {
        name,
        at: 0,
        len: 3,
        byte: 0,
    })
}

fn fill_c(alloc: Global) -> Result<Change, Fail>
    ensures { IfOk result (λ change. change ≡ c_nines) }
{
    let name = Text::new(alloc, b"c.vdi")?;
    Ok(Change::Fill {
        name,
        at: 0,
        len: 5000,
        byte: 9,
    })
}

fn remove_d(alloc: Global) -> Result<Change, Fail>
    ensures { IfOk result (λ change. change ≡ d_removed) }
{
    let name = Text::new(alloc, b"d.vdi")?;
    Ok(Change::Remove { name })
}

fn make_e(alloc: Global) -> Result<Change, Fail>
    ensures { IfOk result (λ change. change ≡ e_made) }
{
    let name = Text::new(alloc, b"e.vdi")?;
    let bytes = Bytes::from_slice(alloc, b"\x01")?;
    Ok(Change::Write { name, at: 0, bytes })
}

// All kinds of changes, over five files.
fn plan_of_six(alloc: Global) -> Result<Plan, Fail>
    ensures { IfOk result (λ plan. FitsAll plan.changes) }
{
    let mut plan = Plan::new(alloc);
    plan.reserve(6, 111)?;
    plan.push(put_a(alloc)?)?;
    plan.push(cut_a(alloc, 5)?)?;
    plan.push(fill_b(alloc)?)?;
    plan.push(fill_c(alloc)?)?;
    plan.push(remove_d(alloc)?)?;
    plan.push(make_e(alloc)?)?;
    Ok(plan)
}

fn disk_of_four(alloc: Global) -> Result<MemDisk, Fail> {
    let mut disk = MemDisk::new(alloc);
    disk.put_file(b"a.vdi", b"abcdefgh")?;
    disk.put_file(b"b.vdi", b"xy")?;
    disk.put_file(b"c.vdi", b"abc")?;
    disk.put_file(b"d.vdi", b"old")?;
    Ok(disk)
}

#[test]
fn makes_changes_of_all_kinds(rt: HostRuntime) -> Result<(), Fail> {
    let alloc = rt.alloc();
    let plan = plan_of_six(alloc)?;
    assert_eq!(rt; plan.size(), 21 + 15 + 24 + 24 + 7 + 20);
    let mut disk = disk_of_four(alloc)?;
    assert!(rt; disk.file(b"intent.vbm").is_none());
    assert!(rt; start_and_commit(&mut disk, &plan).is_ok());
    let settled = disk.images_of_last_sync(Pick::Byte(7))?;
    assert!(rt; settled.file(b"a.vdi") == Some(b"\x07\x08cde".as_slice()));
    assert!(rt; settled.file(b"b.vdi") == Some(b"\0\0\0".as_slice()));
    let nines = settled.file(b"c.vdi").unwrap_or(b"");
    assert!(rt; nines.len() == 5000 && nines.iter().all(|byte| *byte == 9));
    assert!(rt; settled.file(b"d.vdi").is_none());
    assert!(rt; settled.file(b"e.vdi") == Some(b"\x01".as_slice()));
    let log = settled.file(b"intent.vbm").unwrap_or(b"");
    assert!(rt; log.starts_with(&[0; 8]) && log.ends_with(RECORD));
    assert_eq!(rt; log.len(), 8 + RECORD.len());
    Ok(())
}

// Commits a plan on a disk that breaks it off, or not. Redone, each image that a crash leaves has the files from before or those
// from after it. It has the latter where all was done, and where the gate was open, behind which the record stands.
fn check_commit(
    rt: &impl Abort,
    alloc: Global,
    disk: MemDisk,
    plan: &Plan,
    after: &MemDisk,
) -> Result<bool, Fail>
    requires fits { FitsAll plan.now.changes }
{
    let before = disk_of_four(alloc)?;
    let mut disk = disk;
    assert!(rt; disk.file(b"intent.vbm").is_none());
    let is_done = start_and_commit(&mut disk, plan).is_ok();
    for pick in PICKS {
        let mut image = disk.images_of_last_sync(pick)?;
        let log = image.file(b"intent.vbm").unwrap_or(b"");
        let is_open = log.len() >= 16 && log[0] == 0xA5;
        assert!(rt; !is_open || log.ends_with(RECORD));
        assert_eq!(rt; redo_log(alloc, &mut image, INDEX_ROOM)?, End::Done);
        let is_before = same_besides_log(&image, &before);
        assert!(rt; same_besides_log(&image, after) || is_before && !is_done && !is_open);
    }
    Ok(is_done)
}

#[test]
fn stops_and_fails_at_each_call(rt: HostRuntime) -> Result<(), Fail> {
    let alloc = rt.alloc();
    let plan = plan_of_six(alloc)?;
    let mut after = disk_of_four(alloc)?;
    assert!(rt; after.file(b"intent.vbm").is_none());
    assert!(rt; start_and_commit(&mut after, &plan).is_ok());
    for k in 0..=after.calls() {
        let mut disk = disk_of_four(alloc)?;
        disk.stop_at(k);
        let is_done = check_commit(&rt, alloc, disk, &plan, &after)?;
        assert_eq!(rt; is_done, k == after.calls());
        let mut disk = disk_of_four(alloc)?;
        disk.fail_call(k)?;
        let is_done = check_commit(&rt, alloc, disk, &plan, &after)?;
        assert_eq!(rt; is_done, k == after.calls());
    }
    Ok(())
}
