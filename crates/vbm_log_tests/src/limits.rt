//! Plans at the limits of the body and of the count.

ghost use Rattle.std.specs.Prelude.{◌≡◌, ◌<◌, ◌≤◌, ◌^◌, IfOk};
ghost use Rattle.vbm_log_tests.specs.Plans.{FitsAll, a_sevens, a_byte};

use crate::commits::start_and_commit;
use std::alloc::Global;
use std::test::Fail;
use vbm_intent::{Change, Plan};
use vbm_memdisk::{MemDisk, Pick};
use vbm_ports::{Bytes, Text};

/// With the 19 bytes before them they fill the body of a record.
const LEN: u32 = 33_554_413;

/// As many changes as a plan holds.
const COUNT: u32 = 65_536;

fn write_sevens(alloc: Global, len: u32) -> Result<Change, Fail>
    ensures { IfOk result (λ change. change ≡ a_sevens len) }
{
    let name = Text::new(alloc, b"a.vdi")?;
    let sevens = vec![in alloc; 7u8; len as usize]?;
    let bytes = Bytes::from_slice(alloc, &sevens)?;
    Ok(Change::Write { name, at: 0, bytes })
}

// One write.
fn plan_of_sevens(alloc: Global, len: u32) -> Result<Plan, Fail>
    requires some { 0 < len }
    requires small { len ≤ 33554413 }
    ensures { IfOk result (λ plan. FitsAll plan.changes) }
{
    let mut plan = Plan::new(alloc);
    plan.push(write_sevens(alloc, len)?)?;
    Ok(plan)
}

#[test]
fn commits_the_longest_body(rt: HostRuntime) -> Result<(), Fail> {
    let plan = plan_of_sevens(rt.alloc(), LEN)?;
    assert_eq!(rt; plan.size(), 1 << 25);
    let mut disk = MemDisk::new(rt.alloc());
    assert!(rt; start_and_commit(&mut disk, &plan).is_ok());
    let settled = disk.images_of_last_sync(Pick::Byte(9))?;
    let bytes = settled.file(b"a.vdi").unwrap_or(b"");
    assert_eq!(rt; bytes.len(), LEN as usize);
    assert!(rt; bytes.iter().all(|byte| *byte == 7));
    Ok(())
}

fn write_byte(alloc: Global, at: u32) -> Result<Change, Fail>
    ensures { IfOk result (λ change. change ≡ a_byte at) }
{
    let name = Text::new(alloc, b"a.vdi")?;
    let bytes = Bytes::from_slice(alloc, &[(at % 251) as u8])?;
    let at = at as u64;
    Ok(Change::Write { name, at, bytes })
}

// A write for each byte.
fn plan_of_bytes(alloc: Global, count: u32) -> Result<Plan, Fail>
    requires { count ≤ 2 ^ 16 }
    ensures { IfOk result (λ plan. FitsAll plan.changes) }
{
    let mut plan = Plan::new(alloc);
    for at in 0..count {
        plan.push(write_byte(alloc, at)?)?;
    }
    Ok(plan)
}

#[test]
fn commits_the_most_changes(rt: HostRuntime) -> Result<(), Fail> {
    let plan = plan_of_bytes(rt.alloc(), COUNT)?;
    assert_eq!(rt; plan.size(), COUNT * 20);
    let mut disk = MemDisk::new(rt.alloc());
    assert!(rt; start_and_commit(&mut disk, &plan).is_ok());
    let settled = disk.images_of_last_sync(Pick::Byte(9))?;
    let bytes = settled.file(b"a.vdi").unwrap_or(b"");
    assert_eq!(rt; bytes.len(), COUNT as usize);
    for (i, byte) in bytes.iter().enumerate() {
        assert_eq!(rt; *byte as usize, i % 251);
    }
    Ok(())
}
