//! Entries of block maps: those of a map that is as large as they come, and staged ones.

ghost use Rattle.std.specs.Prelude.{◌^◌, ◌≤◌};
ghost use Rattle.vbm_blockmap.specs.Used.{marked_count};

use crate::quiet::QuietDisk;
use std::alloc::Global;
use std::process::Abort;
use std::test::Fail;
use uuid::Uuid;
use vbm_blockmap::{Entry, POSITION_LIMIT, Pending, Used, entry_of, word_of};
use vbm_header::Header;
use vbm_ports::{LONGEST_FILE, names_medium};
use vbm_volume::{Variant, new_header};

/// The most that a disk holds, in bytes.
const LARGEST: u64 = 2 << 40;

/// Five positions from this one on have no block.
const GAP_AT: u32 = 100_000;

const GAP: u32 = 5;

/// The name of the map's file.
const NAME: &[u8] = b"disk0.vdi";

// The position of a block: half of the blocks have one, in their order.
fn position(block: u32, blocks: u32) -> Option<u32> {
    if block >= blocks / 2 {
        None
    } else if block < GAP_AT {
        Some(block)
    } else {
        block.checked_add(GAP)
    }
}

// A disk with a file of the map alone, at its place.
fn disk_of(rt: &(impl Abort + AllocGlobal), header: &Header) -> Result<QuietDisk, Fail> {
    let alloc = rt.alloc();
    let mut file = vec![in alloc; 0u8; header.off_blocks as usize]?;
    for block in 0..header.blocks {
        let word = position(block, header.blocks).unwrap_or(0xFFFF_FFFF);
        file.extend_from_slice(&word.to_le_bytes())?;
    }
    assert!(rt; file.len() as u64 <= LONGEST_FILE);
    let mut disk = QuietDisk::new(alloc);
    disk.disk.put_file(NAME, &file)?;
    Ok(disk)
}

// Looks up the positions, of which half are used, and asserts how often the disk is called.
fn load(rt: &impl Abort, disk: &mut QuietDisk, used: &mut Used, header: &Header)
    requires { header.now.blocks ≤ 2 ^ 21 }
    ensures { marked_count used.new ≤ 2 ^ 20 }
{
    assert!(rt; names_medium(NAME));
    let before = disk.disk.calls();
    let loaded = used.load(disk, NAME, header);
    assert!(rt; loaded.is_ok());
    assert!(rt; disk.disk.calls().wrapping_sub(before) == 32);
    assert!(rt; used.unmarked_count() == POSITION_LIMIT - header.blocks / 2);
}

#[test]
fn loads_the_largest_map_in_32_reads(rt: HostRuntime) -> Result<(), Fail> {
    let id = Uuid::from_bytes([1; 16]);
    let header = new_header(Variant::Standard, LARGEST, id, id);
    assert!(rt; header.blocks == 1 << 21);
    let mut disk = disk_of(&rt, &header)?;
    let mut used = Used::new(rt.alloc())?;
    assert!(rt; used.unmarked_count() == POSITION_LIMIT);
    load(&rt, &mut disk, &mut used, &header);
    for i in 0..GAP {
        assert!(rt; used.unmarked_count() > 0);
        assert!(rt; used.take() == GAP_AT + i);
    }
    assert!(rt; used.unmarked_count() > 1);
    assert!(rt; used.take() == (1 << 20) + GAP);
    assert!(rt; used.take() == (1 << 20) + GAP + 1);
    used.mark(header.blocks);
    load(&rt, &mut disk, &mut used, &header);
    assert!(rt; used.take() == GAP_AT);
    Ok(())
}

#[test]
fn stages_entries_in_their_order(rt: HostRuntime) -> Result<(), Fail> {
    let mut pending = Pending::new(rt.alloc());
    pending.reserve(3)?;
    pending.insert(7, 1);
    pending.insert(2, 9);
    pending.insert(5, 0);
    assert!(rt; pending.len() == 3);
    assert!(rt; pending.get(2) == Some(9) && pending.get(3).is_none());
    assert!(rt; pending.entry(0) == (7, 1) && pending.entry(2) == (5, 0));
    pending.clear();
    assert!(rt; pending.len() == 0 && pending.get(7).is_none());
    assert!(rt; entry_of(0xFFFF_FFFF) == Entry::Free);
    assert!(rt; word_of(entry_of(0xFFFF_FFFD)) == 0xFFFF_FFFD);
    Ok(())
}
