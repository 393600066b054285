//! One image, from its making to the settling of what was staged.

ghost use Rattle.std.specs.Prelude.{◌≡◌, ◌<◌, length, IfOk, OnOk};
ghost use Rattle.vbm_volume.specs.Made.{IsLaidOut};
ghost use Rattle.vbm_image.specs.Image.{IsInForm, left_in};

use crate::quiet::QuietDisk;
use std::alloc::Global;
use std::process::Abort;
use std::test::Fail;
use uuid::Uuid;
use vbm_blockmap::{Entry, POSITION_LIMIT, Used};
use vbm_header::Header;
use vbm_image::{
    Image, OpenFault, entry, inner_name, load_used, open_image, plan_create, plan_pending,
    read_in_block, stage_block, take_as_settled, write_in_block,
};
use vbm_intent::{Log, Plan};
use vbm_ports::{NoMemory, names_medium};
use vbm_volume::{Variant, new_header};

/// The name of the image's file.
const NAME: &[u8] = b"a.vdi";

/// The capacity of the image, in bytes: three blocks.
const CAPACITY: u64 = 3 << 20;

/// The block that is staged.
const BLOCK: u32 = 1;

// Makes the image of this header, which was not there.
fn make(
    rt: &(impl Abort + AllocGlobal),
    disk: &mut QuietDisk,
    log: &mut Log,
    header: &Header,
) -> Result<(), Fail>
    requires { IsLaidOut header.now }
{
    assert!(rt; names_medium(NAME));
    let missing = open_image(rt.alloc(), disk, NAME);
    assert!(rt; matches!(missing, Err(OpenFault::Missing)));
    let mut plan = Plan::new(rt.alloc());
    plan_create(&mut plan, NAME, header)?;
    let made = log.commit(disk, &plan);
    assert!(rt; made.is_ok());
    Ok(())
}

// Opens the image, whose header has to be this one.
fn open(
    rt: &(impl Abort + AllocGlobal),
    disk: &mut QuietDisk,
    header: &Header,
) -> Result<Image, Fail>
    ensures { IfOk result IsInForm }
{
    assert!(rt; names_medium(NAME));
    let Ok(image) = open_image(rt.alloc(), disk, NAME) else {
        return Err(Fail::from("no image"));
    };
    assert!(rt; image.header == *header);
    Ok(image)
}

// Asserts the block's entry.
fn expect_entry(rt: &impl Abort, disk: &mut QuietDisk, image: &Image, expected: Entry)
    requires { IsInForm image.now }
{
    assert!(rt; BLOCK < image.header.blocks);
    let found = entry(disk, image, BLOCK);
    assert!(rt; found == Ok(expected));
}

// Asserts that a sector at the first position has this byte everywhere.
fn expect_sector(rt: &impl Abort, disk: &mut QuietDisk, image: &Image, sector: u32, byte: u8)
    requires form { IsInForm image.now }
    requires sector { sector < 2048 }
{
    let mut bytes = [0; 512];
    let read = read_in_block(disk, image, 0, sector, &mut bytes);
    assert!(rt; read.is_ok());
    assert!(rt; bytes.iter().all(|found| *found == byte));
}

// Looks up which positions are used, none, and makes room for an entry.
fn make_room(
    rt: &(impl Abort + AllocGlobal),
    disk: &mut QuietDisk,
    image: &mut Image,
) -> Result<(), Fail>
    requires { IsInForm image.old }
    ensures form { IsInForm image.new }
    ensures room { OnOk result (0 < image.new.pending.spare) }
    ensures left { OnOk result (0 < left_in image.new.used) }
{
    let mut used = Used::new(rt.alloc())?;
    let loaded = load_used(disk, image, &mut used);
    assert!(rt; loaded.is_ok());
    assert!(rt; used.unmarked_count() == POSITION_LIMIT);
    image.used = Some(used);
    image.pending.reserve(1)?;
    Ok(())
}

// So many bytes, each a one.
fn ones(alloc: Global, len: usize) -> Result<Vec<u8>, Fail>
    ensures { IfOk result (λ bytes. length bytes.items ≡ len) }
{
    Ok(vec![in alloc; 1u8; len]?)
}

// Stages the block, of ones.
fn stage(
    rt: &(impl Abort + AllocGlobal),
    disk: &mut QuietDisk,
    image: &mut Image,
) -> Result<(), Fail>
    requires { IsInForm image.old }
    ensures { IsInForm image.new }
{
    make_room(rt, disk, image)?;
    assert!(rt; BLOCK < image.header.blocks);
    assert!(rt; image.pending.get(BLOCK).is_none());
    let bytes = ones(rt.alloc(), 1 << 20)?;
    let staged = stage_block(disk, image, BLOCK, &bytes);
    assert!(rt; staged.is_ok());
    Ok(())
}

// Settles the staged block.
fn settle(
    rt: &(impl Abort + AllocGlobal),
    disk: &mut QuietDisk,
    log: &mut Log,
    image: &mut Image,
) -> Result<(), Fail>
    requires { IsInForm image.old }
    ensures { IsInForm image.new }
{
    assert!(rt; image.pending.len() == 1);
    let mut plan = Plan::new(rt.alloc());
    plan_pending(&mut plan, image)?;
    let settled = log.commit(disk, &plan);
    assert!(rt; settled.is_ok());
    take_as_settled(image);
    Ok(())
}

#[test]
fn stages_a_block_and_settles_it(rt: HostRuntime) -> Result<(), Fail> {
    let id = Uuid::from_bytes([1; 16]);
    let header = new_header(Variant::Standard, CAPACITY, id, id);
    let mut disk = QuietDisk::new(rt.alloc());
    let mut log = Log::start(&mut disk).map_err(|_| NoMemory)?;
    make(&rt, &mut disk, &mut log, &header)?;
    let mut image = open(&rt, &mut disk, &header)?;
    expect_entry(&rt, &mut disk, &image, Entry::Free);
    stage(&rt, &mut disk, &mut image)?;
    expect_entry(&rt, &mut disk, &image, Entry::At(0));
    let written = write_in_block(&mut disk, &image, 0, 3, &[2; 512]);
    assert!(rt; written.is_ok());
    expect_sector(&rt, &mut disk, &image, 2, 1);
    expect_sector(&rt, &mut disk, &image, 3, 2);
    let unsettled = open(&rt, &mut disk, &header)?;
    expect_entry(&rt, &mut disk, &unsettled, Entry::Free);
    settle(&rt, &mut disk, &mut log, &mut image)?;
    assert!(rt; image.header.allocated == 1);
    let again = open(&rt, &mut disk, &image.header)?;
    expect_entry(&rt, &mut disk, &again, Entry::At(0));
    Ok(())
}

#[test]
fn names_inner_images(rt: HostRuntime) -> Result<(), Fail> {
    let id = Uuid::from_bytes([0, 1, 2, 3, 4, 5, 0x86, 2, 0x80, 0, 0, 0, 0, 0, 0, 0xab]);
    let name = inner_name(rt.alloc(), id)?;
    assert!(rt; name.bytes() == b"{00010203-0405-8602-8000-0000000000ab}.vdi".as_slice());
    Ok(())
}
