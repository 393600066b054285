//! Block maps that are too large for a file of the tests.

ghost use Rattle.std.specs.Prelude.{◌≡◌, length};

use std::process::Abort;
use uuid::Uuid;
use vbm_blockmap::check_map;
use vbm_header::{BadImage, Header, ImageType};
use vbm_ports::{Disk, Failed, names_medium};
use vbm_volume::{MapFault, read_map};

/// The place of the block map, in bytes.
const MAP_AT: u64 = 512;

/// The length of a file that has room for every position, in bytes.
const FILE_LEN: u64 = 1 << 60;

/// The word of a free block.
const FREE: u32 = 0xFFFF_FFFF;

/// The word of a zero block.
const ZERO: u32 = 0xFFFF_FFFE;

/// The last position.
const LAST: u32 = 0xFFFF_FFFD;

/// The first position that is not marked but listed.
const HIGH: u32 = 1 << 22;

/// How many words are read at once.
const PIECE: u32 = 1 << 16;

/// A disk whose one file has a block map of these words, each with its block; the others are free. It gives at most so many
/// bytes of the map.
#[derive(Drop)]
struct MapDisk<'a> {
    words: &'a [(u32, u32)],
    most: u64,
}

impl Disk for MapDisk<'_> {
    ghost use Rattle.std.specs.Prelude.{◌-◌, ◌^◌, None};

    ghost tells = { ⊥ };

    // The counts stand at their last value.
    ghost state = { λ _. record {
      files = λ name. None;
      may_leave = λ image. ⊥;
      moment = 0;
      left_since = λ t image. ⊥;
      calls = 2 ^ 64 - 1;
      faults = 2 ^ 64 - 1;
    } };

    fn length(&mut self, _name: &[u8]) -> Result<Option<u64>, Failed> {
        Ok(Some(FILE_LEN))
    }

    fn read(&mut self, _name: &[u8], at: u64, out: &mut [u8]) -> Result<usize, Failed> {
        let start = at.saturating_sub(MAP_AT);
        let count = (out.len() as u64).min(self.most.saturating_sub(start)) as usize;
        let given = &mut out[..count];
        given.fill(0xFF);
        for (block, word) in self.words {
            put(given, (4 * *block as u64).checked_sub(start), *word);
        }
        Ok(count)
    }

    fn write(&mut self, _name: &[u8], _at: u64, _bytes: &[u8]) -> Result<(), Failed> {
        Err(Failed)
    }

    fn cut(&mut self, _name: &[u8], _len: u64) -> Result<(), Failed> {
        Err(Failed)
    }

    fn remove(&mut self, _name: &[u8]) -> Result<(), Failed> {
        Err(Failed)
    }

    fn sync(&mut self) -> Result<(), Failed> {
        Err(Failed)
    }

    ghost coherent = { λ disk. record {
      read_is_image = λ told. absurd told;
      counts_now = λ t image le now. absurd now;
      only_now = λ image left. absurd left;
      short = λ told. absurd told;
    } };
}

// Writes a word at a place, where it fits.
fn put(out: &mut [u8], at: Option<u64>, word: u32)
    ensures { length out.new ≡ length out.old }
{
    let len = out.len() as u64;
    if let Some(at) = at
        && at < len
        && len - at >= 4
    {
        out[at as usize..at as usize + 4].copy_from_slice(&word.to_le_bytes());
    }
}

fn header_of(blocks: u32) -> Header {
    Header {
        cb_header: 400,
        image_type: ImageType::Dynamic,
        off_blocks: MAP_AT as u32,
        off_data: 1 << 30,
        capacity: 512,
        blocks,
        allocated: 0xFFFF_FFFF,
        id: Uuid::nil(),
        modify: Uuid::nil(),
        link: Uuid::nil(),
        parent_modify: Uuid::nil(),
    }
}

/// Words of a block map, each with its block.
type Words = &'static [(u32, u32)];

/// Block maps of so many blocks, a block, and its word or why the map is refused.
static MAPS: [(Words, u32, u64, Result<u32, BadImage>); 13] = [
    (&[(0, HIGH), (1, HIGH + 1)], 2, 1, Ok(HIGH + 1)),
    (&[(0, HIGH), (1, HIGH - 1)], 2, 0, Ok(HIGH)),
    (&[(1, LAST)], 2, 1, Ok(LAST)),
    (&[(0, ZERO), (1, ZERO)], 4, 1, Ok(ZERO)),
    (&[(0, 5), (1, 6)], 2, 2, Ok(FREE)),
    (&[(0, 5), (1, 6)], 2, u64::MAX, Ok(FREE)),
    (
        &[(0, 5), (PIECE - 1, 6), (PIECE, HIGH)],
        PIECE + 2,
        PIECE as u64 - 1,
        Ok(6),
    ),
    (
        &[(0, 5), (PIECE, HIGH), (PIECE + 1, 6)],
        PIECE + 2,
        PIECE as u64,
        Ok(HIGH),
    ),
    (&[(0, HIGH), (1, HIGH)], 2, 0, TWICE),
    (&[(0, HIGH + 9), (1, HIGH), (3, HIGH + 9)], 4, 0, TWICE),
    (&[(0, 5), (3, 5)], 4, 0, TWICE),
    (&[(0, 5), (PIECE, 5)], PIECE + 1, 0, TWICE),
    (&[(0, HIGH), (PIECE, HIGH)], PIECE + 1, 0, TWICE),
];

const TWICE: Result<u32, BadImage> = Err(BadImage::PositionTwice);

/// Block maps of so many blocks, how many bytes of them are read, and a block past those bytes.
static CUT_MAPS: [(Words, u32, u64, u64); 3] = [
    (&[(0, 5), (1, 5)], 2, 4, 1),
    (
        &[(0, 5), (PIECE, 5)],
        PIECE + 1,
        4 * PIECE as u64,
        PIECE as u64,
    ),
    (&[(0, 5), (1, 5)], 2, 0, 0),
];

// Reads a block map and tests it, and asserts the word of a block or why the map is refused.
fn expect_map(
    rt: &(impl Abort + AllocGlobal),
    disk: &mut MapDisk<'_>,
    blocks: u32,
    block: u64,
    answer: Result<u32, MapFault>,
) {
    let name = b"p.vdi".as_slice();
    assert!(rt; names_medium(name));
    let header = header_of(blocks);
    let word = read_map(rt.alloc(), disk, name, &header, FILE_LEN, block);
    assert_eq!(rt; word, answer, "block {block} of {blocks}");
    let checked = check_map(rt.alloc(), disk, name, &header, FILE_LEN);
    assert_eq!(rt; checked, answer.map(|_| ()), "{blocks} blocks");
}

#[test]
fn reads_block_maps(rt: HostRuntime) {
    for (words, blocks, block, answer) in &MAPS {
        let mut disk = MapDisk {
            words,
            most: u64::MAX,
        };
        expect_map(
            &rt,
            &mut disk,
            *blocks,
            *block,
            answer.map_err(MapFault::Bad),
        );
    }
    for (words, blocks, most, block) in &CUT_MAPS {
        let mut disk = MapDisk { words, most: *most };
        expect_map(&rt, &mut disk, *blocks, *block, Ok(FREE));
    }
}
