// Writing a header.

ghost use Rattle.std.specs.Prelude.{◌≡◌, ◌+◌, ◌-◌, ◌≤◌, ◌<◌, ◌^◌, ◌++◌, ℕ, List, length, take, drop, codes, IsTrue, Ok};
ghost use Rattle.vbm_header.specs.Header.{header_of, has_header_size, has_size, has_layout, is_identified};
ghost use Rattle.byteorder.specs.Endian.{little_bytes};
ghost use Rattle.uuid.specs.Parts.{swap_fields};
ghost use Rattle.vbm_header.specs.Written.{header_bytes, zeros, geometry, start, sizes, identifiers, AreUuids, AreNumbers};

use crate::places::*;
use crate::values::{u32_bytes, u64_bytes, uuid_bytes};
use crate::{BLOCK_LEN, Header, SECTOR_LEN, WRITTEN_LEN};
use uuid::Uuid;

const TITLE: &[u8] = b"vbm disk image\n";

/// Writes the first [`WRITTEN_LEN`] bytes of an image with this header, which is of the form of 400 bytes.
///
/// What a reader skips is zero, but for a title at the start and the sector sizes of both geometries.
pub fn write_header(header: &Header, out: &mut [u8; WRITTEN_LEN])
    requires { header.now.cb_header ≡ 400 }
    ensures written { out.new ≡ header_bytes header.now }
    // A header that meets the conditions is read back, from a file of any length that they allow.
    ensures read_back { (len : ℕ) → 456 ≤ len → IsTrue (has_header_size header.now)
        → IsTrue (has_size header.now) → IsTrue (has_layout header.now len) → IsTrue (is_identified header.now)
        → header_of (take 456 out.new) len ≡ Ok header.now }
{
    put_start(header, out);
    put_sizes(header, out);
    put_identifiers(header, out);
}

fn put_start(header: &Header, out: &mut [u8])
    requires { 340 ≤ length out.old }
    ensures { take 340 out.new ≡ start header.now }
{
    put(out, 0, TITLE);
    put_zeros(out, TITLE.len(), SIGNATURE_AT);
    put_u32(out, SIGNATURE_AT, SIGNATURE);
    put_u32(out, VERSION_AT, VERSION);
    put_u32(out, CB_HEADER_AT, header.cb_header);
    put_u32(out, TYPE_AT, header.image_type.number());
    put_zeros(out, FLAGS_AT, OFF_BLOCKS_AT);
}

fn put_sizes(header: &Header, out: &mut [u8])
    requires { 392 ≤ length out.old }
    ensures written { take 392 out.new ≡ take 340 out.old ++ sizes header.now }
    // What makes them read back.
    ensures ranges { AreNumbers header.now }
{
    put_u32(out, OFF_BLOCKS_AT, header.off_blocks);
    put_u32(out, OFF_DATA_AT, header.off_data);
    put_geometry(out, GEOMETRY_AT);
    put_zeros(out, UNUSED_AT, CAPACITY_AT);
    put_u64(out, CAPACITY_AT, header.capacity);
    put_u32(out, BLOCK_LEN_AT, BLOCK_LEN as u32);
    put_u32(out, BLOCK_EXTRA_AT, 0);
    put_u32(out, BLOCKS_AT, header.blocks);
    put_u32(out, ALLOCATED_AT, header.allocated);
}

fn put_identifiers(header: &Header, out: &mut [u8])
    requires { WRITTEN_LEN ≤ length out.old }
    ensures written { take WRITTEN_LEN out.new ≡ take 392 out.old ++ identifiers header.now }
    // What makes them read back.
    ensures sizes { AreUuids header.now }
{
    put_uuid(out, ID_AT, header.id);
    put_uuid(out, MODIFY_AT, header.modify);
    put_uuid(out, LINK_AT, header.link);
    put_uuid(out, PARENT_MODIFY_AT, header.parent_modify);
    put_geometry(out, LCHS_GEOMETRY_AT);
}

// Each of these writes at a place, after what stands before it.

fn put(out: &mut [u8], at: usize, bytes: &[u8])
    requires { at + length bytes.now ≤ length out.old }
    ensures { take (at + length bytes.now) out.new ≡ take at out.old ++ bytes.now }
{
    out[at..at + bytes.len()].copy_from_slice(bytes);
}

fn put_zeros(out: &mut [u8], at: usize, end: usize)
    requires start { at ≤ end }
    requires end { end ≤ length out.old }
    ensures { take end out.new ≡ take at out.old ++ zeros (end - at) }
{
    out[at..end].fill(0);
}

fn put_u32(out: &mut [u8], at: usize, n: u32)
    requires { at + 4 ≤ length out.old }
    ensures written { take (at + 4) out.new ≡ take at out.old ++ little_bytes 4 n }
    ensures range { n < 2 ^ 32 }
{
    put(out, at, &u32_bytes(n));
}

fn put_u64(out: &mut [u8], at: usize, n: u64)
    requires { at + 8 ≤ length out.old }
    ensures written { take (at + 8) out.new ≡ take at out.old ++ little_bytes 8 n }
    ensures range { n < 2 ^ 64 }
{
    put(out, at, &u64_bytes(n));
}

fn put_uuid(out: &mut [u8], at: usize, id: Uuid)
    requires { at + 16 ≤ length out.old }
    ensures written { take (at + 16) out.new ≡ take at out.old ++ swap_fields id }
    ensures size { length id ≡ 16 }
{
    put(out, at, &uuid_bytes(id));
}

// A disk geometry of no cylinders, heads or sectors, and the sector size.
fn put_geometry(out: &mut [u8], at: usize)
    requires { at + 16 ≤ length out.old }
    ensures { take (at + 16) out.new ≡ take at out.old ++ geometry }
{
    put_zeros(out, at, at + 12);
    put_u32(out, at + 12, SECTOR_LEN as u32);
}
