// The numbers and UUIDs of an image, and the bytes that hold them.

ghost use Rattle.std.specs.Prelude.{◌≡◌, ◌+◌, ◌≤◌, length};
ghost use Rattle.byteorder.specs.Endian.{little_bytes};
ghost use Rattle.uuid.specs.Parts.{swap_fields};
ghost use Rattle.vbm_header.specs.Field.{number_at, uuid_at};

use byteorder::{ByteOrder, LittleEndian};
use uuid::Uuid;

#[tactic(auto, unfolding(crate::specs::Field::number_at))]
pub(crate) fn read_u32(bytes: &[u8], at: usize) -> u32
    requires { at + 4 ≤ length bytes.now }
    ensures { result ≡ number_at bytes.now at 4 }
{
    LittleEndian::read_u32(&bytes[at..])
}

#[tactic(auto, unfolding(crate::specs::Field::number_at))]
pub(crate) fn read_u64(bytes: &[u8], at: usize) -> u64
    requires { at + 8 ≤ length bytes.now }
    ensures { result ≡ number_at bytes.now at 8 }
{
    LittleEndian::read_u64(&bytes[at..])
}

#[tactic(auto, unfolding(crate::specs::Field::uuid_at))]
pub(crate) fn read_uuid(bytes: &[u8], at: usize) -> Uuid
    requires { at + 16 ≤ length bytes.now }
    ensures { result ≡ uuid_at bytes.now at }
{
    let mut field = [0; 16];
    field.copy_from_slice(&bytes[at..at + 16]);
    Uuid::from_bytes_le(field)
}

pub(crate) fn u32_bytes(n: u32) -> [u8; 4]
    ensures bytes { result ≡ little_bytes 4 n }
    ensures read_back { number_at result 0 4 ≡ n }
{
    let mut bytes = [0; 4];
    LittleEndian::write_u32(&mut bytes, n);
    bytes
}

pub(crate) fn u64_bytes(n: u64) -> [u8; 8]
    ensures bytes { result ≡ little_bytes 8 n }
    ensures read_back { number_at result 0 8 ≡ n }
{
    let mut bytes = [0; 8];
    LittleEndian::write_u64(&mut bytes, n);
    bytes
}

pub(crate) fn uuid_bytes(id: Uuid) -> [u8; 16]
    ensures size { length id ≡ 16 }
    ensures bytes { result ≡ swap_fields id }
    ensures read_back { uuid_at result 0 ≡ id }
{
    // The type of this array is what shows the size.
    let _bytes = id.into_bytes();
    id.to_bytes_le()
}
