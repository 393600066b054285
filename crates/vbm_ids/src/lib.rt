//! The identifiers of media and images: UUIDs of the custom form, version 8 (RFC 9562, 5.8), each made of a seed, a
//! kind and a number.
#![tactic(auto)]

ghost use Rattle.std.specs.Prelude.{◌≡◌, ◌≢◌, ◌%◌, ◌<◌, ℕ, List, drop, slice_index, MatchOption};
ghost use Rattle.std.specs.Int.{w64, from_be_bytes};
ghost use Rattle.uuid.specs.Uuid.{version_num};
ghost use Rattle.uuid.specs.Parts.{variant_of};
ghost use Rattle.uuid.specs.declared.Variant.TheVariants as Variant;
ghost use Rattle.vbm_ids.specs.Identifier.{identifier_of, count_of_id, number_in, is_not_below, is_foreign, has_id};

use uuid::Uuid;

/// The numbers of identifiers are below this, 2^62.
pub const NUMBER_LIMIT: u64 = 1 << 62;

// What bytes 8 to 15 hold of number 0: its two highest bits are the variant.
const VARIANT: u64 = 1 << 63;

/// What an identifier names.
#[derive(Clone, Copy, Debug, PartialEq, Eq)]
pub enum Kind {
    /// A medium.
    Medium = 0,
    /// A modification of a medium.
    Modify = 1,
    /// An inner image, which belongs to a slot or a snapshot.
    Inner = 2,
    /// A modification of an inner image.
    InnerModify = 3,
}

impl Kind {
    ghost use Rattle.vbm_ids.specs.Identifier.{kind_number};

    fn number(self) -> u8
        ensures { result ≡ kind_number self }
    {
        self as u8
    }
}

/// The identifier of a kind and a number, which is below [`NUMBER_LIMIT`].
///
/// For one seed, two kinds or two numbers never have the same identifier.
#[tactic(auto, unfolding(crate::specs::Identifier::identifier_of))]
pub fn id_of(seed: Uuid, kind: Kind, n: u64) -> Uuid
    requires { n < NUMBER_LIMIT }
    ensures bytes { result ≡ identifier_of seed kind n }
    ensures version { version_num result ≡ 8 }
    ensures variant { variant_of (slice_index result 8) ≡ Variant.RFC4122 }
{
    let mut bytes = seed.into_bytes();
    bytes[6] = 0x80 + bytes[6] % 16;
    bytes[7] = kind.number();
    bytes[8..].copy_from_slice(&(VARIANT + n).to_be_bytes());
    Uuid::from_bytes(bytes)
}

/// The number of an identifier, or `None` where it isn't one of this seed and this kind.
#[tactic(auto, unfolding(crate::specs::Identifier::number_in))]
pub fn number_of(seed: Uuid, kind: Kind, id: Uuid) -> Option<u64>
    ensures exact { MatchOption result
        ((n : ℕ) → n < NUMBER_LIMIT → id ≢ identifier_of seed kind n)
        (λ n. (n < NUMBER_LIMIT) × (id ≡ identifier_of seed kind n)) }
    ensures defined { result ≡ number_in seed kind id }
{
    let n = counted(id);
    if id == id_of(seed, kind, n) {
        Some(n)
    } else {
        None
    }
}

// The number that an identifier has, if it is one.
fn counted(id: Uuid) -> u64
    ensures value { result ≡ count_of_id id }
    ensures small { result < NUMBER_LIMIT }
{
    let b = id.into_bytes();
    u64::from_be_bytes([b[8], b[9], b[10], b[11], b[12], b[13], b[14], b[15]]) % NUMBER_LIMIT
}

// Whether a number that an identifier has is one that was not drawn.
fn is_not_below(next: u64, number: Option<u64>) -> bool
    ensures { result ≡ is_not_below next number }
{
    match number {
        Some(n) => next <= n,
        None => false,
    }
}

/// Whether an identifier is of this seed and was given to no medium, where the numbers below `next` were given.
pub fn is_foreign(seed: Uuid, next: u64, id: Uuid) -> bool
    ensures { result ≡ is_foreign seed next id }
{
    number_of(seed, Kind::Modify, id).is_some()
        || number_of(seed, Kind::Inner, id).is_some()
        || number_of(seed, Kind::InnerModify, id).is_some()
        || is_not_below(next, number_of(seed, Kind::Medium, id))
}

/// A type whose values have identifiers.
pub trait Identified {
    ghost id_of: { Self → List ℕ };

    /// The identifier.
    fn id(&self) -> Uuid
        ensures { result ≡ id_of self.now };
}

/// Whether some item has the identifier.
pub fn has_id<T: Identified>(items: &[T], id: Uuid) -> bool
    ensures { result ≡ has_id T.id_of id items.now }
{
    items.iter().any(|item| item.id() == id)
}
