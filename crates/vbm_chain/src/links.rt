//! Which images are a chain.

ghost use Rattle.std.specs.Prelude.{◌≡◌, ◌<◌, ◌^◌, None, Some, length, IfErr, OnOk, Err, Ok, Result};
ghost use Rattle.vbm_volume.specs.Chain.{broken_at};
ghost use Rattle.vbm_chain.specs.Links.{fault_at, link_tests, first_failing, IsTested};

use uuid::Uuid;
use vbm_header::Header;

/// Why a header is not the next of a chain. Of two values the first is its own, and the second that of the header before it.
#[derive(Clone, Copy, Debug, PartialEq, Eq)]
pub enum LinkFault {
    /// The first is no base: it is a differencing image.
    NotBase,
    /// Another than the first is no differencing image.
    NotDifferencing,
    /// Its link UUID is not the UUID of the one before.
    Link(Uuid, Uuid),
    /// Its parent modification UUID is not the modification UUID of the one before.
    Modify(Uuid, Uuid),
    /// Its capacity, in bytes, is smaller than that of the one before.
    Capacity(u64, u64),
}

/// Whether headers, base first, are those of a chain; else the number of the first that doesn't fit, from 0, and why: the first
/// of its tests that fails, in the order of the variants.
pub fn check_links(headers: &[Header]) -> Result<(), (u32, LinkFault)>
    requires some { 0 < length headers.now }
    requires few { length headers.now < 2 ^ 32 }
    ensures ok { OnOk result (broken_at headers.now ≡ None) }
    ensures first { IfErr result (λ fault. broken_at headers.now ≡ Some fault.0) }
    ensures cause { IfErr result (λ fault. fault_at headers.now fault.0 ≡ Some fault.1) }
{
    if headers[0].image_type.is_differencing() {
        return Err((0, LinkFault::NotBase));
    }
    for i in 1..headers.len() {
        if let Err(fault) = check_link(&headers[i - 1], &headers[i]) {
            return Err((i as u32, fault));
        }
    }
    Ok(())
}

// Whether a header is linked to the one below it, and its capacity no smaller.
fn check_link(below: &Header, header: &Header) -> Result<(), LinkFault>
    ensures { IsTested (first_failing (link_tests below.now header.now)) result }
{
    if !header.image_type.is_differencing() {
        return Err(LinkFault::NotDifferencing);
    }
    if header.link != below.id {
        return Err(LinkFault::Link(header.link, below.id));
    }
    if header.parent_modify != below.modify {
        return Err(LinkFault::Modify(header.parent_modify, below.modify));
    }
    if header.capacity < below.capacity {
        return Err(LinkFault::Capacity(header.capacity, below.capacity));
    }
    Ok(())
}
