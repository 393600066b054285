//! Files of the shelf.

ghost use Rattle.std.specs.Prelude.{IfOk};
ghost use Rattle.vbm_world.specs.Sound.{IsSoundFile, IsSized};

use crate::ended::Ended;
use crate::reading::{first_word, read_byte, read_id, read_number};
use std::alloc::Global;
use uuid::Uuid;
use vbm_ports::Sequence;
use vbm_volume::{Flat, Variant, Volume};
use vbm_world::{LinkFile, LinkSectors, Shelved, is_bad_size};

/// `bad NAME CONDITION`: no image.
pub(crate) fn read_bad(rest: &str) -> Result<Shelved, Ended>
    ensures { IfOk result (λ file. IsSoundFile file) }
{
    match u32::try_from(read_number(rest)?) {
        Ok(condition) => Ok(Shelved::Bad(condition)),
        Err(_) => Err(Ended::Here("no condition")),
    }
}

/// `volume NAME ID MODIFY VARIANT SECTORS`: a disk.
pub(crate) fn read_volume(alloc: Global, rest: &str) -> Result<Shelved, Ended>
    ensures { IfOk result (λ file. IsSoundFile file) }
{
    let (id, rest) = first_word(rest);
    let (modify, rest) = first_word(rest);
    let (variant, rest) = first_word(rest);
    let flat = read_flat(alloc, rest)?;
    let capacity = capacity_of(flat.len())?;
    Ok(Shelved::Volume(Volume {
        id: Uuid::from_u128(read_id(id)?),
        modify: Uuid::from_u128(read_id(modify)?),
        variant: read_variant(variant)?,
        capacity,
        flat,
    }))
}

/// `link NAME ID MODIFY LINK PARENT-MODIFY SECTORS`: a differencing image.
pub(crate) fn read_link(alloc: Global, rest: &str) -> Result<Shelved, Ended>
    ensures { IfOk result (λ file. IsSoundFile file) }
{
    let (id, rest) = first_word(rest);
    let (modify, rest) = first_word(rest);
    let (link, rest) = first_word(rest);
    let (parent_modify, rest) = first_word(rest);
    let sectors = read_sectors(alloc, rest)?;
    let capacity = capacity_of(sectors.len() as u64)?;
    Ok(Shelved::Link(LinkFile {
        id: Uuid::from_u128(read_id(id)?),
        modify: Uuid::from_u128(read_id(modify)?),
        link: Uuid::from_u128(read_id(link)?),
        parent_modify: Uuid::from_u128(read_id(parent_modify)?),
        capacity,
        sectors,
    }))
}

// The capacity of so many sectors.
fn capacity_of(count: u64) -> Result<u64, Ended>
    ensures { IfOk result (λ capacity. IsSized count capacity) }
{
    let capacity = 512 * u128::from(count);
    if is_bad_size(capacity) {
        return Err(Ended::Here("no capacity"));
    }
    Ok(capacity as u64)
}

fn read_variant(word: &str) -> Result<Variant, Ended> {
    match word {
        "Standard" => Ok(Variant::Standard),
        "Fixed" => Ok(Variant::Fixed),
        _ => Err(Ended::Here("no variant")),
    }
}

// The sectors of a disk.
fn read_flat(alloc: Global, rest: &str) -> Result<Flat, Ended> {
    let sectors = read_sectors(alloc, rest)?;
    let mut flat = Flat::zeros(alloc, sectors.len() as u64)?;
    let mut i = 0u64;
    for sector in sectors.as_slice() {
        if let Some(sector) = sector
            && i < flat.len()
        {
            flat.set(i, sector);
        }
        i = i.saturating_add(1);
    }
    Ok(flat)
}

// Sectors of one byte each: `aa`, `aa*5` for five of them, and `-` for one that is not there.
fn read_sectors(alloc: Global, rest: &str) -> Result<LinkSectors, Ended> {
    let mut sectors = Sequence::new(alloc);
    for word in rest.split_whitespace() {
        let (byte, count) = word.split_once('*').unwrap_or((word, "1"));
        let sector = match byte {
            "-" => None,
            _ => Some([read_byte(byte)?; 512]),
        };
        for _ in 0..read_number(count)? {
            sectors.push(sector)?;
        }
    }
    Ok(sectors)
}
