//! The command of guests that writes sectors.

ghost use Rattle.std.specs.Prelude.{◌∷◌, [], ℕ, List, codes, MatchOption};
ghost use Rattle.vbm_script.specs.Guests.{IsAtSector, SpellsSectors};
ghost use Rattle.vbm_script.specs.Parses.{IsFormed, Reads};

use crate::digits::spells_sectors;
use crate::parsing::ParseFault;
use crate::sectors::at_sector;
use crate::tails::one_word;
use crate::values::copy;
use std::alloc::Global;
use vbm_lines::hex_bytes;
use vbm_ports::{Bytes, Text};
use vbm_world::Command;

/// The bytes of the sectors that a word spells.
fn sector_bytes(alloc: Global, word: &[u8]) -> Result<Bytes, ParseFault>
    ensures { Reads (SpellsSectors word.now) result }
{
    if !spells_sectors(word) {
        return Err(ParseFault::BadLine);
    }
    match hex_bytes(alloc, word) {
        Ok(Some(bytes)) => Ok(bytes),
        Ok(None) => Err(ParseFault::BadLine),
        Err(_) => Err(ParseFault::NoMemory),
    }
}

/// The machine, the port, the first sector, and the word that spells the bytes.
fn writing(tail: &[Text]) -> Option<(&[u8], u8, u64, &[u8])>
    ensures { MatchOption result ((vm : List ℕ) (port lba : ℕ) (word : List ℕ) → IsAtSector tail.now vm port lba (word ∷ []) → ⊥)
        (λ at. IsAtSector tail.now at.0.now at.1 at.2 (at.3.now ∷ [])) }
{
    let Some((vm, port, lba, rest)) = at_sector(tail) else {
        return None;
    };
    let Some(word) = one_word(rest) else {
        return None;
    };
    Some((vm, port, lba, word))
}

pub(crate) fn write(alloc: Global, tail: &[Text]) -> Result<Command, ParseFault>
    ensures { IsFormed (codes "write" ∷ tail.now) result }
{
    let Some((vm, port, lba, word)) = writing(tail) else {
        return Err(ParseFault::BadLine);
    };
    match sector_bytes(alloc, word) {
        Ok(bytes) => Ok(Command::Write {
            vm: copy(alloc, vm)?,
            port,
            lba,
            bytes,
        }),
        Err(fault) => Err(fault),
    }
}
