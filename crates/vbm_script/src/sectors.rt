//! The commands of guests that read and fill sectors.

ghost use Rattle.std.specs.Prelude.{◌∷◌, [], ℕ, List, codes, MatchOption};
ghost use Rattle.vbm_lines.specs.Lines.{Words};
ghost use Rattle.vbm_world.specs.declared.command.Command.TheVariants.{Fill, Read};
ghost use Rattle.vbm_world.specs.Texts.{IsForm};
ghost use Rattle.vbm_script.specs.Guests.{IsAtSector, IsFiller};
ghost use Rattle.vbm_script.specs.Parses.{IsFormed};

use crate::digits::byte;
use crate::parsing::ParseFault;
use crate::tails::{first_three, one_word, two_words};
use crate::values::{copy, count, port};
use std::alloc::Global;
use vbm_lines::decimal;
use vbm_ports::{Text, names_machine};
use vbm_world::Command;

/// The machine, the port and the first sector, and what stands behind them.
pub(crate) fn at_sector(tail: &[Text]) -> Option<(&[u8], u8, u64, &[Text])>
    ensures { MatchOption result ((vm : List ℕ) (port lba : ℕ) (rest : Words) → IsAtSector tail.now vm port lba rest → ⊥)
        (λ at. IsAtSector tail.now at.0.now at.1 at.2 at.3.now) }
{
    let (vm, number, lba, rest) = first_three(tail)?;
    if !names_machine(vm) {
        return None;
    }
    let port = port(number)?;
    let lba = decimal(lba)?;
    Some((vm, port, lba, rest))
}

/// The machine, the port, the first sector and the number of sectors that are read.
fn reading(tail: &[Text]) -> Option<(&[u8], u8, u64, u32)>
    ensures { MatchOption result ((vm : List ℕ) (port lba count : ℕ) → IsForm (codes "read" ∷ tail.now) (Read vm port lba count) → ⊥)
        (λ read. IsForm (codes "read" ∷ tail.now) (Read read.0.now read.1 read.2 read.3)) }
{
    let Some((vm, port, lba, rest)) = at_sector(tail) else {
        return None;
    };
    let Some(word) = one_word(rest) else {
        return None;
    };
    let Some(count) = count(word) else {
        return None;
    };
    Some((vm, port, lba, count))
}

pub(crate) fn read(alloc: Global, tail: &[Text]) -> Result<Command, ParseFault>
    ensures { IsFormed (codes "read" ∷ tail.now) result }
{
    let Some((vm, port, lba, count)) = reading(tail) else {
        return Err(ParseFault::BadLine);
    };
    Ok(Command::Read {
        vm: copy(alloc, vm)?,
        port,
        lba,
        count,
    })
}

/// The number of sectors that are filled, and the byte.
fn filler(words: &[Text]) -> Option<(u32, u8)>
    ensures { MatchOption result ((count byte : ℕ) → IsFiller words.now count byte → ⊥) (λ filler. IsFiller words.now filler.0 filler.1) }
{
    let Some((number, digits)) = two_words(words) else {
        return None;
    };
    let Some(count) = count(number) else {
        return None;
    };
    let Some(byte) = byte(digits) else {
        return None;
    };
    Some((count, byte))
}

/// The machine, the port, the first sector, the number of sectors that are filled, and the byte.
fn filling(tail: &[Text]) -> Option<(&[u8], u8, u64, u32, u8)>
    ensures { MatchOption result ((vm : List ℕ) (port lba count byte : ℕ)
        → IsForm (codes "fill" ∷ tail.now) (Fill vm port lba count byte) → ⊥)
        (λ fill. IsForm (codes "fill" ∷ tail.now) (Fill fill.0.now fill.1 fill.2 fill.3 fill.4)) }
{
    let Some((vm, port, lba, rest)) = at_sector(tail) else {
        return None;
    };
    let Some((count, byte)) = filler(rest) else {
        return None;
    };
    Some((vm, port, lba, count, byte))
}

pub(crate) fn fill(alloc: Global, tail: &[Text]) -> Result<Command, ParseFault>
    ensures { IsFormed (codes "fill" ∷ tail.now) result }
{
    let Some((vm, port, lba, count, byte)) = filling(tail) else {
        return Err(ParseFault::BadLine);
    };
    Ok(Command::Fill {
        vm: copy(alloc, vm)?,
        port,
        lba,
        count,
        byte,
    })
}
