//! The places that words name.

ghost use Rattle.std.specs.Prelude.{◌≡◌, ◌≤◌, ◌∷◌, ℕ, List, length, MatchOption};
ghost use Rattle.std.specs.List.{prefix_len};
ghost use Rattle.vbm_world.specs.declared.command.PlaceName.TheVariants.{Slot, Snap};
ghost use Rattle.vbm_script.specs.Parses.{Reads};
ghost use Rattle.vbm_script.specs.Places.{IsPlace, IsSplit, is_unmarked};

use crate::parsing::ParseFault;
use crate::values::{copy, port};
use std::alloc::Global;
use vbm_ports::{names_machine, names_medium};
use vbm_world::PlaceName;

fn is_no_mark(c: u8) -> bool
    ensures { result ≡ is_unmarked c }
{
    c != b':' && c != b'/'
}

/// How many bytes stand before the first `:` or `/` of a word.
fn mark_at(word: &[u8]) -> usize
    ensures at { result ≡ prefix_len is_unmarked word.now }
    ensures within { result ≤ length word.now }
{
    word.iter().take_while(|c| is_no_mark(**c)).count()
}

/// What stands before the first `:` or `/` of a word, and the rest.
fn split(word: &[u8]) -> (&[u8], &[u8])
    ensures { IsSplit word.now result.0.now result.1.now }
{
    word.split_at(mark_at(word))
}

/// What stands behind a mark.
fn behind(text: &[u8], mark: u8) -> Option<&[u8]>
    ensures { MatchOption result ((rest : List ℕ) → text.now ≡ mark ∷ rest → ⊥) (λ rest. text.now ≡ mark ∷ rest.now) }
{
    match text {
        [first, rest @ ..] if *first == mark => Some(rest),
        _ => None,
    }
}

/// The machine and the port of `VM:PORT`.
pub(crate) fn slot(word: &[u8]) -> Option<(&[u8], u8)>
    ensures { MatchOption result ((vm : List ℕ) (port : ℕ) → IsPlace word.now (Slot vm port) → ⊥) (λ slot. IsPlace word.now (Slot slot.0.now slot.1)) }
{
    let (vm, rest) = split(word);
    let Some(number) = behind(rest, b':') else {
        return None;
    };
    if !names_machine(vm) {
        return None;
    }
    let Some(port) = port(number) else {
        return None;
    };
    Some((vm, port))
}

/// The machine, the snapshot and the port of `VM/SNAPSHOT:PORT`.
fn snap(word: &[u8]) -> Option<(&[u8], &[u8], u8)>
    ensures { MatchOption result ((vm snapshot : List ℕ) (port : ℕ) → IsPlace word.now (Snap vm snapshot port) → ⊥)
        (λ snap. IsPlace word.now (Snap snap.0.now snap.1.now snap.2)) }
{
    let (vm, rest) = split(word);
    let Some(rest) = behind(rest, b'/') else {
        return None;
    };
    if !names_machine(vm) {
        return None;
    }
    let Some((snapshot, port)) = slot(rest) else {
        return None;
    };
    Some((vm, snapshot, port))
}

/// The place that a word names.
pub(crate) fn place(alloc: Global, word: &[u8]) -> Result<PlaceName, ParseFault>
    ensures { Reads (IsPlace word.now) result }
{
    if names_medium(word) {
        return Ok(PlaceName::Medium(copy(alloc, word)?));
    }
    if let Some((vm, port)) = slot(word) {
        return Ok(PlaceName::Slot {
            vm: copy(alloc, vm)?,
            port,
        });
    }
    if let Some((vm, snapshot, port)) = snap(word) {
        return Ok(PlaceName::Snap {
            vm: copy(alloc, vm)?,
            snapshot: copy(alloc, snapshot)?,
            port,
        });
    }
    Err(ParseFault::BadLine)
}
