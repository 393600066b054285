//! The commands of snapshots.

ghost use Rattle.std.specs.Prelude.{◌≡◌, ◌∷◌, [], ℕ, List, codes, MatchOption, MatchResult};
ghost use Rattle.vbm_world.specs.Texts.{IsShort};
ghost use Rattle.vbm_script.specs.Parses.{IsFormed};

use crate::parsing::ParseFault;
use crate::tails::{three_words, two_words};
use crate::values::{copy, is_text};
use std::alloc::Global;
use vbm_ports::{Text, names_machine};
use vbm_world::Command;

/// The machine of the words `VM VERB`.
fn of_machine<'a>(tail: &'a [Text], verb: &[u8]) -> Option<&'a [u8]>
    ensures { MatchOption result ((vm : List ℕ) → tail.now ≡ vm ∷ verb.now ∷ [] → IsShort vm → ⊥)
        (λ vm. (tail.now ≡ vm.now ∷ verb.now ∷ []) × IsShort vm.now) }
{
    let (vm, word) = two_words(tail)?;
    if !names_machine(vm) || !is_text(word, verb) {
        return None;
    }
    Some(vm)
}

/// The machine and the snapshot of the words `VM VERB SNAPSHOT`.
fn of_snapshot<'a>(tail: &'a [Text], verb: &[u8]) -> Option<(&'a [u8], &'a [u8])>
    ensures { MatchOption result ((vm name : List ℕ) → tail.now ≡ vm ∷ verb.now ∷ name ∷ [] → IsShort vm → IsShort name → ⊥)
        (λ two. (tail.now ≡ two.0.now ∷ verb.now ∷ two.1.now ∷ []) × IsShort two.0.now × IsShort two.1.now) }
{
    let (vm, word, name) = three_words(tail)?;
    if !names_machine(vm) || !is_text(word, verb) || !names_machine(name) {
        return None;
    }
    Some((vm, name))
}

/// Copies of two words.
fn copy_two(alloc: Global, a: &[u8], b: &[u8]) -> Result<(Text, Text), ParseFault>
    ensures { MatchResult result (λ two. (two.0 ≡ a.now) × (two.1 ≡ b.now)) (λ fault. fault ≡ ParseFault.NoMemory) }
{
    let first = copy(alloc, a)?;
    let second = copy(alloc, b)?;
    Ok((first, second))
}

pub(crate) fn snapshot(alloc: Global, tail: &[Text]) -> Result<Command, ParseFault>
    ensures { IsFormed (codes "snapshot" ∷ tail.now) result }
{
    if let Some((vm, name)) = of_snapshot(tail, b"take") {
        let (vm, name) = copy_two(alloc, vm, name)?;
        return Ok(Command::Take { vm, name });
    }
    if let Some((vm, name)) = of_snapshot(tail, b"restore") {
        let (vm, snapshot) = copy_two(alloc, vm, name)?;
        return Ok(Command::Restore { vm, snapshot });
    }
    if let Some((vm, name)) = of_snapshot(tail, b"delete") {
        let (vm, snapshot) = copy_two(alloc, vm, name)?;
        return Ok(Command::DeleteSnapshot { vm, snapshot });
    }
    if let Some(vm) = of_machine(tail, b"restorecurrent") {
        return Ok(Command::RestoreCurrent {
            vm: copy(alloc, vm)?,
        });
    }
    if let Some(vm) = of_machine(tail, b"list") {
        return Ok(Command::ListSnapshots {
            vm: copy(alloc, vm)?,
        });
    }
    Err(ParseFault::BadLine)
}
