//! The commands that copy a place's disk, and the one that counts its blocks.

ghost use Rattle.std.specs.Prelude.{◌≡◌, ◌∷◌, [], ℕ, List, length, codes, MatchOption};
ghost use Rattle.vbm_world.specs.Texts.{IsMedium};
ghost use Rattle.vbm_script.specs.Parses.{IsFormed};

use crate::parsing::ParseFault;
use crate::places::place;
use crate::tails::{one_word, three_words, two_words};
use crate::values::{copy, is_text};
use std::alloc::Global;
use vbm_ports::{Text, names_medium};
use vbm_world::Command;

/// The name of a place that is copied, and that of a new medium.
fn to_new(tail: &[Text]) -> Option<(&[u8], &[u8])>
    ensures { MatchOption result ((word name : List ℕ) → tail.now ≡ word ∷ name ∷ [] → IsMedium name → ⊥)
        (λ two. (tail.now ≡ two.0.now ∷ two.1.now ∷ []) × IsMedium two.1.now) }
{
    let (word, name) = two_words(tail)?;
    if !names_medium(name) {
        return None;
    }
    Some((word, name))
}

/// The name of a place that is copied, and that of the medium that is written.
fn to_existing(tail: &[Text]) -> Option<(&[u8], &[u8])>
    ensures { MatchOption result ((word name : List ℕ) → tail.now ≡ word ∷ name ∷ codes "--existing" ∷ [] → IsMedium name → ⊥)
        (λ two. (tail.now ≡ two.0.now ∷ two.1.now ∷ codes "--existing" ∷ []) × IsMedium two.1.now) }
{
    let (word, name, option) = three_words(tail)?;
    if !names_medium(name) || !is_text(option, b"--existing") {
        return None;
    }
    Some((word, name))
}

fn clone_new(alloc: Global, tail: &[Text]) -> Result<Command, ParseFault>
    requires { length tail.now ≡ 2 }
    ensures { IsFormed (codes "clonemedium" ∷ tail.now) result }
{
    let Some((word, name)) = to_new(tail) else {
        return Err(ParseFault::BadLine);
    };
    match place(alloc, word) {
        Ok(place) => Ok(Command::CloneNew {
            place,
            name: copy(alloc, name)?,
        }),
        Err(fault) => Err(fault),
    }
}

fn clone_existing(alloc: Global, tail: &[Text]) -> Result<Command, ParseFault>
    requires { length tail.now ≡ 3 }
    ensures { IsFormed (codes "clonemedium" ∷ tail.now) result }
{
    let Some((word, name)) = to_existing(tail) else {
        return Err(ParseFault::BadLine);
    };
    match place(alloc, word) {
        Ok(place) => Ok(Command::CloneExisting {
            place,
            target: copy(alloc, name)?,
        }),
        Err(fault) => Err(fault),
    }
}

pub(crate) fn clone_medium(alloc: Global, tail: &[Text]) -> Result<Command, ParseFault>
    ensures { IsFormed (codes "clonemedium" ∷ tail.now) result }
{
    match tail.len() {
        2 => clone_new(alloc, tail),
        3 => clone_existing(alloc, tail),
        _ => Err(ParseFault::BadLine),
    }
}

pub(crate) fn usage(alloc: Global, tail: &[Text]) -> Result<Command, ParseFault>
    ensures { IsFormed (codes "usage" ∷ tail.now) result }
{
    let Some(word) = one_word(tail) else {
        return Err(ParseFault::BadLine);
    };
    match place(alloc, word) {
        Ok(place) => Ok(Command::Usage { place }),
        Err(fault) => Err(fault),
    }
}
