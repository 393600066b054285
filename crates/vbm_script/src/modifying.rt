//! The commands `modifymedium`.

ghost use Rattle.std.specs.Prelude.{◌≡◌, ◌∷◌, [], ℕ, Bool, List, length, codes, MatchOption};
ghost use Rattle.vbm_modes.specs.declared.Mode.{Mode};
ghost use Rattle.vbm_world.specs.declared.command.Command.TheVariants.{Resize, SetAutoreset, SetMode};
ghost use Rattle.vbm_world.specs.Texts.{IsForm};
ghost use Rattle.vbm_script.specs.Parses.{IsFormed};

use crate::parsing::ParseFault;
use crate::places::{place, slot};
use crate::tails::{three_words, two_words};
use crate::values::{copy, is_text, mode, switch};
use std::alloc::Global;
use vbm_lines::decimal;
use vbm_modes::Mode;
use vbm_ports::{Text, names_medium};
use vbm_world::Command;

/// What stands around an option: `SUBJECT OPTION VALUE`.
fn around<'a>(tail: &'a [Text], option: &[u8]) -> Option<(&'a [u8], &'a [u8])>
    ensures { MatchOption result ((subject value : List ℕ) → tail.now ≡ subject ∷ option.now ∷ value ∷ [] → ⊥)
        (λ two. tail.now ≡ two.0.now ∷ option.now ∷ two.1.now ∷ []) }
{
    let (subject, word, value) = three_words(tail)?;
    if !is_text(word, option) {
        return None;
    }
    Some((subject, value))
}

/// A medium and its new mode.
fn setting_mode(tail: &[Text]) -> Option<(&[u8], Mode)>
    ensures { MatchOption result ((name : List ℕ) (mode : Mode) → IsForm (codes "modifymedium" ∷ tail.now) (SetMode name mode) → ⊥)
        (λ set. IsForm (codes "modifymedium" ∷ tail.now) (SetMode set.0.now set.1)) }
{
    let (name, value) = around(tail, b"--type")?;
    if !names_medium(name) {
        return None;
    }
    let mode = mode(value)?;
    Some((name, mode))
}

/// A slot and whether starts reset it.
fn setting_autoreset(tail: &[Text]) -> Option<(&[u8], u8, bool)>
    ensures { MatchOption result ((vm : List ℕ) (port : ℕ) (on : Bool)
        → IsForm (codes "modifymedium" ∷ tail.now) (SetAutoreset vm port on) → ⊥)
        (λ set. IsForm (codes "modifymedium" ∷ tail.now) (SetAutoreset set.0.now set.1 set.2)) }
{
    let Some((word, value)) = around(tail, b"--autoreset") else {
        return None;
    };
    let Some((vm, port)) = slot(word) else {
        return None;
    };
    let on = switch(value)?;
    Some((vm, port, on))
}

/// A medium and its new capacity.
fn resizing(tail: &[Text]) -> Option<(&[u8], u64)>
    ensures { MatchOption result ((name : List ℕ) (mb : ℕ) → IsForm (codes "modifymedium" ∷ tail.now) (Resize name mb) → ⊥)
        (λ set. IsForm (codes "modifymedium" ∷ tail.now) (Resize set.0.now set.1)) }
{
    let Some((name, value)) = around(tail, b"--resize") else {
        return None;
    };
    if !names_medium(name) {
        return None;
    }
    let mb = decimal(value)?;
    Some((name, mb))
}

/// The name of a place that is compacted.
fn compacting(tail: &[Text]) -> Option<&[u8]>
    ensures { MatchOption result ((word : List ℕ) → tail.now ≡ word ∷ codes "--compact" ∷ [] → ⊥)
        (λ word. tail.now ≡ word.now ∷ codes "--compact" ∷ []) }
{
    let (word, option) = two_words(tail)?;
    if !is_text(option, b"--compact") {
        return None;
    }
    Some(word)
}

fn compact(alloc: Global, tail: &[Text]) -> Result<Command, ParseFault>
    requires { length tail.now ≡ 2 }
    ensures { IsFormed (codes "modifymedium" ∷ tail.now) result }
{
    let Some(word) = compacting(tail) else {
        return Err(ParseFault::BadLine);
    };
    match place(alloc, word) {
        Ok(place) => Ok(Command::Compact { place }),
        Err(fault) => Err(fault),
    }
}

pub(crate) fn modify_medium(alloc: Global, tail: &[Text]) -> Result<Command, ParseFault>
    ensures { IsFormed (codes "modifymedium" ∷ tail.now) result }
{
    if tail.len() == 2 {
        return compact(alloc, tail);
    }
    if let Some((name, mode)) = setting_mode(tail) {
        return Ok(Command::SetMode {
            name: copy(alloc, name)?,
            mode,
        });
    }
    if let Some((vm, port, on)) = setting_autoreset(tail) {
        return Ok(Command::SetAutoreset {
            vm: copy(alloc, vm)?,
            port,
            on,
        });
    }
    if let Some((name, mb)) = resizing(tail) {
        return Ok(Command::Resize {
            name: copy(alloc, name)?,
            mb,
        });
    }
    Err(ParseFault::BadLine)
}
