//! The commands that make media, and those of single media.

ghost use Rattle.std.specs.Prelude.{◌∷◌, ℕ, Bool, List, codes, MatchOption};
ghost use Rattle.vbm_volume.specs.declared.flat.Variant.{Variant};
ghost use Rattle.vbm_world.specs.declared.command.Command.TheVariants.{CreateMedium, CloseMedium};
ghost use Rattle.vbm_world.specs.declared.command.Size.{Size};
ghost use Rattle.vbm_world.specs.Texts.{IsForm};
ghost use Rattle.vbm_script.specs.Parses.{IsFormed};

use crate::parsing::ParseFault;
use crate::tails::{first_three, first_word, one_medium, one_word};
use crate::values::{copy, delete, is_text, size, variant};
use std::alloc::Global;
use vbm_ports::{Text, names_medium};
use vbm_volume::Variant;
use vbm_world::{Command, Size};

/// The name, size and variant of a new medium.
fn new_medium(tail: &[Text]) -> Option<(&[u8], Size, Variant)>
    ensures { MatchOption result ((name : List ℕ) (size : Size) (variant : Variant)
        → IsForm (codes "createmedium" ∷ tail.now) (CreateMedium name size variant) → ⊥)
        (λ new. IsForm (codes "createmedium" ∷ tail.now) (CreateMedium new.0.now new.1 new.2)) }
{
    let (name, unit, number, rest) = first_three(tail)?;
    if !names_medium(name) {
        return None;
    }
    let size = size(unit, number)?;
    let variant = variant(rest)?;
    Some((name, size, variant))
}

pub(crate) fn create_medium(alloc: Global, tail: &[Text]) -> Result<Command, ParseFault>
    ensures { IsFormed (codes "createmedium" ∷ tail.now) result }
{
    let Some((name, size, variant)) = new_medium(tail) else {
        return Err(ParseFault::BadLine);
    };
    Ok(Command::CreateMedium {
        name: copy(alloc, name)?,
        size,
        variant,
    })
}

pub(crate) fn open_medium(alloc: Global, tail: &[Text]) -> Result<Command, ParseFault>
    ensures { IsFormed (codes "openmedium" ∷ tail.now) result }
{
    let Some(name) = one_medium(tail) else {
        return Err(ParseFault::BadLine);
    };
    Ok(Command::OpenMedium {
        name: copy(alloc, name)?,
    })
}

/// The name of a medium that is closed, and whether its file is deleted.
fn closing(tail: &[Text]) -> Option<(&[u8], bool)>
    ensures { MatchOption result ((name : List ℕ) (delete : Bool) → IsForm (codes "closemedium" ∷ tail.now) (CloseMedium name delete) → ⊥)
        (λ found. IsForm (codes "closemedium" ∷ tail.now) (CloseMedium found.0.now found.1)) }
{
    let (name, rest) = first_word(tail)?;
    if !names_medium(name) {
        return None;
    }
    let delete = delete(rest)?;
    Some((name, delete))
}

pub(crate) fn close_medium(alloc: Global, tail: &[Text]) -> Result<Command, ParseFault>
    ensures { IsFormed (codes "closemedium" ∷ tail.now) result }
{
    let Some((name, delete)) = closing(tail) else {
        return Err(ParseFault::BadLine);
    };
    Ok(Command::CloseMedium {
        name: copy(alloc, name)?,
        delete,
    })
}

pub(crate) fn show_medium_info(alloc: Global, tail: &[Text]) -> Result<Command, ParseFault>
    ensures { IsFormed (codes "showmediuminfo" ∷ tail.now) result }
{
    let Some(name) = one_medium(tail) else {
        return Err(ParseFault::BadLine);
    };
    Ok(Command::ShowMediumInfo {
        name: copy(alloc, name)?,
    })
}

pub(crate) fn list(tail: &[Text]) -> Result<Command, ParseFault>
    ensures { IsFormed (codes "list" ∷ tail.now) result }
{
    let Some(what) = one_word(tail) else {
        return Err(ParseFault::BadLine);
    };
    if is_text(what, b"hdds") {
        return Ok(Command::ListHdds);
    }
    if is_text(what, b"vms") {
        return Ok(Command::ListVms);
    }
    Err(ParseFault::BadLine)
}
