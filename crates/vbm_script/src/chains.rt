//! The command that imports a chain of files.

ghost use Rattle.std.specs.Prelude.{◌≡◌, ◌↔◌, ◌∷◌, ℕ, List, codes, IsTrue, IfOk, MatchOption};
ghost use Rattle.std.specs.List.{AllByRecursion};
ghost use Rattle.vbm_world.specs.Texts.{IsForm, IsMedium};
ghost use Rattle.vbm_world.specs.declared.command.Command.TheVariants.{ImportChain};
ghost use Rattle.vbm_lines.specs.Lines.{Words};
ghost use Rattle.vbm_script.specs.Parses.{IsFormed};

use crate::parsing::ParseFault;
use crate::printing::push_words;
use crate::values::copy;
use std::alloc::Global;
use vbm_ports::{Names, NoMemory, Sequence, Text, names_medium};
use vbm_world::{CHAIN_LIMIT, Command};

fn are_media(words: &[Text]) -> bool
    ensures { IsTrue result ↔ AllByRecursion IsMedium words.now }
{
    words.iter().all(|word| names_medium(word.bytes()))
}

/// Copies of names.
fn copies(alloc: Global, list: &[Text]) -> Result<Names, NoMemory>
    ensures { IfOk result (λ names. names ≡ list.now) }
{
    let mut names = Sequence::new(alloc);
    push_words(alloc, &mut names, list)?;
    Ok(names)
}

/// The files of a chain and the name of the medium that is made of them.
fn importing(tail: &[Text]) -> Option<(&[Text], &[u8])>
    ensures { MatchOption result ((files : Words) (name : List ℕ) → IsForm (codes "importchain" ∷ tail.now) (ImportChain files name) → ⊥)
        (λ chain. IsForm (codes "importchain" ∷ tail.now) (ImportChain chain.0.now chain.1.now)) }
{
    if tail.len() < 3 || tail.len() > CHAIN_LIMIT + 1 || !are_media(tail) {
        return None;
    }
    match tail {
        [files @ .., name] => Some((files, name.bytes())),
        [] => None,
    }
}

pub(crate) fn import_chain(alloc: Global, tail: &[Text]) -> Result<Command, ParseFault>
    ensures { IsFormed (codes "importchain" ∷ tail.now) result }
{
    let Some((files, name)) = importing(tail) else {
        return Err(ParseFault::BadLine);
    };
    let Ok(files) = copies(alloc, files) else {
        return Err(ParseFault::NoMemory);
    };
    Ok(Command::ImportChain {
        files,
        name: copy(alloc, name)?,
    })
}
