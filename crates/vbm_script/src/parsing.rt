//! The commands that words are.

ghost use Rattle.std.specs.Prelude.{◌∷◌};
ghost use Rattle.vbm_script.specs.Parses.{IsFormed, IsParsed};

use crate::chains::import_chain;
use crate::cloning::{clone_medium, usage};
use crate::machines::{create_vm, flush, power_off, start_vm, storage_attach, unregister_vm};
use crate::media::{close_medium, create_medium, list, open_medium, show_medium_info};
use crate::modifying::modify_medium;
use crate::sectors::{fill, read};
use crate::snapshots::snapshot;
use crate::writing::write;
use std::alloc::Global;
use vbm_lines::Words;
use vbm_ports::Text;
use vbm_served::are_served;
use vbm_world::Command;

/// Why words are no command.
#[derive(Clone, Copy, Debug, PartialEq, Eq)]
pub enum ParseFault {
    /// They have no command's form.
    BadLine,
    /// There was no memory.
    NoMemory,
}

fn parse_verb(alloc: Global, verb: &str, tail: &[Text]) -> Result<Command, ParseFault>
    ensures { IsFormed (verb.now ∷ tail.now) result }
{
    match verb {
        "createmedium" => create_medium(alloc, tail),
        "openmedium" => open_medium(alloc, tail),
        "closemedium" => close_medium(alloc, tail),
        "modifymedium" => modify_medium(alloc, tail),
        "clonemedium" => clone_medium(alloc, tail),
        "importchain" => import_chain(alloc, tail),
        "usage" => usage(alloc, tail),
        "showmediuminfo" => show_medium_info(alloc, tail),
        "list" => list(tail),
        "createvm" => create_vm(alloc, tail),
        "unregistervm" => unregister_vm(alloc, tail),
        "storageattach" => storage_attach(alloc, tail),
        "startvm" => start_vm(alloc, tail),
        "poweroff" => power_off(alloc, tail),
        "snapshot" => snapshot(alloc, tail),
        "read" => read(alloc, tail),
        "write" => write(alloc, tail),
        "fill" => fill(alloc, tail),
        "flush" => flush(alloc, tail),
        _ => Err(ParseFault::BadLine),
    }
}

/// The command whose form words are, be it served or not. Only for a form can memory be wanting.
pub fn parse_form(alloc: Global, words: &[Text]) -> Result<Command, ParseFault>
    ensures { IsFormed words.now result }
{
    match words {
        [verb, tail @ ..] => match str::from_utf8(verb.bytes()) {
            Ok(verb) => parse_verb(alloc, verb, tail),
            Err(_) => Err(ParseFault::BadLine),
        },
        [] => Err(ParseFault::BadLine),
    }
}

/// The command that words are.
pub fn parse(alloc: Global, words: &Words) -> Result<Command, ParseFault>
    ensures { IsParsed words.now result }
{
    parse_words(alloc, words.as_slice())
}

/// The command that words are. Only for the words of a command can memory be wanting.
pub fn parse_words(alloc: Global, words: &[Text]) -> Result<Command, ParseFault>
    ensures { IsParsed words.now result }
{
    if !are_served(words) {
        return Err(ParseFault::BadLine);
    }
    parse_form(alloc, words)
}
