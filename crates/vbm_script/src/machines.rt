//! The commands of single machines, and of their slots.

ghost use Rattle.std.specs.Prelude.{◌∷◌, ℕ, List, codes, MatchOption};
ghost use Rattle.vbm_world.specs.declared.command.Command.TheVariants.{Attach, Detach};
ghost use Rattle.vbm_world.specs.Texts.{IsForm};
ghost use Rattle.vbm_script.specs.Parses.{IsFormed};

use crate::parsing::ParseFault;
use crate::tails::{one_machine, three_words};
use crate::values::{copy, is_text, port};
use std::alloc::Global;
use vbm_ports::{Text, names_machine, names_medium};
use vbm_world::Command;

pub(crate) fn create_vm(alloc: Global, tail: &[Text]) -> Result<Command, ParseFault>
    ensures { IsFormed (codes "createvm" ∷ tail.now) result }
{
    let Some(name) = one_machine(tail) else {
        return Err(ParseFault::BadLine);
    };
    Ok(Command::CreateVm {
        name: copy(alloc, name)?,
    })
}

pub(crate) fn unregister_vm(alloc: Global, tail: &[Text]) -> Result<Command, ParseFault>
    ensures { IsFormed (codes "unregistervm" ∷ tail.now) result }
{
    let Some(vm) = one_machine(tail) else {
        return Err(ParseFault::BadLine);
    };
    Ok(Command::UnregisterVm {
        vm: copy(alloc, vm)?,
    })
}

pub(crate) fn start_vm(alloc: Global, tail: &[Text]) -> Result<Command, ParseFault>
    ensures { IsFormed (codes "startvm" ∷ tail.now) result }
{
    let Some(vm) = one_machine(tail) else {
        return Err(ParseFault::BadLine);
    };
    Ok(Command::StartVm {
        vm: copy(alloc, vm)?,
    })
}

pub(crate) fn power_off(alloc: Global, tail: &[Text]) -> Result<Command, ParseFault>
    ensures { IsFormed (codes "poweroff" ∷ tail.now) result }
{
    let Some(vm) = one_machine(tail) else {
        return Err(ParseFault::BadLine);
    };
    Ok(Command::PowerOff {
        vm: copy(alloc, vm)?,
    })
}

pub(crate) fn flush(alloc: Global, tail: &[Text]) -> Result<Command, ParseFault>
    ensures { IsFormed (codes "flush" ∷ tail.now) result }
{
    let Some(vm) = one_machine(tail) else {
        return Err(ParseFault::BadLine);
    };
    Ok(Command::Flush {
        vm: copy(alloc, vm)?,
    })
}

/// The machine, the port and the medium of a slot that a machine gets.
fn attaching(tail: &[Text]) -> Option<(&[u8], u8, &[u8])>
    ensures { MatchOption result ((vm : List ℕ) (port : ℕ) (name : List ℕ) → IsForm (codes "storageattach" ∷ tail.now) (Attach vm port name) → ⊥)
        (λ found. IsForm (codes "storageattach" ∷ tail.now) (Attach found.0.now found.1 found.2.now)) }
{
    let (vm, number, name) = three_words(tail)?;
    if !names_machine(vm) || !names_medium(name) {
        return None;
    }
    let port = port(number)?;
    Some((vm, port, name))
}

/// The machine and the port of a slot that a machine loses.
fn detaching(tail: &[Text]) -> Option<(&[u8], u8)>
    ensures { MatchOption result ((vm : List ℕ) (port : ℕ) → IsForm (codes "storageattach" ∷ tail.now) (Detach vm port) → ⊥)
        (λ found. IsForm (codes "storageattach" ∷ tail.now) (Detach found.0.now found.1)) }
{
    let (vm, number, none) = three_words(tail)?;
    if !names_machine(vm) || !is_text(none, b"none") {
        return None;
    }
    let port = port(number)?;
    Some((vm, port))
}

pub(crate) fn storage_attach(alloc: Global, tail: &[Text]) -> Result<Command, ParseFault>
    ensures { IsFormed (codes "storageattach" ∷ tail.now) result }
{
    if let Some((vm, port)) = detaching(tail) {
        return Ok(Command::Detach {
            vm: copy(alloc, vm)?,
            port,
        });
    }
    if let Some((vm, port, name)) = attaching(tail) {
        return Ok(Command::Attach {
            vm: copy(alloc, vm)?,
            port,
            name: copy(alloc, name)?,
        });
    }
    Err(ParseFault::BadLine)
}
