//! The words of commands.

ghost use Rattle.std.specs.Prelude.{◌≡◌, [], ◌∷◌, ◌++◌, map, codes, decimal, IfOk, OnOk};
ghost use Rattle.hex.specs.Hex.{encode_lower};
ghost use Rattle.vbm_world.specs.declared.command.PlaceName.TheVariants.{Slot};
ghost use Rattle.vbm_world.specs.Texts.{IsForm, IsSpelled, delete_words, mode_text, place_text, size_number, size_words, switch_text, variant_words};

use crate::texts::{hex_word, mode_word, number_word, place_word, slot_word, switch_word};
use std::alloc::Global;
use vbm_lines::Words;
use vbm_modes::Mode;
use vbm_ports::{NoMemory, Sequence, Text};
use vbm_volume::Variant;
use vbm_world::{Command, PlaceName, Size};

/// Appends a copy of a word.
fn push_word(alloc: Global, words: &mut Words, word: &[u8]) -> Result<(), NoMemory>
    ensures { OnOk result (words.new ≡ words.old ++ word.now ∷ []) }
{
    words.push(Text::new(alloc, word)?)
}

/// Copies of words.
fn copies(alloc: Global, list: &[&[u8]]) -> Result<Words, NoMemory>
    ensures { IfOk result (λ words. words ≡ map (λ word. word.now) list.now) }
{
    let mut words = Sequence::new(alloc);
    for word in list {
        push_word(alloc, &mut words, word)?;
    }
    Ok(words)
}

/// Appends copies of words.
pub(crate) fn push_words(alloc: Global, words: &mut Words, more: &[Text]) -> Result<(), NoMemory>
    ensures { OnOk result (words.new ≡ words.old ++ more.now) }
{
    for word in more {
        push_word(alloc, words, word.bytes())?;
    }
    Ok(())
}

fn number_of(size: Size) -> u64
    ensures { result ≡ size_number size }
{
    match size {
        Size::Mb(n) | Size::Bytes(n) => n,
    }
}

/// The option that a size's number stands behind.
fn size_option(size: Size) -> &'static [u8]
    ensures { result.now ∷ decimal (size_number size) ∷ [] ≡ size_words size }
{
    match size {
        Size::Mb(_) => b"--size",
        Size::Bytes(_) => b"--sizebyte",
    }
}

/// The words that make a medium, with the option of its size and the size's number.
fn create_medium(
    alloc: Global,
    name: &[u8],
    option: &[u8],
    number: u64,
    variant: Variant,
) -> Result<Words, NoMemory>
    ensures { IfOk result (λ words. words
        ≡ codes "createmedium" ∷ name.now ∷ option.now ∷ decimal number ∷ variant_words variant) }
{
    let number = number_word(alloc, number)?;
    match variant {
        Variant::Standard => copies(alloc, &[b"createmedium", name, option, number.bytes()]),
        Variant::Fixed => copies(
            alloc,
            &[
                b"createmedium",
                name,
                option,
                number.bytes(),
                b"--variant",
                b"Fixed",
            ],
        ),
    }
}

fn close_medium(alloc: Global, name: &Text, delete: bool) -> Result<Words, NoMemory>
    ensures { IfOk result (λ words. words ≡ codes "closemedium" ∷ name.now ∷ delete_words delete) }
{
    if delete {
        copies(alloc, &[b"closemedium", name.bytes(), b"--delete"])
    } else {
        copies(alloc, &[b"closemedium", name.bytes()])
    }
}

/// The words that change something of a medium or a slot.
fn modify(alloc: Global, subject: &[u8], option: &[u8], value: &[u8]) -> Result<Words, NoMemory>
    ensures { IfOk result (λ words. words ≡ codes "modifymedium" ∷ subject.now ∷ option.now ∷ value.now ∷ []) }
{
    copies(alloc, &[b"modifymedium", subject, option, value])
}

fn set_autoreset(alloc: Global, vm: &Text, port: u8, on: bool) -> Result<Words, NoMemory>
    ensures { IfOk result (λ words. words
        ≡ codes "modifymedium" ∷ (vm.now ++ codes ":" ++ decimal port) ∷ codes "--autoreset" ∷ switch_text on ∷ []) }
{
    let slot = slot_word(alloc, vm, port)?;
    modify(alloc, slot.bytes(), b"--autoreset", switch_word(on))
}

fn compact(alloc: Global, place: &PlaceName) -> Result<Words, NoMemory>
    ensures { IfOk result (λ words. words ≡ codes "modifymedium" ∷ place_text place.now ∷ codes "--compact" ∷ []) }
{
    let place = place_word(alloc, place)?;
    copies(alloc, &[b"modifymedium", place.bytes(), b"--compact"])
}

fn resize(alloc: Global, name: &Text, mb: u64) -> Result<Words, NoMemory>
    ensures { IfOk result (λ words. words ≡ codes "modifymedium" ∷ name.now ∷ codes "--resize" ∷ decimal mb ∷ []) }
{
    let number = number_word(alloc, mb)?;
    modify(alloc, name.bytes(), b"--resize", number.bytes())
}

fn clone_new(alloc: Global, place: &PlaceName, name: &Text) -> Result<Words, NoMemory>
    ensures { IfOk result (λ words. words ≡ codes "clonemedium" ∷ place_text place.now ∷ name.now ∷ []) }
{
    let place = place_word(alloc, place)?;
    copies(alloc, &[b"clonemedium", place.bytes(), name.bytes()])
}

fn clone_existing(alloc: Global, place: &PlaceName, target: &Text) -> Result<Words, NoMemory>
    ensures { IfOk result (λ words. words ≡ codes "clonemedium" ∷ place_text place.now ∷ target.now ∷ codes "--existing" ∷ []) }
{
    let place = place_word(alloc, place)?;
    copies(
        alloc,
        &[b"clonemedium", place.bytes(), target.bytes(), b"--existing"],
    )
}

fn import_chain(alloc: Global, files: &[Text], name: &Text) -> Result<Words, NoMemory>
    ensures { IfOk result (λ words. words ≡ codes "importchain" ∷ files.now ++ name.now ∷ []) }
{
    let mut words = copies(alloc, &[b"importchain"])?;
    push_words(alloc, &mut words, files)?;
    push_word(alloc, &mut words, name.bytes())?;
    Ok(words)
}

fn usage(alloc: Global, place: &PlaceName) -> Result<Words, NoMemory>
    ensures { IfOk result (λ words. words ≡ codes "usage" ∷ place_text place.now ∷ []) }
{
    let place = place_word(alloc, place)?;
    copies(alloc, &[b"usage", place.bytes()])
}

/// The words that attach a medium, or `none` for the slot's end.
fn attach(alloc: Global, vm: &Text, port: u8, medium: &[u8]) -> Result<Words, NoMemory>
    ensures { IfOk result (λ words. words ≡ codes "storageattach" ∷ vm.now ∷ decimal port ∷ medium.now ∷ []) }
{
    let port = number_word(alloc, u64::from(port))?;
    copies(alloc, &[b"storageattach", vm.bytes(), port.bytes(), medium])
}

fn read(alloc: Global, vm: &Text, port: u8, lba: u64, count: u32) -> Result<Words, NoMemory>
    ensures { IfOk result (λ words. words ≡ codes "read" ∷ vm.now ∷ decimal port ∷ decimal lba ∷ decimal count ∷ []) }
{
    let port = number_word(alloc, u64::from(port))?;
    let lba = number_word(alloc, lba)?;
    let count = number_word(alloc, u64::from(count))?;
    copies(
        alloc,
        &[
            b"read",
            vm.bytes(),
            port.bytes(),
            lba.bytes(),
            count.bytes(),
        ],
    )
}

fn write(alloc: Global, vm: &Text, port: u8, lba: u64, bytes: &[u8]) -> Result<Words, NoMemory>
    ensures { IfOk result (λ words. words ≡ codes "write" ∷ vm.now ∷ decimal port ∷ decimal lba ∷ encode_lower bytes.now ∷ []) }
{
    let port = number_word(alloc, u64::from(port))?;
    let lba = number_word(alloc, lba)?;
    let digits = hex_word(alloc, bytes)?;
    copies(
        alloc,
        &[
            b"write",
            vm.bytes(),
            port.bytes(),
            lba.bytes(),
            digits.bytes(),
        ],
    )
}

fn fill(
    alloc: Global,
    vm: &Text,
    port: u8,
    lba: u64,
    count: u32,
    byte: u8,
) -> Result<Words, NoMemory>
    ensures { IfOk result (λ words. words
        ≡ codes "fill" ∷ vm.now ∷ decimal port ∷ decimal lba ∷ decimal count ∷ encode_lower (byte ∷ []) ∷ []) }
{
    let port = number_word(alloc, u64::from(port))?;
    let lba = number_word(alloc, lba)?;
    let count = number_word(alloc, u64::from(count))?;
    let digits = hex_word(alloc, &[byte])?;
    copies(
        alloc,
        &[
            b"fill",
            vm.bytes(),
            port.bytes(),
            lba.bytes(),
            count.bytes(),
            digits.bytes(),
        ],
    )
}

/// The words of a command.
pub fn print(alloc: Global, command: &Command) -> Result<Words, NoMemory>
    requires spelled { IsSpelled command.now }
    ensures { IfOk result (λ words. IsForm words command.now) }
{
    match command {
        Command::CreateMedium {
            name,
            size,
            variant,
        } => create_medium(
            alloc,
            name.bytes(),
            size_option(*size),
            number_of(*size),
            *variant,
        ),
        Command::OpenMedium { name } => copies(alloc, &[b"openmedium", name.bytes()]),
        Command::CloseMedium { name, delete } => close_medium(alloc, name, *delete),
        Command::SetMode { name, mode } => {
            modify(alloc, name.bytes(), b"--type", mode_word(*mode).as_bytes())
        }
        Command::SetAutoreset { vm, port, on } => set_autoreset(alloc, vm, *port, *on),
        Command::Compact { place } => compact(alloc, place),
        Command::Resize { name, mb } => resize(alloc, name, *mb),
        Command::CloneNew { place, name } => clone_new(alloc, place, name),
        Command::CloneExisting { place, target } => clone_existing(alloc, place, target),
        Command::ImportChain { files, name } => import_chain(alloc, files.as_slice(), name),
        Command::ShowMediumInfo { name } => copies(alloc, &[b"showmediuminfo", name.bytes()]),
        Command::Usage { place } => usage(alloc, place),
        Command::ListHdds => copies(alloc, &[b"list", b"hdds"]),
        Command::ListVms => copies(alloc, &[b"list", b"vms"]),
        Command::CreateVm { name } => copies(alloc, &[b"createvm", name.bytes()]),
        Command::UnregisterVm { vm } => copies(alloc, &[b"unregistervm", vm.bytes()]),
        Command::Attach { vm, port, name } => attach(alloc, vm, *port, name.bytes()),
        Command::Detach { vm, port } => attach(alloc, vm, *port, b"none"),
        Command::StartVm { vm } => copies(alloc, &[b"startvm", vm.bytes()]),
        Command::PowerOff { vm } => copies(alloc, &[b"poweroff", vm.bytes()]),
        Command::Take { vm, name } => {
            copies(alloc, &[b"snapshot", vm.bytes(), b"take", name.bytes()])
        }
        Command::Restore { vm, snapshot } => {
            copies(
                alloc,
                &[b"snapshot", vm.bytes(), b"restore", snapshot.bytes()],
            )
        }
        Command::RestoreCurrent { vm } => {
            copies(alloc, &[b"snapshot", vm.bytes(), b"restorecurrent"])
        }
        Command::DeleteSnapshot { vm, snapshot } => {
            copies(
                alloc,
                &[b"snapshot", vm.bytes(), b"delete", snapshot.bytes()],
            )
        }
        Command::ListSnapshots { vm } => copies(alloc, &[b"snapshot", vm.bytes(), b"list"]),
        Command::Read {
            vm,
            port,
            lba,
            count,
        } => read(alloc, vm, *port, *lba, *count),
        Command::Write {
            vm,
            port,
            lba,
            bytes,
        } => write(alloc, vm, *port, *lba, bytes.as_slice()),
        Command::Fill {
            vm,
            port,
            lba,
            count,
            byte,
        } => fill(alloc, vm, *port, *lba, *count, *byte),
        Command::Flush { vm } => copies(alloc, &[b"flush", vm.bytes()]),
    }
}
