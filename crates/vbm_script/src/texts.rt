//! The texts of numbers, bytes and places.

ghost use Rattle.std.specs.Prelude.{◌≡◌, ◌++◌, codes, decimal, IfOk, OnOk, ◌^◌, ◌<◌};
ghost use Rattle.hex.specs.Hex.{encode_lower};
ghost use Rattle.vbm_world.specs.Texts.{mode_text, place_text, switch_text};

use std::alloc::{AllocError, Global};
use vbm_modes::Mode;
use vbm_ports::{NoMemory, Text};
use vbm_world::PlaceName;

pub(crate) fn mode_word(mode: Mode) -> &'static str
    ensures { result.now ≡ mode_text mode }
{
    match mode {
        Mode::Normal => "normal",
        Mode::Immutable => "immutable",
        Mode::Writethrough => "writethrough",
        Mode::MultiAttach => "multiattach",
        Mode::Readonly => "readonly",
    }
}

pub(crate) fn switch_word(on: bool) -> &'static [u8]
    ensures { result.now ≡ switch_text on }
{
    if on { b"on" } else { b"off" }
}

/// A number in decimal.
pub(crate) fn number_word(alloc: Global, n: u64) -> Result<Text, NoMemory>
    ensures { IfOk result (λ text. text ≡ decimal n) }
{
    let digits = format!(in alloc; "{n}").map_err(|_| NoMemory)?;
    Text::new(alloc, digits.as_bytes())
}

/// Bytes in lower-case hexadecimal digits.
pub(crate) fn hex_word(alloc: Global, bytes: &[u8]) -> Result<Text, NoMemory>
    ensures { IfOk result (λ text. text ≡ encode_lower bytes.now) }
{
    let digits = hex::encode(alloc, bytes).map_err(|_| NoMemory)?;
    Text::new(alloc, digits.as_bytes())
}

fn put_port(alloc: Global, text: &mut Vec<u8>, port: u8) -> Result<(), AllocError>
    ensures { OnOk result (text.new.items ≡ text.old.items ++ codes ":" ++ decimal port) }
{
    text.push(b':')?;
    let digits = format!(in alloc; "{port}")?;
    text.extend_from_slice(digits.as_bytes())
}

fn slot_bytes(alloc: Global, vm: &Text, port: u8) -> Result<Vec<u8>, AllocError>
    ensures { IfOk result (λ text. text.items ≡ vm.now ++ codes ":" ++ decimal port) }
{
    let mut text = Vec::from_slice(alloc, vm.bytes())?;
    put_port(alloc, &mut text, port)?;
    Ok(text)
}

fn snapshot_bytes(
    alloc: Global,
    vm: &Text,
    snapshot: &Text,
    port: u8,
) -> Result<Vec<u8>, AllocError>
    ensures { IfOk result (λ text. text.items ≡ vm.now ++ codes "/" ++ snapshot.now ++ codes ":" ++ decimal port) }
{
    let mut text = Vec::from_slice(alloc, vm.bytes())?;
    text.push(b'/')?;
    text.extend_from_slice(snapshot.bytes())?;
    put_port(alloc, &mut text, port)?;
    Ok(text)
}

/// The name of a machine's slot.
pub(crate) fn slot_word(alloc: Global, vm: &Text, port: u8) -> Result<Text, NoMemory>
    ensures { IfOk result (λ text. text ≡ vm.now ++ codes ":" ++ decimal port) }
{
    let text = slot_bytes(alloc, vm, port).map_err(|_| NoMemory)?;
    Text::new(alloc, text.as_slice())
}

/// The name of a snapshot's place.
fn snapshot_word(alloc: Global, vm: &Text, snapshot: &Text, port: u8) -> Result<Text, NoMemory>
    ensures { IfOk result (λ text. text ≡ vm.now ++ codes "/" ++ snapshot.now ++ codes ":" ++ decimal port) }
{
    let text = snapshot_bytes(alloc, vm, snapshot, port).map_err(|_| NoMemory)?;
    Text::new(alloc, text.as_slice())
}

/// The name of a place.
pub(crate) fn place_word(alloc: Global, place: &PlaceName) -> Result<Text, NoMemory>
    ensures { IfOk result (λ text. text ≡ place_text place.now) }
{
    match place {
        PlaceName::Medium(name) => Text::new(alloc, name.bytes()),
        PlaceName::Slot { vm, port } => slot_word(alloc, vm, *port),
        PlaceName::Snap { vm, snapshot, port } => snapshot_word(alloc, vm, snapshot, *port),
    }
}
