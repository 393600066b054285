//! The texts of answers.

ghost use Rattle.std.specs.Prelude.{◌≡◌, ◌++◌, [], ◌∷◌, map, codes, decimal, IfOk, OnOk, if◌then◌else◌};
ghost use Rattle.hex.specs.Hex.{encode_lower};
ghost use Rattle.vbm_world.specs.Texts.{text_of, id_text, spaced, counted_words, vm_word, snapshot_word, name_word, variant_text};

use crate::refusals::refusal_line;
use crate::texts::mode_word;
use std::alloc::{AllocError, Global};
use uuid::Uuid;
use vbm_modes::Mode;
use vbm_ports::{NoMemory, Text};
use vbm_volume::Variant;
use vbm_world::{Answer, SnapLine, VmLine};

fn variant_word(variant: Variant) -> &'static str
    ensures { result.now ≡ variant_text variant }
{
    match variant {
        Variant::Standard => "Standard",
        Variant::Fixed => "Fixed",
    }
}

fn frozen_word(frozen: bool) -> &'static str
    ensures { result.now ≡ (if frozen then codes "frozen" else codes "free") }
{
    if frozen { "frozen" } else { "free" }
}

fn running_word(running: bool) -> &'static [u8]
    ensures { result.now ≡ (if running then codes ":running" else codes ":off") }
{
    if running { b":running" } else { b":off" }
}

/// A name, or `-` for none.
fn name_or_dash(name: &Option<Text>) -> &[u8]
    ensures { result.now ≡ name_word name.now }
{
    match name {
        Some(name) => name.bytes(),
        None => b"-",
    }
}

/// Appends a word behind a space.
fn put_word(line: &mut Vec<u8>, word: &[u8]) -> Result<(), AllocError>
    ensures { OnOk result (line.new.items ≡ line.old.items ++ (codes " " ++ word.now)) }
{
    line.push(b' ')?;
    line.extend_from_slice(word)
}

fn put_machine(line: &mut Vec<u8>, machine: &VmLine) -> Result<(), AllocError>
    ensures { OnOk result (line.new.items ≡ line.old.items ++ (codes " " ++ vm_word machine.now)) }
{
    put_word(line, machine.name.bytes())?;
    line.extend_from_slice(running_word(machine.running))
}

fn put_snapshot(line: &mut Vec<u8>, snapshot: &SnapLine) -> Result<(), AllocError>
    ensures { OnOk result (line.new.items ≡ line.old.items ++ (codes " " ++ snapshot_word snapshot.now)) }
{
    put_word(line, snapshot.name.bytes())?;
    line.push(b':')?;
    line.extend_from_slice(name_or_dash(&snapshot.parent))
}

fn put_names(line: &mut Vec<u8>, names: &[Text]) -> Result<(), AllocError>
    ensures { OnOk result (line.new.items ≡ line.old.items ++ spaced names.now) }
{
    for name in names {
        put_word(line, name.bytes())?;
    }
    Ok(())
}

fn put_machines(line: &mut Vec<u8>, machines: &[VmLine]) -> Result<(), AllocError>
    ensures { OnOk result (line.new.items ≡ line.old.items ++ spaced (map vm_word machines.now)) }
{
    for machine in machines {
        put_machine(line, machine)?;
    }
    Ok(())
}

fn put_snapshots(line: &mut Vec<u8>, snapshots: &[SnapLine]) -> Result<(), AllocError>
    ensures { OnOk result (line.new.items ≡ line.old.items ++ spaced (map snapshot_word snapshots.now)) }
{
    for snapshot in snapshots {
        put_snapshot(line, snapshot)?;
    }
    Ok(())
}

fn count_line(alloc: Global, n: u64) -> Result<Vec<u8>, AllocError>
    ensures { IfOk result (λ line. line.items ≡ codes "ok" ++ spaced (decimal n ∷ [])) }
{
    Ok(format!(in alloc; "ok {n}")?.into_bytes())
}

fn id_line(alloc: Global, id: &Uuid) -> Result<Vec<u8>, AllocError>
    ensures { IfOk result (λ line. line.items ≡ codes "ok" ++ spaced (id_text id.now ∷ [])) }
{
    Ok(format!(in alloc; "ok {id}")?.into_bytes())
}

fn sectors_line(alloc: Global, bytes: &[u8]) -> Result<Vec<u8>, AllocError>
    ensures { IfOk result (λ line. line.items ≡ codes "ok" ++ spaced (encode_lower bytes.now ∷ [])) }
{
    let digits = hex::encode(alloc, bytes)?;
    Ok(format!(in alloc; "ok {digits}")?.into_bytes())
}

fn names_line(alloc: Global, names: &[Text]) -> Result<Vec<u8>, AllocError>
    ensures { IfOk result (λ line. line.items ≡ codes "ok" ++ spaced (counted_words names.now)) }
{
    let mut line = count_line(alloc, names.len() as u64)?;
    put_names(&mut line, names)?;
    Ok(line)
}

fn machines_line(alloc: Global, machines: &[VmLine]) -> Result<Vec<u8>, AllocError>
    ensures { IfOk result (λ line. line.items ≡ codes "ok" ++ spaced (counted_words (map vm_word machines.now))) }
{
    let mut line = count_line(alloc, machines.len() as u64)?;
    put_machines(&mut line, machines)?;
    Ok(line)
}

/// The current snapshot and the number of all.
fn current_line(alloc: Global, current: &Option<Text>, n: usize) -> Result<Vec<u8>, AllocError>
    ensures { IfOk result (λ line. line.items ≡ codes "ok" ++ spaced (name_word current.now ∷ decimal n ∷ [])) }
{
    let mut line = Vec::from_slice(alloc, b"ok")?;
    put_word(&mut line, name_or_dash(current))?;
    let count = format!(in alloc; "{n}")?;
    put_word(&mut line, count.as_bytes())?;
    Ok(line)
}

fn snapshots_line(
    alloc: Global,
    current: &Option<Text>,
    snapshots: &[SnapLine],
) -> Result<Vec<u8>, AllocError>
    ensures { IfOk result (λ line. line.items ≡ codes "ok" ++ spaced (name_word current.now ∷ counted_words (map snapshot_word snapshots.now))) }
{
    let mut line = current_line(alloc, current, snapshots.len())?;
    put_snapshots(&mut line, snapshots)?;
    Ok(line)
}

fn answer_line(alloc: Global, answer: &Answer) -> Result<Vec<u8>, AllocError>
    ensures { IfOk result (λ line. line.items ≡ text_of answer.now) }
{
    match answer {
        Answer::Done => Vec::from_slice(alloc, b"ok"),
        Answer::Id(id) => id_line(alloc, id),
        Answer::Info {
            id,
            modify,
            mode,
            variant,
            capacity,
            frozen,
        } => {
            let mode = mode_word(*mode);
            let variant = variant_word(*variant);
            let state = frozen_word(*frozen);
            let line = format!(in alloc; "ok {id} {modify} {mode} {variant} {capacity} {state}")?;
            Ok(line.into_bytes())
        }
        Answer::Count(n) => count_line(alloc, *n),
        Answer::MediaList(names) => names_line(alloc, names.as_slice()),
        Answer::VmList(machines) => machines_line(alloc, machines.as_slice()),
        Answer::SnapList { current, lines } => snapshots_line(alloc, current, lines.as_slice()),
        Answer::Sectors(bytes) => sectors_line(alloc, bytes.as_slice()),
        Answer::Refused(refusal) => Ok(refusal_line(alloc, *refusal)?.into_bytes()),
    }
}

/// The text of an answer, without a newline.
pub fn answer_text(alloc: Global, answer: &Answer) -> Result<Text, NoMemory>
    ensures { IfOk result (λ text. text ≡ text_of answer.now) }
{
    let line = answer_line(alloc, answer).map_err(|_| NoMemory)?;
    Text::new(alloc, line.as_slice())
}
