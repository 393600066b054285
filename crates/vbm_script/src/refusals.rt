//! The texts of refusals.

ghost use Rattle.std.specs.Prelude.{◌≡◌, ◌++◌, IfOk, string_bytes};
ghost use Rattle.vbm_world.specs.Texts.{refusal_text, which_text};
ghost use Rattle.vbm_script.specs.Refusals.{detail_text};

use std::alloc::{AllocError, Global};
use vbm_world::{Refusal, Which};

/// What stands before a refusal's number or word, where it has one.
fn head(refusal: Refusal) -> &'static str
    ensures { result.now ++ detail_text refusal ≡ refusal_text refusal }
{
    match refusal {
        Refusal::BadLine => "error 01 BadLine",
        Refusal::NoSuchMedium => "error 02 NoSuchMedium",
        Refusal::NoSuchMachine => "error 03 NoSuchMachine",
        Refusal::NoSuchSnapshot => "error 04 NoSuchSnapshot",
        Refusal::NoSuchSlot => "error 05 NoSuchSlot",
        Refusal::NameTaken => "error 06 NameTaken",
        Refusal::FileExists => "error 07 FileExists",
        Refusal::NoSuchFile => "error 08 NoSuchFile",
        Refusal::NotAnImage(_) => "error 09 NotAnImage",
        Refusal::DuplicateId => "error 10 DuplicateId",
        Refusal::ForeignId => "error 11 ForeignId",
        Refusal::InUse => "error 12 InUse",
        Refusal::Frozen => "error 13 Frozen",
        Refusal::Running => "error 14 Running",
        Refusal::NotRunning => "error 15 NotRunning",
        Refusal::Locked => "error 16 Locked",
        Refusal::SharedMedium => "error 17 SharedMedium",
        Refusal::SlotTaken => "error 18 SlotTaken",
        Refusal::AlreadyAttached => "error 19 AlreadyAttached",
        Refusal::OutOfRange => "error 20 OutOfRange",
        Refusal::WriteProtected => "error 21 WriteProtected",
        Refusal::HasChildren(_) => "error 22 HasChildren",
        Refusal::Shrinks => "error 23 Shrinks",
        Refusal::BadSize => "error 24 BadSize",
        Refusal::WrongKind => "error 25 WrongKind",
        Refusal::Full(_) => "error 26 Full",
        Refusal::IdsSpent => "error 27 IdsSpent",
        Refusal::BrokenChain(_) => "error 28 BrokenChain",
        Refusal::TooSmall => "error 29 TooSmall",
        Refusal::NoCurrent => "error 30 NoCurrent",
    }
}

fn which_word(which: Which) -> &'static str
    ensures { result.now ≡ which_text which }
{
    match which {
        Which::Media => "media",
        Which::Machines => "machines",
        Which::Snapshots => "snapshots",
        Which::Places => "places",
    }
}

/// The number or word of a refusal, behind a space.
fn detail(alloc: Global, refusal: Refusal) -> Result<String, AllocError>
    ensures { IfOk result (λ text. string_bytes text ≡ detail_text refusal) }
{
    match refusal {
        Refusal::NotAnImage(n) | Refusal::HasChildren(n) | Refusal::BrokenChain(n) => {
            format!(in alloc; " {n}")
        }
        Refusal::Full(which) => {
            let word = which_word(which);
            format!(in alloc; " {word}")
        }
        _ => Ok(String::new(alloc)),
    }
}

/// The text of a refusal.
pub(crate) fn refusal_line(alloc: Global, refusal: Refusal) -> Result<String, AllocError>
    ensures { IfOk result (λ text. string_bytes text ≡ refusal_text refusal) }
{
    let head = head(refusal);
    let detail = detail(alloc, refusal)?;
    format!(in alloc; "{head}{detail}")
}
