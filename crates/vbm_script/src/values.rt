//! What single words spell.

ghost use Rattle.std.specs.Prelude.{◌≡◌, ◌↔◌, ℕ, Bool, IsTrue, MatchOption, MatchResult};
ghost use Rattle.vbm_modes.specs.declared.Mode.{Mode};
ghost use Rattle.vbm_volume.specs.declared.flat.Variant.{Variant};
ghost use Rattle.vbm_world.specs.declared.command.Size.{Size};
ghost use Rattle.vbm_world.specs.Texts.{delete_words, mode_text, switch_text, variant_words};
ghost use Rattle.vbm_script.specs.Parses.{IsSize, SpellsCount, SpellsPort};

use crate::parsing::ParseFault;
use crate::tails::{one_word, two_words};
use std::alloc::Global;
use vbm_lines::decimal;
use vbm_modes::Mode;
use vbm_ports::Text;
use vbm_volume::Variant;
use vbm_world::{FILL_LIMIT, PORT_LIMIT, Size};

pub(crate) fn is_text(word: &[u8], text: &[u8]) -> bool
    ensures { IsTrue result ↔ (word.now ≡ text.now) }
{
    word == text
}

/// A copy of a word.
pub(crate) fn copy(alloc: Global, word: &[u8]) -> Result<Text, ParseFault>
    ensures { MatchResult result (λ copy. copy ≡ word.now) (λ fault. fault ≡ ParseFault.NoMemory) }
{
    Text::new(alloc, word).map_err(|_| ParseFault::NoMemory)
}

pub(crate) fn size(unit: &[u8], number: &[u8]) -> Option<Size>
    ensures { MatchOption result ((size : Size) → IsSize unit.now number.now size → ⊥) (λ size. IsSize unit.now number.now size) }
{
    let n = decimal(number)?;
    if is_text(unit, b"--size") {
        return Some(Size::Mb(n));
    }
    if is_text(unit, b"--sizebyte") {
        return Some(Size::Bytes(n));
    }
    None
}

pub(crate) fn variant(words: &[Text]) -> Option<Variant>
    ensures { MatchOption result ((variant : Variant) → words.now ≡ variant_words variant → ⊥) (λ variant. words.now ≡ variant_words variant) }
{
    if words.is_empty() {
        return Some(Variant::Standard);
    }
    let (option, value) = two_words(words)?;
    if is_text(option, b"--variant") && is_text(value, b"Fixed") {
        return Some(Variant::Fixed);
    }
    None
}

/// Whether words tell that a file is to be deleted.
pub(crate) fn delete(words: &[Text]) -> Option<bool>
    ensures { MatchOption result ((delete : Bool) → words.now ≡ delete_words delete → ⊥) (λ delete. words.now ≡ delete_words delete) }
{
    if words.is_empty() {
        return Some(false);
    }
    let option = one_word(words)?;
    if is_text(option, b"--delete") {
        return Some(true);
    }
    None
}

pub(crate) fn port(word: &[u8]) -> Option<u8>
    ensures { MatchOption result ((n : ℕ) → SpellsPort word.now n → ⊥) (λ n. SpellsPort word.now n) }
{
    let n = decimal(word)?;
    if n >= u64::from(PORT_LIMIT) {
        return None;
    }
    Some(n as u8)
}

/// A number of sectors to read or to fill.
pub(crate) fn count(word: &[u8]) -> Option<u32>
    ensures { MatchOption result ((n : ℕ) → SpellsCount word.now n → ⊥) (λ n. SpellsCount word.now n) }
{
    let n = decimal(word)?;
    if n == 0 || n > u64::from(FILL_LIMIT) {
        return None;
    }
    Some(n as u32)
}

pub(crate) fn mode(word: &[u8]) -> Option<Mode>
    ensures { MatchOption result ((mode : Mode) → word.now ≡ mode_text mode → ⊥) (λ mode. word.now ≡ mode_text mode) }
{
    if is_text(word, b"normal") {
        return Some(Mode::Normal);
    }
    if is_text(word, b"immutable") {
        return Some(Mode::Immutable);
    }
    if is_text(word, b"writethrough") {
        return Some(Mode::Writethrough);
    }
    if is_text(word, b"multiattach") {
        return Some(Mode::MultiAttach);
    }
    if is_text(word, b"readonly") {
        return Some(Mode::Readonly);
    }
    None
}

pub(crate) fn switch(word: &[u8]) -> Option<bool>
    ensures { MatchOption result ((on : Bool) → word.now ≡ switch_text on → ⊥) (λ on. word.now ≡ switch_text on) }
{
    if is_text(word, b"on") {
        return Some(true);
    }
    if is_text(word, b"off") {
        return Some(false);
    }
    None
}
