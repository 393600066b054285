//! The words of the program.

ghost use Rattle.std.specs.Prelude.{◌≡◌, ◌≤◌, ℕ, List, length, MatchOption, All, IsTrue, ◌↔◌};
ghost use Rattle.vbm_ports.specs.Names.{is_medium_name};
ghost use Rattle.vbm_world.specs.Texts.{id_text};
ghost use Rattle.vbm_top.specs.Run.{IsPeek, IsInit, IsScript};
ghost use Rattle.vbm_ids.specs.Identifier.{IsSeed};

use uuid::Uuid;
use vbm_lines::decimal;
use vbm_peek::MOST_FILES;
use vbm_ports::{Text, names_medium};

fn is_text(word: &[u8], text: &[u8]) -> bool
    ensures { IsTrue result ↔ (word.now ≡ text.now) }
{
    word == text
}

/// Whether words are names of 1 to 32 media.
fn are_files(words: &[Text]) -> bool
    ensures { IsTrue result
        ↔ ((1 ≤ length words.now) × (length words.now ≤ 32) × All (λ name. IsTrue (is_medium_name name)) words.now) }
{
    !words.is_empty()
        && words.len() <= MOST_FILES
        && words.iter().all(|word| names_medium(word.bytes()))
}

/// The files, base first, and the sector of the words `peek FILE [FILE ...] LBA`.
pub(crate) fn peek_words(words: &[Text]) -> Option<(&[Text], u64)>
    ensures { MatchOption result ((names : List (List ℕ)) (lba : ℕ) → IsPeek words.now names lba
        → ⊥) (λ form. IsPeek words.now form.0.now form.1) }
{
    let [verb, files @ .., lba] = words else {
        return None;
    };
    if !is_text(verb.bytes(), b"peek") {
        return None;
    }
    if !are_files(files) {
        return None;
    }
    let lba = decimal(lba.bytes())?;
    Some((files, lba))
}

/// Whether a word is the hyphenated lower-case form of an identifier's bytes.
fn spells(word: &[u8], id: &[u8; 16]) -> bool
    ensures exact { IsTrue result ↔ (id_text id.now ≡ word.now) }
    ensures seed { IsSeed id.now }
{
    let mut buffer = Uuid::encode_buffer();
    let text = Uuid::from_bytes(*id).hyphenated().encode_lower(&mut buffer);
    text.as_bytes() == word
}

/// The identifier that a word spells in the hyphenated lower-case form.
fn identifier(word: &[u8]) -> Option<Uuid>
    ensures { MatchOption result ((seed : List ℕ) → IsSeed seed → word.now ≡ id_text seed
        → ⊥) (λ seed. IsSeed seed × (word.now ≡ id_text seed)) }
{
    let Ok(id) = Uuid::try_parse_ascii(word) else {
        return None;
    };
    if spells(word, id.as_bytes()) {
        Some(id)
    } else {
        None
    }
}

/// The seed of the words `init`, which take the fresh one, or `init SEED`.
pub(crate) fn init_words(words: &[Text], fresh: Uuid) -> Option<Uuid>
    ensures { MatchOption result ((drawn seed : List ℕ) → IsInit words.now drawn seed
        → ⊥) (λ seed. IsInit words.now fresh seed) }
{
    match words {
        [verb] if is_text(verb.bytes(), b"init") => Some(fresh),
        [verb, seed] if is_text(verb.bytes(), b"init") => identifier(seed.bytes()),
        _ => None,
    }
}

/// Whether the words are `script`.
pub(crate) fn is_script(words: &[Text]) -> bool
    ensures { IsTrue result ↔ IsScript words.now }
{
    match words {
        [verb] => is_text(verb.bytes(), b"script"),
        _ => false,
    }
}
