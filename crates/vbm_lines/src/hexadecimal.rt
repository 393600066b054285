//! Bytes in hexadecimal digits.

ghost use Rattle.std.specs.Prelude.{◌≡◌, ◌↔◌, ℕ, List, IfOk, IsTrue, MatchOption};
ghost use Rattle.hex.specs.Hex.{decode_of, encode_lower};
ghost use Rattle.vbm_lines.specs.Digits.{SpellsBytes};

use hex::FromHexError;
use std::alloc::Global;
use vbm_ports::{Bytes, NoMemory, Sequence};

/// The bytes of digits in either case.
fn decode(alloc: Global, word: &[u8]) -> Result<Option<Vec<u8>>, NoMemory>
    ensures { IfOk result (λ found. MatchOption found ((bytes : List ℕ) → SpellsBytes word.now bytes
        → ⊥) (λ bytes. decode_of word.now ≡ Ok bytes.items)) }
{
    match hex::decode(alloc, word) {
        Ok(bytes) => Ok(Some(bytes)),
        Err(fault) if fault == FromHexError::OutOfMemory => Err(NoMemory),
        Err(_) => Ok(None),
    }
}

/// Whether a word is the lower-case digits of bytes.
fn spells(alloc: Global, word: &[u8], bytes: &[u8]) -> Result<bool, NoMemory>
    ensures { IfOk result (λ is. IsTrue is ↔ (encode_lower bytes.now ≡ word.now)) }
{
    let digits = hex::encode(alloc, bytes).map_err(|_| NoMemory)?;
    Ok(digits.as_bytes() == word)
}

/// The bytes of an even number, at least two, of lower-case hexadecimal digits.
pub fn hex_bytes(alloc: Global, word: &[u8]) -> Result<Option<Bytes>, NoMemory>
    ensures { IfOk result (λ found. MatchOption found ((bytes : List ℕ) → SpellsBytes word.now bytes
        → ⊥) (λ bytes. SpellsBytes word.now bytes)) }
{
    if word.is_empty() {
        return Ok(None);
    }
    let Some(bytes) = decode(alloc, word)? else {
        return Ok(None);
    };
    if !spells(alloc, word, bytes.as_slice())? {
        return Ok(None);
    }
    Ok(Some(Sequence::from_slice(alloc, bytes.as_slice())?))
}
