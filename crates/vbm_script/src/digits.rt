//! Bytes that words spell in lower-case hexadecimal digits.

ghost use Rattle.std.specs.Prelude.{◌≡◌, ◌<◌, ℕ, List, false, IsTrue, IsFalse, MatchOption, slice_index};
ghost use Rattle.std.specs.List.{list_all};
ghost use Rattle.hex.specs.Hex.{lower_digits};
ghost use Rattle.vbm_ports.specs.Names.{is_lower_hex};
ghost use Rattle.vbm_script.specs.Guests.{SpellsByte, SpellsSectors};

use vbm_world::WRITE_LIMIT;

fn is_digit(c: u8) -> bool
    ensures { result ≡ is_lower_hex c }
{
    matches!(c, b'0'..=b'9' | b'a'..=b'f')
}

fn are_digits(word: &[u8]) -> bool
    ensures { result ≡ list_all is_lower_hex word.now }
{
    word.iter().all(|c| is_digit(*c))
}

/// Whether a word spells the bytes of sectors that a guest may write at once.
pub(crate) fn spells_sectors(word: &[u8]) -> bool
    ensures some { IsTrue result → (bytes : List ℕ) × SpellsSectors word.now bytes }
    ensures none { IsFalse result → (bytes : List ℕ) → SpellsSectors word.now bytes → ⊥ }
{
    let count = word.len() / 1024;
    if word.len() % 1024 != 0 || count == 0 || count > WRITE_LIMIT {
        return false;
    }
    are_digits(word)
}

/// The value of a digit.
fn value(c: u8) -> Option<u8>
    ensures { MatchOption result (is_lower_hex c ≡ false) (λ value. (value < 16) × (slice_index lower_digits value ≡ c)) }
{
    match c {
        b'0'..=b'9' => Some(c - b'0'),
        b'a'..=b'f' => Some(c - b'a' + 10),
        _ => None,
    }
}

/// The byte that two digits spell.
pub(crate) fn byte(word: &[u8]) -> Option<u8>
    ensures { MatchOption result ((byte : ℕ) → SpellsByte word.now byte → ⊥) (λ byte. SpellsByte word.now byte) }
{
    let [high, low] = word else {
        return None;
    };
    let Some(high) = value(*high) else {
        return None;
    };
    let Some(low) = value(*low) else {
        return None;
    };
    Some(high * 16 + low)
}
