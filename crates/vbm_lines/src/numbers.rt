//! Numbers in decimal.

ghost use Rattle.std.specs.Prelude.{◌≡◌, ◌<◌, ◌^◌, ℕ, MatchOption, decimal};

/// The number below 2^64 that a word spells in decimal, without leading zeros.
pub fn decimal(word: &[u8]) -> Option<u64>
    ensures { MatchOption result ((n : ℕ) → n < 2 ^ 64 → word.now ≡ decimal n
        → ⊥) (λ n. word.now ≡ decimal n) }
{
    if word.is_empty() {
        return None;
    }
    if word[0] < b'0' {
        return None;
    }
    if word[0] == b'0' && word.len() > 1 {
        return None;
    }
    match str::from_utf8(word) {
        Ok(text) => text.parse().ok(),
        Err(_) => None,
    }
}
