//! The words that stand behind a verb.

ghost use Rattle.std.specs.Prelude.{◌≡◌, ◌≢◌, ◌<◌, ℕ, List, [], ◌∷◌, length, MatchOption};
ghost use Rattle.vbm_world.specs.Texts.{IsMedium, IsShort};

use vbm_ports::{Text, names_machine, names_medium};

/// The only word.
pub(crate) fn one_word(tail: &[Text]) -> Option<&[u8]>
    ensures { MatchOption result (length tail.now ≢ 1) (λ a. tail.now ≡ a.now ∷ []) }
{
    match tail {
        [a] => Some(a.bytes()),
        _ => None,
    }
}

/// The only two words.
pub(crate) fn two_words(tail: &[Text]) -> Option<(&[u8], &[u8])>
    ensures { MatchOption result (length tail.now ≢ 2) (λ two. tail.now ≡ two.0.now ∷ two.1.now ∷ []) }
{
    match tail {
        [a, b] => Some((a.bytes(), b.bytes())),
        _ => None,
    }
}

/// The only three words.
pub(crate) fn three_words(tail: &[Text]) -> Option<(&[u8], &[u8], &[u8])>
    ensures { MatchOption result (length tail.now ≢ 3) (λ three. tail.now ≡ three.0.now ∷ three.1.now ∷ three.2.now ∷ []) }
{
    match tail {
        [a, b, c] => Some((a.bytes(), b.bytes(), c.bytes())),
        _ => None,
    }
}

/// The first word, and those behind it.
pub(crate) fn first_word(tail: &[Text]) -> Option<(&[u8], &[Text])>
    ensures { MatchOption result (tail.now ≡ []) (λ found. tail.now ≡ found.0.now ∷ found.1.now) }
{
    match tail {
        [a, rest @ ..] => Some((a.bytes(), rest)),
        [] => None,
    }
}

/// The first three words, and those behind them.
pub(crate) fn first_three(tail: &[Text]) -> Option<(&[u8], &[u8], &[u8], &[Text])>
    ensures { MatchOption result (length tail.now < 3) (λ found. tail.now ≡ found.0.now ∷ found.1.now ∷ found.2.now ∷ found.3.now) }
{
    let (a, rest) = first_word(tail)?;
    let (b, rest) = first_word(rest)?;
    let (c, rest) = first_word(rest)?;
    Some((a, b, c, rest))
}

/// The only word, if it is a medium's name.
pub(crate) fn one_medium(tail: &[Text]) -> Option<&[u8]>
    ensures { MatchOption result ((name : List ℕ) → tail.now ≡ name ∷ [] → IsMedium name → ⊥) (λ name. (tail.now ≡ name.now ∷ []) × IsMedium name.now) }
{
    let name = one_word(tail)?;
    if !names_medium(name) {
        return None;
    }
    Some(name)
}

/// The only word, if it is the name of a machine.
pub(crate) fn one_machine(tail: &[Text]) -> Option<&[u8]>
    ensures { MatchOption result ((name : List ℕ) → tail.now ≡ name ∷ [] → IsShort name → ⊥) (λ name. (tail.now ≡ name.now ∷ []) × IsShort name.now) }
{
    let name = one_word(tail)?;
    if !names_machine(name) {
        return None;
    }
    Some(name)
}
