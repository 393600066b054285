//! The length of a line, and its words.

ghost use Rattle.std.specs.Prelude.{◌≡◌, ◌≤◌, [], ◌∷◌, length, not, IfOk, MatchOption};
ghost use Rattle.std.specs.List.{prefix_len};
ghost use Rattle.vbm_lines.specs.Lines.{is_blank, words_in};

use crate::Words;
use std::alloc::Global;
use vbm_ports::{NoMemory, Sequence, Text};

/// A line of more bytes is too long to be a command.
pub const LONGEST_LINE: usize = 16384;

// So many bytes with no newline are of a line that is too long, even if a carriage return is the last of them.
pub(crate) const ABOVE: usize = LONGEST_LINE + 2;

fn is_tab_or_space(b: u8) -> bool
    ensures { result ≡ is_blank b }
{
    matches!(b, b'\t' | b' ')
}

/// How many blanks a line begins with.
fn blank_len(line: &[u8]) -> usize
    ensures len { result ≡ prefix_len is_blank line.now }
    ensures within { result ≤ length line.now }
{
    line.iter().take_while(|b| is_tab_or_space(**b)).count()
}

/// How many bytes stand before the first blank of a line.
fn word_len(line: &[u8]) -> usize
    ensures len { result ≡ prefix_len (λ b. not (is_blank b)) line.now }
    ensures within { result ≤ length line.now }
{
    line.iter().take_while(|b| !is_tab_or_space(**b)).count()
}

/// The first word of a line, and what stands behind it.
fn first_word(line: &[u8]) -> Option<(&[u8], &[u8])>
    ensures { MatchOption result (words_in line.now ≡ []) (λ found. words_in line.now ≡ found.0.now ∷ words_in found.1.now) }
{
    let n = blank_len(line);
    let (_, rest) = line.split_at(n);
    if rest.is_empty() {
        return None;
    }
    let n = word_len(rest);
    Some(rest.split_at(n))
}

/// The words of a line: runs of bytes other than tab and space.
pub fn words_of(alloc: Global, line: &Text) -> Result<Words, NoMemory>
    ensures { IfOk result (λ words. words ≡ words_in line.now) }
{
    let mut words = Sequence::new(alloc);
    let mut rest = line.bytes();
    while let Some((word, behind)) = first_word(rest) {
        words.push(Text::new(alloc, word)?)?;
        rest = behind;
    }
    Ok(words)
}
