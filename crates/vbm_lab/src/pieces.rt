//! Bytes that a text gives in pieces.

use crate::ended::Ended;
use std::alloc::Global;

/// The most bytes of a piece, and its last place.
pub(crate) const LONGEST: usize = 1 << 26;

/// A line's first word, and the rest.
pub(crate) fn first_word(line: &str) -> (&str, &str) {
    match line.split_once(' ') {
        Some((word, rest)) => (word, rest.trim_start()),
        None => (line, ""),
    }
}

/// Reads a number.
pub(crate) fn read_number(word: &str) -> Result<u64, Ended> {
    match word.parse::<u64>() {
        Ok(number) => Ok(number),
        Err(_) => Err(Ended::Here("no number")),
    }
}

/// Puts the pieces of a text over bytes. A piece is `AT:BYTES`, or `BYTES`, which stand behind the piece before, the first at 0;
/// gaps are zeros. `BYTES` are hexadecimal or a text between quotes, and `BYTES*COUNT` so many of them.
pub(crate) fn put_pieces(alloc: Global, bytes: &mut Vec<u8>, text: &str) -> Result<(), Ended> {
    let mut rest = text.trim_start();
    let mut end = 0;
    for _ in 0..text.len() {
        if rest.is_empty() {
            break;
        }
        let (at, unplaced) = read_place(rest, end)?;
        let (piece, after) = read_piece(alloc, unplaced)?;
        put_piece(bytes, at, &piece)?;
        end = at.saturating_add(piece.len() as u64);
        rest = after.trim_start();
    }
    Ok(())
}

/// The bytes of the pieces of a text.
pub(crate) fn bytes_of(alloc: Global, text: &str) -> Result<Vec<u8>, Ended> {
    let mut bytes = Vec::new(alloc);
    put_pieces(alloc, &mut bytes, text)?;
    Ok(bytes)
}

// Puts bytes at a place, with zeros in a gap before them.
fn put_piece(bytes: &mut Vec<u8>, at: u64, piece: &[u8]) -> Result<(), Ended> {
    if at > LONGEST as u64 || piece.len() > LONGEST {
        return Err(Ended::Here("a piece is too long, or too far"));
    }
    let at = at as usize;
    let end = at + piece.len();
    if bytes.len() < end {
        bytes.resize(end, 0)?;
    }
    bytes[at..end].copy_from_slice(piece);
    Ok(())
}

// The place of a piece, where the text tells one before a colon, and what follows it.
fn read_place(text: &str, end: u64) -> Result<(u64, &str), Ended> {
    let (word, _) = first_word(text);
    if word.starts_with('\'') || !word.contains(':') {
        return Ok((end, text));
    }
    match text.split_once(':') {
        Some((at, rest)) => Ok((read_number(at)?, rest)),
        None => Ok((end, text)),
    }
}

// The bytes of a piece, and the text behind it.
fn read_piece(alloc: Global, text: &str) -> Result<(Vec<u8>, &str), Ended> {
    let (unit, tail) = read_unit(alloc, text)?;
    let (times, after) = first_word(tail);
    if times.is_empty() {
        return Ok((unit, after));
    }
    match times.strip_prefix('*') {
        Some(count) => Ok((repeated(alloc, &unit, read_number(count)?)?, after)),
        None => Err(Ended::Here("no piece")),
    }
}

// The bytes of a piece once, and the text behind them.
fn read_unit(alloc: Global, text: &str) -> Result<(Vec<u8>, &str), Ended> {
    if let Some(quoted) = text.strip_prefix('\'') {
        return match quoted.split_once('\'') {
            Some((unit, tail)) => Ok((Vec::from_slice(alloc, unit.as_bytes())?, tail)),
            None => Err(Ended::Here("a text without its end")),
        };
    }
    let (word, _) = first_word(text);
    let digits = match word.split_once('*') {
        Some((digits, _)) => digits,
        None => word,
    };
    let tail = text.strip_prefix(digits).unwrap_or("");
    Ok((read_bytes(alloc, digits)?, tail))
}

// So many of some bytes.
fn repeated(alloc: Global, unit: &[u8], count: u64) -> Result<Vec<u8>, Ended> {
    if count.saturating_mul(unit.len() as u64) > LONGEST as u64 {
        return Err(Ended::Here("a piece is too long"));
    }
    let mut bytes = Vec::new(alloc);
    for _ in 0..count {
        bytes.extend_from_slice(unit)?;
    }
    Ok(bytes)
}

fn read_bytes(alloc: Global, digits: &str) -> Result<Vec<u8>, Ended> {
    match hex::decode(alloc, digits) {
        Ok(bytes) => Ok(bytes),
        Err(hex::FromHexError::OutOfMemory) => Err(Ended::Memory),
        Err(_) => Err(Ended::Here("no hexadecimal bytes")),
    }
}

/// A text in which a word `TEXT*COUNT` is so many of that text.
pub(crate) fn expanded(alloc: Global, text: &str) -> Result<Vec<u8>, Ended> {
    let mut bytes = Vec::new(alloc);
    for (i, word) in text.split(' ').enumerate() {
        if i > 0 {
            bytes.push(b' ')?;
        }
        match word.split_once('*') {
            Some((unit, count)) => {
                let many = repeated(alloc, unit.as_bytes(), read_number(count)?)?;
                bytes.extend_from_slice(&many)?;
            }
            None => bytes.extend_from_slice(word.as_bytes())?,
        }
    }
    Ok(bytes)
}
