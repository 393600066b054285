//! The words of lines.

use crate::ended::Ended;
use uuid::Uuid;
use vbm_lines::decimal;

/// A line's first word, and the rest.
pub(crate) fn first_word(line: &str) -> (&str, &str) {
    match line.split_once(' ') {
        Some((word, rest)) => (word, rest),
        None => (line, ""),
    }
}

/// A number.
pub(crate) fn read_number(word: &str) -> Result<u64, Ended> {
    match decimal(word.as_bytes()) {
        Some(number) => Ok(number),
        None => Err(Ended::Here("no number")),
    }
}

/// The number of an identifier.
pub(crate) fn read_id(word: &str) -> Result<u128, Ended> {
    match Uuid::try_parse_ascii(word.as_bytes()) {
        Ok(id) => Ok(id.as_u128()),
        Err(_) => Err(Ended::Here("no identifier")),
    }
}

/// A byte in two hexadecimal digits.
pub(crate) fn read_byte(word: &str) -> Result<u8, Ended> {
    match u8::from_str_radix(word, 16) {
        Ok(byte) => Ok(byte),
        Err(_) => Err(Ended::Here("no byte")),
    }
}
