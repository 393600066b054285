//! The names of the files, the machines and the snapshots in a store.

ghost use Rattle.std.specs.Prelude.{◌≡◌, ◌<◌, length, codes, nat_eq};
ghost use Rattle.std.specs.List.{list_all, ends_with};
ghost use Rattle.vbm_ports.specs.Names.{is_medium_name, is_short_name, is_inner_name, is_store_name, is_name_character, is_lower_hex, is_hyphenated};

/// The file that lists what a store has.
pub const LIBRARY_NAME: &[u8] = b"library.vbm";

/// The file of a store's log.
pub const LOG_NAME: &[u8] = b"intent.vbm";

/// No file of a store has a longer name, in bytes.
pub const LONGEST_NAME: usize = 64;

/// No machine and no snapshot has a longer name, in bytes.
pub const LONGEST_SHORT_NAME: usize = 32;

fn is_name_byte(c: u8) -> bool
    ensures { result ≡ is_name_character c }
{
    matches!(c, b'a'..=b'z' | b'A'..=b'Z' | b'0'..=b'9' | b'.' | b'_' | b'-')
}

fn are_name_bytes(name: &[u8]) -> bool
    ensures { result ≡ list_all is_name_character name.now }
{
    name.iter().all(|c| is_name_byte(*c))
}

fn ends_in_vdi(name: &[u8]) -> bool
    ensures { result ≡ ends_with nat_eq name.now (codes ".vdi") }
{
    name.ends_with(b".vdi")
}

/// Whether a medium may have this name: 5 to [`LONGEST_NAME`] letters, digits, `.`, `_` and `-`, with `.vdi` at the end and no `-`
/// at the front.
#[tactic(auto, unfolding(crate::specs::Names::is_medium_name))]
pub fn names_medium(name: &[u8]) -> bool
    ensures { result ≡ is_medium_name name.now }
{
    if name.len() < 5 || name.len() > LONGEST_NAME || name[0] == b'-' {
        return false;
    }
    are_name_bytes(name) && ends_in_vdi(name)
}

/// Whether a machine or a snapshot may have this name: 1 to [`LONGEST_SHORT_NAME`] letters, digits, `.`, `_` and `-`, with no `-` at the
/// front.
#[tactic(auto, unfolding(crate::specs::Names::is_short_name))]
pub fn names_machine(name: &[u8]) -> bool
    ensures { result ≡ is_short_name name.now }
{
    if name.is_empty() || name.len() > LONGEST_SHORT_NAME || name[0] == b'-' {
        return false;
    }
    are_name_bytes(name)
}

fn is_lower_hex_byte(c: u8) -> bool
    ensures { result ≡ is_lower_hex c }
{
    matches!(c, b'0'..=b'9' | b'a'..=b'f')
}

fn are_lower_hex(text: &[u8]) -> bool
    ensures { result ≡ list_all is_lower_hex text.now }
{
    text.iter().all(|c| is_lower_hex_byte(*c))
}

// Whether a text is an identifier in the hyphenated lower-case form.
fn is_hyphenated_id(text: &[u8]) -> bool
    ensures { result ≡ is_hyphenated text.now }
{
    if text.len() != 36 {
        return false;
    }
    are_lower_hex(&text[..8])
        && text[8] == b'-'
        && are_lower_hex(&text[9..13])
        && text[13] == b'-'
        && are_lower_hex(&text[14..18])
        && text[18] == b'-'
        && are_lower_hex(&text[19..23])
        && text[23] == b'-'
        && are_lower_hex(&text[24..36])
}

/// Whether an inner image may have this name: `{`, an identifier in the hyphenated lower-case form, and `}.vdi`.
#[tactic(auto, unfolding(crate::specs::Names::is_inner_name))]
fn names_inner_image(name: &[u8]) -> bool
    ensures { result ≡ is_inner_name name.now }
{
    if name.len() != 42 || !name.starts_with(b"{") || !name.ends_with(b"}.vdi") {
        return false;
    }
    is_hyphenated_id(&name[1..37])
}

/// Whether a file of a store may have this name: a medium's, an inner image's, `library.vbm` or `intent.vbm`.
pub fn names_store_file(name: &[u8]) -> bool
    ensures { result ≡ is_store_name name.now }
{
    names_medium(name) || names_inner_image(name) || name == LIBRARY_NAME || name == LOG_NAME
}
