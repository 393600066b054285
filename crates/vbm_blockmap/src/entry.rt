//! What a word of a block map says.

ghost use Rattle.std.specs.Prelude.{◌≡◌};
ghost use Rattle.vbm_blockmap.specs.Entry.{entry_of_word, word_of_entry, IsEntry};

/// What a block map says of a block.
#[derive(Clone, Copy, Debug, PartialEq, Eq)]
pub enum Entry {
    /// The image does not have it.
    Free,
    /// It is all zeros.
    Zero,
    /// Its data stand at this position.
    At(u32),
}

/// The entry that a word is.
pub fn entry_of(word: u32) -> Entry
    ensures entry { result ≡ entry_of_word word }
    ensures back { word_of_entry result ≡ word }
    ensures is { IsEntry result }
{
    match word {
        0xFFFF_FFFF => Entry::Free,
        0xFFFF_FFFE => Entry::Zero,
        at => Entry::At(at),
    }
}

/// The word of an entry.
pub fn word_of(entry: Entry) -> u32
    requires { IsEntry entry }
    ensures word { result ≡ word_of_entry entry }
    ensures back { entry_of_word result ≡ entry }
{
    match entry {
        Entry::Free => 0xFFFF_FFFF,
        Entry::Zero => 0xFFFF_FFFE,
        Entry::At(at) => at,
    }
}
