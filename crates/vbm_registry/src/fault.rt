//! Why a store is refused.

use vbm_ports::Text;

/// The first fault of a store. A refused store is left as it is, but for the changes of its log.
#[derive(Drop)]
pub enum BadStore {
    /// 1: there is no `library.vbm`.
    NoLibrary,
    /// 2: the log's gate is open, and its record is not in its grammar.
    BadLog,
    /// 3: the library is not one: the offset in bytes of the first bad field.
    BadLibrary(u32),
    /// 4: the file of a medium is absent.
    MissingFile(Text),
    /// 5: a medium's file is no image: the number of the first condition that fails, from 1.
    BadImage(Text, u32),
    /// 6: a medium's file is a differencing image.
    WrongType(Text),
    /// 7: the image has an identifier that this library made for something else, or has not given to a medium yet.
    WrongId(Text),
    /// 8: an inner image is not linked to its parent.
    BrokenLink(Text),
    /// 9: the image has the identifier of an earlier medium.
    SameId(Text),
}

/// Why bytes are no library's file.
#[derive(Clone, Copy, Debug, PartialEq, Eq)]
pub enum DecodeFault {
    /// The first bad field begins at this offset.
    Bad(u32),
    /// There was no memory.
    NoMemory,
}
