//! Which parts of a library's file are in use.

/// Parts of a library's file that may be in use. A file that has another part is refused at that part's field.
#[derive(Clone, Copy, Debug, PartialEq, Eq)]
pub struct Features {
    /// Media that are write-through or read-only.
    pub shared_modes: bool,
    /// Media that are immutable or multi-attach.
    pub layered_modes: bool,
    pub inner_images: bool,
    pub machines: bool,
    pub slots: bool,
    pub snapshots: bool,
    /// A medium that is being made.
    pub makings: bool,
    pub mergings: bool,
}

/// The parts that some command makes. What is built later is let in here, and nowhere else.
pub const BUILT: Features = Features {
    shared_modes: true,
    layered_modes: false,
    inner_images: false,
    machines: true,
    slots: true,
    snapshots: false,
    makings: false,
    mergings: false,
};
