//! Commands, and what they answer.

use uuid::Uuid;
use vbm_modes::Mode;
use vbm_ports::{Bytes, Names, Sequence, Text};
use vbm_volume::Variant;

/// The capacity that a new medium is to have.
#[derive(Clone, Copy, Debug, PartialEq, Eq)]
pub enum Size {
    /// In units of 2^20 bytes.
    Mb(u64),
    /// In bytes.
    Bytes(u64),
}

/// A place that has a disk.
#[derive(Drop)]
pub enum PlaceName {
    /// A medium.
    Medium(Text),
    /// A machine's slot at a port.
    Slot { vm: Text, port: u8 },
    /// A snapshot's place at a port.
    Snap { vm: Text, snapshot: Text, port: u8 },
}

/// A command, like those of VBoxManage.
#[derive(Drop)]
pub enum Command {
    /// Makes a normal medium of zeros.
    CreateMedium {
        name: Text,
        size: Size,
        variant: Variant,
    },
    /// Makes a file of the shelf a normal medium.
    OpenMedium {
        name: Text,
    },
    /// Puts a medium on the shelf, or deletes it with its file.
    CloseMedium {
        name: Text,
        delete: bool,
    },
    /// Gives a medium another mode.
    SetMode {
        name: Text,
        mode: Mode,
    },
    /// Tells whether a start of the machine resets a slot of an immutable medium.
    SetAutoreset {
        vm: Text,
        port: u8,
        on: bool,
    },
    /// Gives back the room of a place's image that holds nothing.
    Compact {
        place: PlaceName,
    },
    /// Gives a medium a greater capacity, in units of 2^20 bytes.
    Resize {
        name: Text,
        mb: u64,
    },
    /// Makes a normal medium with a copy of a place's disk.
    CloneNew {
        place: PlaceName,
        name: Text,
    },
    /// Copies a place's disk over a medium.
    CloneExisting {
        place: PlaceName,
        target: Text,
    },
    /// Makes a normal medium of a chain of files, base first.
    ImportChain {
        files: Names,
        name: Text,
    },
    /// Asks for what is known of a medium.
    ShowMediumInfo {
        name: Text,
    },
    /// Counts the blocks with data in a place's image.
    Usage {
        place: PlaceName,
    },
    /// Asks for the names of all media.
    ListHdds,
    /// Asks for the names of all machines.
    ListVms,
    /// Makes a machine without slots.
    CreateVm {
        name: Text,
    },
    /// Removes a machine without slots and snapshots.
    UnregisterVm {
        vm: Text,
    },
    /// Gives a machine a slot with a medium.
    Attach {
        vm: Text,
        port: u8,
        name: Text,
    },
    /// Takes a slot from a machine.
    Detach {
        vm: Text,
        port: u8,
    },
    /// Starts a machine.
    StartVm {
        vm: Text,
    },
    /// Stops a machine.
    PowerOff {
        vm: Text,
    },
    /// Takes a snapshot of a machine.
    Take {
        vm: Text,
        name: Text,
    },
    /// Gives a machine the disks of a snapshot.
    Restore {
        vm: Text,
        snapshot: Text,
    },
    /// Gives a machine the disks of its current snapshot.
    RestoreCurrent {
        vm: Text,
    },
    /// Deletes a snapshot of a machine.
    DeleteSnapshot {
        vm: Text,
        snapshot: Text,
    },
    /// Asks for the snapshots of a machine.
    ListSnapshots {
        vm: Text,
    },
    /// Reads sectors from a slot of a running machine.
    Read {
        vm: Text,
        port: u8,
        lba: u64,
        count: u32,
    },
    /// Writes sectors, whose bytes are given, to a slot of a running machine.
    Write {
        vm: Text,
        port: u8,
        lba: u64,
        bytes: Bytes,
    },
    /// Fills sectors of a slot of a running machine with one byte.
    Fill {
        vm: Text,
        port: u8,
        lba: u64,
        count: u32,
        byte: u8,
    },
    /// Settles what a running machine wrote.
    Flush {
        vm: Text,
    },
}

/// What there may be no more of.
#[derive(Clone, Copy, Debug, PartialEq, Eq)]
pub enum Which {
    /// Media of a library: [`MEDIA_LIMIT`](crate::MEDIA_LIMIT).
    Media,
    /// Machines of a library: [`MACHINE_LIMIT`](crate::MACHINE_LIMIT).
    Machines,
    /// Snapshots of a library: [`SNAPSHOT_LIMIT`](crate::SNAPSHOT_LIMIT).
    Snapshots,
    /// Places of the snapshots of a library: [`PLACE_LIMIT`](crate::PLACE_LIMIT).
    Places,
}

/// Why a command is refused. A refused command changes nothing.
#[derive(Clone, Copy, Debug, PartialEq, Eq)]
pub enum Refusal {
    /// 01: the line is no command.
    BadLine,
    /// 02: there is no such medium.
    NoSuchMedium,
    /// 03: there is no such machine.
    NoSuchMachine,
    /// 04: the machine has no such snapshot.
    NoSuchSnapshot,
    /// 05: there is no slot at this port.
    NoSuchSlot,
    /// 06: the name is taken.
    NameTaken,
    /// 07: a file of this name is there.
    FileExists,
    /// 08: there is no such file.
    NoSuchFile,
    /// 09: a file is no image: the number of the first condition that fails, from 1.
    NotAnImage(u32),
    /// 10: a medium has the image's identifier.
    DuplicateId,
    /// 11: the image's identifier is one that this library may yet give.
    ForeignId,
    /// 12: the medium, or the machine, is in use.
    InUse,
    /// 13: a snapshot has the medium.
    Frozen,
    /// 14: the machine is running.
    Running,
    /// 15: the machine is not running.
    NotRunning,
    /// 16: a running machine has locked the medium.
    Locked,
    /// 17: another machine has the medium.
    SharedMedium,
    /// 18: the port has a slot.
    SlotTaken,
    /// 19: the machine has the medium.
    AlreadyAttached,
    /// 20: a sector is past the capacity.
    OutOfRange,
    /// 21: the medium is read-only.
    WriteProtected,
    /// 22: the snapshot has so many dependents.
    HasChildren(u32),
    /// 23: the new capacity is smaller.
    Shrinks,
    /// 24: this is no capacity that a medium can have.
    BadSize,
    /// 25: the medium is of another kind.
    WrongKind,
    /// 26: there would be too many.
    Full(Which),
    /// 27: there are no more identifiers.
    IdsSpent,
    /// 28: files are no chain: the place of the first that is not linked, from 0.
    BrokenChain(u32),
    /// 29: the target's capacity is smaller.
    TooSmall,
    /// 30: the machine has no current snapshot.
    NoCurrent,
}

/// A machine in a list of machines.
#[derive(Drop)]
pub struct VmLine {
    pub name: Text,
    pub running: bool,
}

/// A list of machines.
pub type VmLines = Sequence<VmLine>;

/// A snapshot in a list of snapshots.
#[derive(Drop)]
pub struct SnapLine {
    pub name: Text,
    pub parent: Option<Text>,
}

/// A list of snapshots.
pub type SnapLines = Sequence<SnapLine>;

/// What a command answers.
#[derive(Drop)]
pub enum Answer {
    /// It is done.
    Done,
    /// The identifier of the medium that was made, opened or written.
    Id(Uuid),
    /// What is known of a medium; the capacity is in bytes.
    Info {
        id: Uuid,
        modify: Uuid,
        mode: Mode,
        variant: Variant,
        capacity: u64,
        frozen: bool,
    },
    /// A number of blocks.
    Count(u64),
    /// The names of all media.
    MediaList(Names),
    /// All machines.
    VmList(VmLines),
    /// The snapshots of a machine, and the current one.
    SnapList {
        current: Option<Text>,
        lines: SnapLines,
    },
    /// The bytes of sectors.
    Sectors(Bytes),
    /// It is refused.
    Refused(Refusal),
}
