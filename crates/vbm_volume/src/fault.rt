//! Why an image was not read.

use vbm_header::BadImage;
use vbm_ports::{Failed, NoMemory};

/// Why a file is no accepted image, or was not read.
#[derive(Clone, Copy, Debug, PartialEq, Eq)]
pub enum MapFault {
    /// The first condition on an image that fails.
    Bad(BadImage),
    /// The disk failed.
    Failed,
    /// There was no memory.
    NoMemory,
}

impl From<BadImage> for MapFault {
    ghost use Rattle.std.specs.Prelude.{◌≡◌};
    ghost use Rattle.vbm_volume.specs.declared.fault.MapFault.TheVariants as faults;

    ghost from_gives = { λ bad fault. fault ≡ faults.Bad bad };

    fn from(bad: BadImage) -> MapFault {
        MapFault::Bad(bad)
    }
}

impl From<Failed> for MapFault {
    ghost use Rattle.std.specs.Prelude.{◌≡◌};
    ghost use Rattle.vbm_volume.specs.declared.fault.MapFault.TheVariants as faults;

    ghost from_gives = { λ _ fault. fault ≡ faults.Failed };

    fn from(_failed: Failed) -> MapFault {
        MapFault::Failed
    }
}

impl From<NoMemory> for MapFault {
    ghost use Rattle.std.specs.Prelude.{◌≡◌};
    ghost use Rattle.vbm_volume.specs.declared.fault.MapFault.TheVariants as faults;

    ghost from_gives = { λ _ fault. fault ≡ faults.NoMemory };

    fn from(_none: NoMemory) -> MapFault {
        MapFault::NoMemory
    }
}
