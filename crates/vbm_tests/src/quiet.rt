//! A disk in memory that tells nothing, so that tests owe nothing of its files.

use std::alloc::Global;
use vbm_memdisk::MemDisk;
use vbm_ports::{Disk, Failed};

/// A disk in memory.
#[derive(Drop)]
pub(crate) struct QuietDisk {
    pub(crate) disk: MemDisk,
}

impl QuietDisk {
    /// A disk without files.
    pub(crate) fn new(alloc: Global) -> QuietDisk {
        QuietDisk {
            disk: MemDisk::new(alloc),
        }
    }
}

impl Disk for QuietDisk {
    ghost use Rattle.std.specs.Prelude.{◌-◌, ◌^◌, None};

    ghost tells = { ⊥ };

    // The counts stand at their last value.
    ghost state = { λ _. record {
      files = λ name. None;
      may_leave = λ image. ⊥;
      moment = 0;
      left_since = λ t image. ⊥;
      calls = 2 ^ 64 - 1;
      faults = 2 ^ 64 - 1;
    } };

    fn length(&mut self, name: &[u8]) -> Result<Option<u64>, Failed> {
        self.disk.length(name)
    }

    fn read(&mut self, name: &[u8], at: u64, out: &mut [u8]) -> Result<usize, Failed> {
        self.disk.read(name, at, out)
    }

    fn write(&mut self, name: &[u8], at: u64, bytes: &[u8]) -> Result<(), Failed> {
        self.disk.write(name, at, bytes)
    }

    fn cut(&mut self, name: &[u8], len: u64) -> Result<(), Failed> {
        self.disk.cut(name, len)
    }

    fn remove(&mut self, name: &[u8]) -> Result<(), Failed> {
        self.disk.remove(name)
    }

    fn sync(&mut self) -> Result<(), Failed> {
        self.disk.sync()
    }

    ghost coherent = { λ disk. record {
      read_is_image = λ told. absurd told;
      counts_now = λ t image le now. absurd now;
      only_now = λ image left. absurd left;
      short = λ told. absurd told;
    } };
}
