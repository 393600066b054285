//! What was found.

use crate::ended::Ended;
use std::alloc::{AllocError, Global};
use vbm_memdisk::Pick;

/// So many violations of a scenario are told.
const MOST_TOLD: usize = 20;

/// Where something was found.
#[derive(Clone, Copy)]
pub(crate) struct Place {
    pub(crate) call: u64,
    /// The image that a crash then leaves.
    pub(crate) pick: Pick,
    /// The call at which its reopening is stopped, if it is.
    pub(crate) reopening: Option<u64>,
}

/// Counts of what was tried, and the violations.
#[derive(Drop)]
pub(crate) struct Findings {
    alloc: Global,
    /// Cases that were run.
    pub(crate) runs: u64,
    pub(crate) images: u64,
    pub(crate) before: u64,
    pub(crate) after: u64,
    pub(crate) reopenings: u64,
    pub(crate) violations: u64,
    pub(crate) told: Vec<String>,
}

impl Findings {
    /// Nothing.
    pub(crate) fn new(alloc: Global) -> Findings {
        Findings {
            alloc,
            runs: 0,
            images: 0,
            before: 0,
            after: 0,
            reopenings: 0,
            violations: 0,
            told: Vec::new(alloc),
        }
    }

    /// Counts an image that stands before or after the line under way.
    pub(crate) fn count(&mut self, is_after: bool) {
        if is_after {
            self.after = self.after.saturating_add(1);
        } else {
            self.before = self.before.saturating_add(1);
        }
    }

    /// Counts a violation at a call.
    pub(crate) fn add(&mut self, place: Place, wanted: &[u8], got: &[u8]) -> Result<(), Ended> {
        self.tell(place_text(self.alloc, place)?, wanted, got)
    }

    /// Counts a violation, and tells it while there are few.
    pub(crate) fn tell(&mut self, place: String, wanted: &[u8], got: &[u8]) -> Result<(), Ended> {
        self.violations = self.violations.saturating_add(1);
        if self.told.len() >= MOST_TOLD {
            return Ok(());
        }
        let wanted = String::from_utf8_lossy(self.alloc, wanted)?;
        let got = String::from_utf8_lossy(self.alloc, got)?;
        self.told.push(format!(in self.alloc; "{place}: wanted {wanted:?}, got {got:?}")?)?;
        Ok(())
    }
}

fn place_text(alloc: Global, place: Place) -> Result<String, AllocError> {
    let call = place.call;
    let image = pick_text(alloc, place.pick)?;
    match place.reopening {
        None => format!(in alloc; "call {call}, {image}"),
        Some(at) => format!(in alloc; "call {call}, {image}, reopening stopped at call {at}"),
    }
}

fn pick_text(alloc: Global, pick: Pick) -> Result<String, AllocError> {
    match pick {
        Pick::Old => String::from_str(alloc, "old"),
        Pick::New => String::from_str(alloc, "new"),
        Pick::Byte(byte) => format!(in alloc; "byte {byte}"),
    }
}
