//! What the runs of a scenario have to give.

use crate::disks::{ask, begin, copy};
use crate::ended::Ended;
use crate::runs::{run_play, run_some};
use crate::scenario::Scenario;
use std::alloc::Global;

/// What comes of the lines under test with no stop.
#[derive(Drop)]
pub(crate) struct Right {
    /// How many calls of the disk come before those of the lines.
    pub(crate) first: u64,
    /// How many calls the lines make.
    pub(crate) calls: u64,
    /// What the lines write.
    pub(crate) written: Vec<u8>,
    /// What the asking lines find after no line, after one, and so on.
    pub(crate) standings: Vec<Vec<u8>>,
}

/// Runs the lines under test with no stop.
pub(crate) fn right_of(alloc: Global, scenario: &Scenario) -> Result<Right, Ended> {
    let mut disk = begin(scenario)?;
    let first = disk.calls();
    let outcome = run_play(alloc, &mut disk, &scenario.all.tested)?;
    let mut standings = Vec::new(alloc);
    for n in 0..=scenario.all.tested.lines.len() {
        standings.push(standing_after(alloc, scenario, n)?)?;
    }
    Ok(Right {
        first,
        calls: disk.calls().saturating_sub(first),
        written: outcome.written,
        standings,
    })
}

// What the asking lines find after the first n lines, each of which has an answer.
fn standing_after(alloc: Global, scenario: &Scenario, n: usize) -> Result<Vec<u8>, Ended> {
    let mut disk = begin(scenario)?;
    if n > 0 {
        let outcome = run_some(alloc, &mut disk, &scenario.all.tested, n)?;
        if count_lines(&outcome.written) != n {
            return Err(Ended::At(scenario.all.line, "not each line under test has one answer"));
        }
    }
    ask(alloc, &mut copy(&disk)?, scenario)
}

/// How many lines were written whole.
pub(crate) fn count_lines(written: &[u8]) -> usize {
    written.iter().filter(|c| **c == b'\n').count()
}

impl Right {
    /// After how many lines it stands so, of which `answered` had their answers written: after so many, or after one more.
    pub(crate) fn place_of(&self, found: &[u8], answered: usize) -> Option<usize> {
        let next = answered.saturating_add(1);
        if self.stands_after(answered, found) {
            Some(answered)
        } else if self.stands_after(next, found) {
            Some(next)
        } else {
            None
        }
    }

    /// What may be found after so many answers.
    pub(crate) fn wanted(&self, alloc: Global, answered: usize) -> Result<Vec<u8>, Ended> {
        let mut text = Vec::new(alloc);
        for standing in self.standings.iter().skip(answered).take(2) {
            if !text.is_empty() {
                text.extend_from_slice(b" or ")?;
            }
            text.extend_from_slice(standing.as_slice())?;
        }
        Ok(text)
    }

    fn stands_after(&self, n: usize, found: &[u8]) -> bool {
        match self.standings.get(n) {
            Some(standing) => standing.as_slice() == found,
            None => false,
        }
    }
}
