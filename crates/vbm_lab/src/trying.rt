//! Runs that are stopped at each call of the disk, or in which each call fails.

use crate::disks::{ask, begin, copy, has_same_files};
use crate::ended::Ended;
use crate::findings::{Findings, Place};
use crate::right::{Right, count_lines};
use crate::runs::{Outcome, run_play};
use crate::scenario::Scenario;
use std::alloc::Global;
use vbm_memdisk::{MemDisk, Pick};
use vbm_top::status;

/// What becomes of a call.
#[derive(Clone, Copy)]
pub(crate) enum Kind {
    /// From it on nothing is done.
    Stop,
    /// It fails, and those after it do not.
    Fault,
}

/// What is tried, and what has to come of it.
#[derive(Clone, Copy)]
pub(crate) struct Bench<'a> {
    pub(crate) alloc: Global,
    pub(crate) scenario: &'a Scenario,
    pub(crate) right: &'a Right,
    pub(crate) kind: Kind,
}

impl Bench<'_> {
    // What a crash leaves of a reopening: the byte of the image, or the first.
    fn torn_pick(self, place: Place) -> Pick {
        match (place.pick, self.scenario.bytes()) {
            (Pick::Byte(byte), _) => Pick::Byte(byte),
            (_, [byte, ..]) => Pick::Byte(*byte),
            _ => Pick::New,
        }
    }
}

/// Tries each call of the lines under test, with each image that a crash may leave then.
pub(crate) fn try_calls(bench: Bench) -> Result<Findings, Ended> {
    let mut findings = Findings::new(bench.alloc);
    try_pick(bench, Pick::Old, &mut findings)?;
    try_pick(bench, Pick::New, &mut findings)?;
    for byte in bench.scenario.bytes() {
        try_pick(bench, Pick::Byte(*byte), &mut findings)?;
    }
    Ok(findings)
}

// Tries each call with one kind of image. Where an image is the same as the one of the call before, its reopening is not stopped
// again.
fn try_pick(bench: Bench, pick: Pick, findings: &mut Findings) -> Result<(), Ended> {
    let mut last = MemDisk::new(bench.alloc);
    for call in 0..bench.right.calls {
        let reopening = None;
        let place = Place {
            call,
            pick,
            reopening,
        };
        let mut disk = begin(bench.scenario)?;
        let answered = run_broken(bench, &mut disk, place, findings)?;
        let image = disk.images_of_last_sync(pick)?;
        let is_new = call == 0 || !has_same_files(&image, &last)?;
        check_image(bench, &image, answered, is_new, place, findings)?;
        last = image;
    }
    Ok(())
}

// Runs the lines under test, in which a call is stopped or fails, and gives how many answers were written whole.
fn run_broken(
    bench: Bench,
    disk: &mut MemDisk,
    place: Place,
    findings: &mut Findings,
) -> Result<usize, Ended> {
    let call = place.call.saturating_add(bench.right.first);
    match bench.kind {
        Kind::Stop => disk.stop_at(call),
        Kind::Fault => disk.fail_call(call)?,
    }
    let outcome = run_play(bench.alloc, disk, &bench.scenario.all.tested)?;
    check_outcome(bench.alloc, &outcome, &bench.right.written, place, findings)?;
    Ok(count_lines(&outcome.written))
}

// A run that the disk broke off ends with the status of that, and writes a beginning of what the whole run writes.
fn check_outcome(
    alloc: Global,
    outcome: &Outcome,
    whole: &[u8],
    place: Place,
    findings: &mut Findings,
) -> Result<(), Ended> {
    if outcome.status == status::DISK_FAULT && whole.starts_with(&outcome.written) {
        return Ok(());
    }
    let wanted = Outcome {
        status: status::DISK_FAULT,
        written: Vec::from_slice(alloc, whole)?,
    };
    findings.add(place, &wanted.text(alloc)?, &outcome.text(alloc)?)
}

// An image stands after the lines that were answered, or after one more.
fn check_image(
    bench: Bench,
    image: &MemDisk,
    answered: usize,
    is_new: bool,
    place: Place,
    findings: &mut Findings,
) -> Result<(), Ended> {
    findings.images = findings.images.saturating_add(1);
    let mut disk = copy(image)?;
    let found = ask(bench.alloc, &mut disk, bench.scenario)?;
    let Some(n) = bench.right.place_of(&found, answered) else {
        let wanted = bench.right.wanted(bench.alloc, answered)?;
        return findings.add(place, &wanted, &found);
    };
    findings.count(n > answered || n == bench.scenario.all.tested.lines.len());
    if is_new && !bench.scenario.once {
        for call in 0..disk.calls() {
            stop_reopening(
                bench,
                image,
                &found,
                Place {
                    reopening: Some(call),
                    ..place
                },
                findings,
            )?;
        }
    }
    Ok(())
}

// A reopening that is stopped changes nothing of what the next one finds.
fn stop_reopening(
    bench: Bench,
    image: &MemDisk,
    found: &[u8],
    place: Place,
    findings: &mut Findings,
) -> Result<(), Ended> {
    findings.reopenings = findings.reopenings.saturating_add(1);
    let mut disk = copy(image)?;
    disk.stop_at(place.reopening.unwrap_or(0));
    let outcome = run_play(bench.alloc, &mut disk, &bench.scenario.asking)?;
    check_outcome(bench.alloc, &outcome, found, place, findings)?;
    let mut left = disk.images_of_last_sync(bench.torn_pick(place))?;
    let again = ask(bench.alloc, &mut left, bench.scenario)?;
    if again.as_slice() == found {
        return Ok(());
    }
    findings.add(place, found, &again)
}
