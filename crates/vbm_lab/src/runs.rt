//! Runs of the program on a disk in memory.

use crate::ended::Ended;
use crate::scenario::{Form, Play};
use std::alloc::Global;
use uuid::Uuid;
use vbm_memdisk::{MemDisk, MemSink, MemSource};
use vbm_ports::{Bytes, Text};
use vbm_top::{run, status};

/// How the lines of a run come in, and where its answers go.
#[derive(Clone, Copy)]
pub(crate) struct Streams {
    /// The most bytes of one take.
    pub(crate) piece: u64,
    /// How many bytes of the source come before it fails, if it does.
    pub(crate) fails_after: Option<u64>,
    /// How many bytes make lines.
    pub(crate) most: u64,
    /// How many bytes the sink takes, if not all.
    pub(crate) limit: Option<u64>,
}

/// Streams that do not fail.
pub(crate) const PLAIN: Streams = Streams {
    piece: 4096,
    fails_after: None,
    most: 1 << 20,
    limit: None,
};

/// What a run did.
#[derive(Drop)]
pub(crate) struct Outcome {
    pub(crate) status: u8,
    pub(crate) written: Vec<u8>,
}

impl Outcome {
    /// What was written, and a line with the status.
    pub(crate) fn text(&self, alloc: Global) -> Result<Vec<u8>, Ended> {
        let status = self.status;
        let mut text = Vec::from_slice(alloc, self.written.as_slice())?;
        text.extend_from_slice(format!(in alloc; "status {status}")?.as_bytes())?;
        Ok(text)
    }

    /// The status that the answers tell: that a store is refused, that a line is, or neither.
    pub(crate) fn told_status(&self) -> u8 {
        let mut lines = self.written.split(|c| *c == b'\n');
        if self.written.starts_with(b"store ") {
            status::STORE_REFUSED
        } else if lines.any(|line| line.starts_with(b"error ")) {
            status::REFUSED
        } else {
            status::DONE
        }
    }
}

/// Runs the first n lines of a play. As words they are runs in a row, up to the first in which the disk fails.
pub(crate) fn run_some(
    alloc: Global,
    disk: &mut MemDisk,
    play: &Play,
    n: usize,
) -> Result<Outcome, Ended> {
    match play.form {
        Form::Script => run_script(alloc, disk, &play.lines, n, PLAIN),
        Form::Words => run_row(alloc, disk, &play.lines, n),
    }
}

/// Runs all lines of a play.
pub(crate) fn run_play(alloc: Global, disk: &mut MemDisk, play: &Play) -> Result<Outcome, Ended> {
    run_some(alloc, disk, play, play.lines.len())
}

/// Runs a line as the program's words, with one space between two. An empty line has none.
pub(crate) fn run_words(
    alloc: Global,
    disk: &mut MemDisk,
    line: &[u8],
    streams: Streams,
) -> Result<Outcome, Ended> {
    let mut words = Vec::new(alloc);
    if !line.is_empty() {
        for word in line.split(|c| *c == b' ') {
            words.push(Text::new(alloc, word)?)?;
        }
    }
    run_once(alloc, disk, words.as_slice(), Bytes::new(alloc), streams)
}

fn run_row(
    alloc: Global,
    disk: &mut MemDisk,
    lines: &[Vec<u8>],
    n: usize,
) -> Result<Outcome, Ended> {
    let mut status = status::DONE;
    let mut written = Vec::new(alloc);
    for line in lines.iter().take(n) {
        let one = run_words(alloc, disk, line.as_slice(), PLAIN)?;
        status = one.status;
        written.extend_from_slice(one.written.as_slice())?;
        if status == status::DISK_FAULT {
            break;
        }
    }
    Ok(Outcome { status, written })
}

/// Runs the first n lines as a script.
pub(crate) fn run_script(
    alloc: Global,
    disk: &mut MemDisk,
    lines: &[Vec<u8>],
    n: usize,
    streams: Streams,
) -> Result<Outcome, Ended> {
    let mut script = Vec::new(alloc);
    for line in lines.iter().take(n) {
        script.extend_from_slice(line.as_slice())?;
    }
    let words = [Text::new(alloc, b"script")?];
    run_once(alloc, disk, &words, Bytes::from_vec(script), streams)
}

fn run_once(
    alloc: Global,
    disk: &mut MemDisk,
    words: &[Text],
    script: Bytes,
    streams: Streams,
) -> Result<Outcome, Ended> {
    let piece = streams.piece.clamp(1, 1 << 20) as usize;
    let most = streams.most.min(1 << 40);
    let mut source = MemSource::new(script, piece, streams.fails_after);
    let mut sink = MemSink::new(alloc, streams.limit);
    let fresh = Uuid::nil();
    let status = run(alloc, words, fresh, most, disk, &mut source, &mut sink);
    if status == status::NO_MEMORY || disk.refused() > 0 || sink.refused() > 0 {
        return Err(Ended::Memory);
    }
    let written = Vec::from_slice(alloc, sink.written())?;
    Ok(Outcome { status, written })
}
