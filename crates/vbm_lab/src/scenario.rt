//! What a scenario says.

use crate::answers::Check;
use crate::ended::Ended;
use crate::runs::{PLAIN, Streams};
use std::alloc::Global;
use vbm_memdisk::{MemDisk, Pick};

/// How lines come to the program.
#[derive(Clone, Copy, PartialEq, Eq)]
pub(crate) enum Form {
    /// All are one script.
    Script,
    /// Each is the program's words, and a run of its own.
    Words,
}

/// Lines that are run.
#[derive(Drop)]
pub(crate) struct Play {
    pub(crate) form: Form,
    /// Those of a script have their ends.
    pub(crate) lines: Vec<Vec<u8>>,
}

impl Play {
    fn new(alloc: Global) -> Play {
        Play {
            form: Form::Script,
            lines: Vec::new(alloc),
        }
    }

    /// One line more, of the form of those before.
    pub(crate) fn add(&mut self, form: Form, line: Vec<u8>) -> Result<(), Ended> {
        if !self.lines.is_empty() && self.form != form {
            return Err(Ended::Here("lines of two forms"));
        }
        self.form = form;
        self.lines.push(line)?;
        Ok(())
    }

    fn copy(&self) -> Result<Play, Ended> {
        Ok(Play {
            form: self.form,
            lines: self.lines.clone()?,
        })
    }
}

/// A file that is written before each run, and not settled.
#[derive(Drop)]
pub(crate) struct Unsettled {
    pub(crate) name: String,
    pub(crate) bytes: Vec<u8>,
}

/// Files, lines that are run on them, and what has to come of it.
#[derive(Drop)]
pub(crate) struct Case {
    /// The number of its first line, from 1.
    pub(crate) line: usize,
    pub(crate) name: String,
    /// The files that are there before.
    pub(crate) start: MemDisk,
    pub(crate) tested: Play,
    /// Words that begin lines.
    pub(crate) heads: Vec<String>,
    /// With each of these it is run once.
    pub(crate) streams: Vec<Streams>,
    /// The answers that are wanted, and the statuses that they do not tell, each with its line's end.
    pub(crate) answers: Vec<u8>,
    /// How many calls of the disk are wanted, if that is told.
    pub(crate) calls: Option<u64>,
    pub(crate) checks: Vec<Check>,
}

impl Case {
    fn new(alloc: Global, line: usize, name: String) -> Result<Case, Ended> {
        let mut streams = Vec::new(alloc);
        streams.push(PLAIN)?;
        Ok(Case {
            line,
            name,
            start: MemDisk::new(alloc),
            tested: Play::new(alloc),
            heads: Vec::new(alloc),
            streams,
            answers: Vec::new(alloc),
            calls: None,
            checks: Vec::new(alloc),
        })
    }

    // One that begins with what this one says.
    fn begun(&self, alloc: Global, line: usize, name: String) -> Result<Case, Ended> {
        Ok(Case {
            line,
            name,
            start: self.start.images_of_last_sync(Pick::New)?,
            tested: self.tested.copy()?,
            heads: self.heads.clone()?,
            streams: self.streams.clone()?,
            answers: self.answers.clone()?,
            calls: self.calls,
            checks: copies_of(alloc, &self.checks)?,
        })
    }
}

fn copies_of(alloc: Global, checks: &[Check]) -> Result<Vec<Check>, Ended> {
    let mut copies = Vec::new(alloc);
    for check in checks {
        copies.push(check.copy()?)?;
    }
    Ok(copies)
}

/// What is tried, and from where.
#[derive(Drop)]
pub(crate) struct Scenario {
    /// What it says itself, with which each of its cases begins.
    pub(crate) all: Case,
    pub(crate) cases: Vec<Case>,
    pub(crate) unsettled: Vec<Unsettled>,
    pub(crate) asking: Play,
    /// The bytes of which each is all over what was written since the last sync. None are one 7.
    bytes: Vec<u8>,
    pub(crate) stops: bool,
    pub(crate) faults: bool,
    /// Whether the reopening of an image is not stopped.
    pub(crate) once: bool,
    /// Whether violations are wanted.
    pub(crate) violations: bool,
}

impl Scenario {
    /// One that says nothing but its name.
    pub(crate) fn new(alloc: Global, line: usize, name: String) -> Result<Scenario, Ended> {
        Ok(Scenario {
            all: Case::new(alloc, line, name)?,
            cases: Vec::new(alloc),
            unsettled: Vec::new(alloc),
            asking: Play::new(alloc),
            bytes: Vec::new(alloc),
            stops: false,
            faults: false,
            once: false,
            violations: false,
        })
    }

    /// One case more.
    pub(crate) fn add_case(
        &mut self,
        alloc: Global,
        line: usize,
        name: String,
    ) -> Result<(), Ended> {
        self.cases.push(self.all.begun(alloc, line, name)?)?;
        Ok(())
    }

    /// The case that is being read, or what the scenario says itself.
    pub(crate) fn case_mut(&mut self) -> &mut Case {
        match self.cases.last_mut() {
            Some(case) => case,
            None => &mut self.all,
        }
    }

    /// One byte more.
    pub(crate) fn add_byte(&mut self, byte: u8) -> Result<(), Ended> {
        self.bytes.push(byte)?;
        Ok(())
    }

    /// The bytes of which each is all over what was written since the last sync.
    pub(crate) fn bytes(&self) -> &[u8] {
        if self.bytes.is_empty() {
            return &[7];
        }
        self.bytes.as_slice()
    }

    /// What it lacks, and in which line.
    pub(crate) fn lack(&self) -> Option<(usize, &'static str)> {
        for case in &self.cases {
            if case.tested.lines.is_empty() {
                return Some((case.line, "no line under test"));
            }
        }
        if !self.cases.is_empty() && !self.stops && !self.faults {
            return None;
        }
        self.lack_of_tries().map(|what| (self.all.line, what))
    }

    fn lack_of_tries(&self) -> Option<&'static str> {
        if self.all.tested.lines.is_empty() {
            return Some("no line under test");
        }
        if self.asking.lines.is_empty() {
            return Some("no line that asks");
        }
        if !self.stops && !self.faults {
            return Some("neither stops nor faults nor cases");
        }
        None
    }
}
