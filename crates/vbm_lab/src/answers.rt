//! Cases: what their lines are answered, and what is in the files afterwards.

use crate::disks::{copy, has_same_files};
use crate::ended::Ended;
use crate::findings::Findings;
use crate::pieces::{first_word, put_pieces, read_number};
use crate::runs::{Outcome, Streams, run_script, run_words};
use crate::scenario::{Case, Form, Scenario};
use std::alloc::Global;
use vbm_memdisk::{MemDisk, Pick};
use vbm_top::status;

/// So many bytes of a file that is not as wanted are told.
const MOST_SHOWN: usize = 64;

/// What is said of a file.
#[derive(Clone, Copy)]
enum Word {
    /// It is absent.
    Absent,
    /// It has these bytes.
    Bytes,
    /// It has these bytes at their places.
    Has,
    /// It has so many bytes.
    Length,
    /// It is as it was before, or all files are.
    Unchanged,
}

/// What has to be so in the files afterwards.
#[derive(Drop)]
pub(crate) struct Check {
    word: Word,
    /// The word, the file, and what else the word takes.
    text: String,
}

impl Check {
    /// What is said by a word, a file, and what else the word takes.
    pub(crate) fn new(alloc: Global, word: &str, rest: &str) -> Result<Check, Ended> {
        let text = format!(in alloc; "{word} {rest}")?;
        let word = match word {
            "absent" => Word::Absent,
            "bytes" => Word::Bytes,
            "has" => Word::Has,
            "length" => Word::Length,
            _ => Word::Unchanged,
        };
        Ok(Check { word, text })
    }

    /// The same.
    pub(crate) fn copy(&self) -> Result<Check, Ended> {
        let text = self.text.clone()?;
        Ok(Check {
            word: self.word,
            text,
        })
    }

    // The file, and what else the word takes.
    fn parts(&self) -> (&str, &str) {
        let (_, rest) = first_word(self.text.as_str());
        first_word(rest)
    }

    /// Whether it is so on a disk.
    pub(crate) fn holds(
        &self,
        alloc: Global,
        before: &MemDisk,
        disk: &MemDisk,
    ) -> Result<bool, Ended> {
        let (name, rest) = self.parts();
        let file = disk.file(name.as_bytes());
        match self.word {
            Word::Absent => Ok(file.is_none()),
            Word::Bytes => is_with(alloc, file, b"", rest),
            Word::Has => is_with(alloc, file, file.unwrap_or(b""), rest),
            Word::Length => Ok(length_of(file) == Some(read_number(rest)?)),
            Word::Unchanged if name.is_empty() => has_same_files(before, disk),
            Word::Unchanged => Ok(file == before.file(name.as_bytes())),
        }
    }

    // What is found in place of it.
    fn found(&self, alloc: Global, disk: &MemDisk) -> Result<Vec<u8>, Ended> {
        let (name, _) = self.parts();
        if name.is_empty() {
            return Ok(Vec::from_slice(alloc, b"other files")?);
        }
        let Some(file) = disk.file(name.as_bytes()) else {
            return Ok(Vec::from_slice(alloc, b"absent")?);
        };
        let len = file.len();
        let front = file.get(..MOST_SHOWN).unwrap_or(file);
        let digits = hex::encode(alloc, front)?;
        let text = format!(in alloc; "{len} bytes, {digits}")?;
        Ok(Vec::from_slice(alloc, text.as_bytes())?)
    }
}

fn length_of(file: Option<&[u8]>) -> Option<u64> {
    file.map(|bytes| bytes.len() as u64)
}

// Whether a file is these bytes with the pieces of a text over them.
fn is_with(alloc: Global, file: Option<&[u8]>, bytes: &[u8], pieces: &str) -> Result<bool, Ended> {
    let mut wanted = Vec::from_slice(alloc, bytes)?;
    put_pieces(alloc, &mut wanted, pieces)?;
    Ok(file == Some(wanted.as_slice()))
}

/// Tries the cases of a scenario.
pub(crate) fn try_cases(alloc: Global, scenario: &Scenario) -> Result<Findings, Ended> {
    let mut findings = Findings::new(alloc);
    for case in &scenario.cases {
        for streams in &case.streams {
            match try_case(alloc, case, *streams, &mut findings) {
                Ok(()) => {}
                Err(ended) => return Err(ended.at(case.line)),
            }
        }
    }
    Ok(findings)
}

// Runs a case with these streams. The files are looked at as they are then, and as a crash leaves them.
fn try_case(
    alloc: Global,
    case: &Case,
    streams: Streams,
    findings: &mut Findings,
) -> Result<(), Ended> {
    findings.runs = findings.runs.saturating_add(1);
    let mut disk = copy(&case.start)?;
    let found = answers_of(alloc, &mut disk, case, streams)?;
    let wanted = wanted_of(alloc, case, streams)?;
    if found.as_slice() != wanted.as_slice() {
        findings.tell(place_of(alloc, case, streams)?, &wanted, &found)?;
    }
    let left = disk.images_of_last_sync(Pick::Byte(7))?;
    check_files(alloc, case, &disk, findings)?;
    check_files(alloc, case, &left, findings)
}

fn check_files(
    alloc: Global,
    case: &Case,
    disk: &MemDisk,
    findings: &mut Findings,
) -> Result<(), Ended> {
    for check in &case.checks {
        if !check.holds(alloc, &case.start, disk)? {
            let name = case.name.as_str();
            let place = format!(in alloc; "case {name}")?;
            let wanted = check.text.as_str().trim_end();
            findings.tell(place, wanted.as_bytes(), &check.found(alloc, disk)?)?;
        }
    }
    Ok(())
}

fn place_of(alloc: Global, case: &Case, streams: Streams) -> Result<String, Ended> {
    let name = case.name.as_str();
    let piece = streams.piece;
    Ok(format!(in alloc; "case {name}, {piece} bytes at once")?)
}

// What the lines of a case are answered.
fn answers_of(
    alloc: Global,
    disk: &mut MemDisk,
    case: &Case,
    streams: Streams,
) -> Result<Vec<u8>, Ended> {
    let mut found = Vec::new(alloc);
    let lines = case.tested.lines.as_slice();
    match case.tested.form {
        Form::Script => {
            let outcome = run_script(alloc, disk, lines, lines.len(), streams)?;
            add_outcome(alloc, &mut found, &outcome)?;
        }
        Form::Words => {
            for line in lines {
                let outcome = run_words(alloc, disk, line, streams)?;
                add_outcome(alloc, &mut found, &outcome)?;
            }
        }
    }
    if case.calls.is_some() {
        add_number(alloc, &mut found, "calls", disk.calls())?;
    }
    Ok(found)
}

// Adds what a run wrote, and its status where the answers do not tell it.
fn add_outcome(alloc: Global, text: &mut Vec<u8>, outcome: &Outcome) -> Result<(), Ended> {
    text.extend_from_slice(outcome.written.as_slice())?;
    if outcome.status != outcome.told_status() {
        add_number(alloc, text, "status", outcome.status as u64)?;
    }
    Ok(())
}

/// Adds a line of a word and a number.
pub(crate) fn add_number(
    alloc: Global,
    text: &mut Vec<u8>,
    word: &str,
    number: u64,
) -> Result<(), Ended> {
    text.extend_from_slice(format!(in alloc; "{word} {number}\n")?.as_bytes())?;
    Ok(())
}

// What the lines of a case have to be answered: as much of it as the sink takes.
fn wanted_of(alloc: Global, case: &Case, streams: Streams) -> Result<Vec<u8>, Ended> {
    let mut wanted = Vec::from_slice(alloc, case.answers.as_slice())?;
    if let Some(limit) = streams.limit
        && limit < wanted.len() as u64
    {
        wanted.truncate(limit as usize);
        add_number(alloc, &mut wanted, "status", status::OUTPUT_FAULT as u64)?;
    }
    if let Some(calls) = case.calls {
        add_number(alloc, &mut wanted, "calls", calls)?;
    }
    Ok(wanted)
}
