//! `vbm WORDS`: does the command of the words in the current folder.
#![tactic(auto)]

use std::alloc::Global;
use std::env::{Env, FillError};
use std::io::Eprint;
use std::process::ExitCode;
use std::random::RandomSource;
use uuid::Uuid;
use vbm_ports::{FolderDisk, NoMemory, StdinSource, StdoutSink, Text};
use vbm_top::{run, status};

/// The most bytes that are taken from standard input.
const MOST_INPUT: u64 = 1 << 32;

/// The status where the system did not give what the program needs to start.
const SYSTEM_FAULT: u8 = 9;

/// No word of a command is longer, in bytes.
const LONGEST_WORD: usize = 16384;

/// Why a run did not begin.
enum Refused {
    Memory,
    System,
}

impl From<NoMemory> for Refused {
    fn from(_none: NoMemory) -> Refused {
        Refused::Memory
    }
}

fn main(rt: HostRuntime) -> ExitCode {
    let status = match start(&rt) {
        Ok(status) => status,
        Err(Refused::Memory) => status::NO_MEMORY,
        Err(Refused::System) => SYSTEM_FAULT,
    };
    if let Some(meaning) = meaning_of(status) {
        let _ = rt.eprintln(meaning);
    }
    ExitCode::from(status)
}

// Runs the words over the folder and the standard streams.
fn start(rt: &HostRuntime) -> Result<u8, Refused> {
    let alloc = rt.alloc();
    let words = arguments(rt, alloc)?;
    let fresh = random_id(rt)?;
    let mut disk = FolderDisk::new(rt, alloc, Text::new(alloc, b".")?)?;
    let mut source = StdinSource::new(rt);
    let mut sink = StdoutSink::new(rt);
    Ok(run(
        alloc,
        words.as_slice(),
        fresh,
        MOST_INPUT,
        &mut disk,
        &mut source,
        &mut sink,
    ))
}

// The program's arguments as bytes, which need not be text.
fn arguments<R: Env>(rt: &R, alloc: Global) -> Result<Vec<Text>, Refused> {
    let Ok(mut buffer) = vec![in alloc; 0u8; LONGEST_WORD] else {
        return Err(Refused::Memory);
    };
    let mut words = Vec::new(alloc);
    for i in 1..usize::MAX {
        let word = match rt.arg(i, buffer.as_mut_slice()) {
            Ok(len) => Text::new(alloc, &buffer.as_slice()[..len])?,
            // A longer word is of no form, as an empty one is.
            Err(FillError::TooLong) => Text::new(alloc, b"")?,
            Err(FillError::NotPresent) => return Ok(words),
        };
        if words.push(word).is_err() {
            return Err(Refused::Memory);
        }
    }
    Ok(words)
}

fn random_id<R: RandomSource>(rt: &R) -> Result<Uuid, Refused> {
    let mut bytes = [0; 16];
    match rt.fill_bytes(&mut bytes) {
        Ok(()) => Ok(Uuid::from_bytes(bytes)),
        Err(_) => Err(Refused::System),
    }
}

// What standard error says of a status.
fn meaning_of(status: u8) -> Option<&'static str> {
    match status {
        status::NO_FORM => Some("words not understood"),
        status::DISK_FAULT => Some("disk fault"),
        status::INPUT_FAULT => Some("input fault"),
        status::OUTPUT_FAULT => Some("output fault"),
        status::NO_MEMORY => Some("out of memory"),
        status::INPUT_TOO_LONG => Some("input too long"),
        SYSTEM_FAULT => Some("system fault"),
        _ => None,
    }
}
