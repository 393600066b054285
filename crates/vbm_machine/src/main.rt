//! Runs the plain program of the machine over the lines of standard input, and prints the answers.
//!
//! The lines, and what makes them, are in tests/machine.
#![tactic(auto)]

mod bench;
mod ended;
mod files;
mod reading;
mod worlds;

use crate::bench::Bench;
use crate::ended::Ended;
use std::io;
use std::process::ExitCode;

fn main(rt: HostRuntime) -> ExitCode {
    match run_lines(&rt) {
        Ok(()) => ExitCode::from(0),
        Err(Ended::At(line, what)) => {
            let _ = println!(rt; "line {line}: {what}");
            ExitCode::from(2)
        }
        Err(Ended::Here(_)) => ExitCode::from(2),
        Err(Ended::Input) => ExitCode::from(4),
        Err(Ended::Output) => ExitCode::from(5),
        Err(Ended::Memory) => ExitCode::from(6),
    }
}

// Does the lines of standard input.
fn run_lines(rt: &(impl Print + Input + AllocGlobal)) -> Result<(), Ended> {
    let alloc = rt.alloc();
    let Ok(text) = io::read_to_string(alloc, rt.reader()) else {
        return Err(Ended::Input);
    };
    let mut bench = Bench::new(alloc);
    let mut number = 0usize;
    for line in text.as_str().lines() {
        number = number.saturating_add(1);
        match do_line(rt, &mut bench, line) {
            Ok(()) => {}
            Err(Ended::Here(what)) => return Err(Ended::At(number, what)),
            Err(ended) => return Err(ended),
        }
    }
    Ok(())
}

// Does a line, and prints the answer if it is a command.
fn do_line(rt: &impl Print, bench: &mut Bench, line: &str) -> Result<(), Ended> {
    match bench.run_line(line)? {
        Some(answer) => match println!(rt; "{}", answer.as_str()) {
            Ok(()) => Ok(()),
            Err(_) => Err(Ended::Output),
        },
        None => Ok(()),
    }
}
