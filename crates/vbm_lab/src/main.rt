//! A laboratory for stops and faults: runs the scenarios of standard input on disks in memory.
//!
//! The text of scenarios is in docs/LAB.md.
#![tactic(auto)]

mod answers;
mod disks;
mod ended;
mod findings;
mod pieces;
mod reading;
mod right;
mod runs;
mod scenario;
mod trying;

use crate::answers::try_cases;
use crate::ended::Ended;
use crate::findings::Findings;
use crate::reading::read_scenarios;
use crate::right::right_of;
use crate::scenario::Scenario;
use crate::trying::{Bench, Kind, try_calls};
use std::alloc::Global;
use std::io;
use std::process::ExitCode;

fn main(rt: HostRuntime) -> ExitCode {
    match try_all(&rt) {
        Ok(true) => ExitCode::from(0),
        Ok(false) => ExitCode::from(1),
        Err(Ended::At(line, what)) => {
            let _ = println!(rt; "line {line}: {what}");
            ExitCode::from(2)
        }
        Err(Ended::Here(_)) => ExitCode::from(2),
        Err(Ended::Input) => ExitCode::from(4),
        Err(Ended::Output) => ExitCode::from(5),
        Err(Ended::Memory) => ExitCode::from(6),
    }
}

// Tries all scenarios of standard input, and gives whether each ended as it has to.
fn try_all(rt: &(impl Print + Input + AllocGlobal)) -> Result<bool, Ended> {
    let alloc = rt.alloc();
    let Ok(text) = io::read_to_string(alloc, rt.reader()) else {
        return Err(Ended::Input);
    };
    let mut is_well = true;
    for scenario in &read_scenarios(alloc, text.as_str())? {
        if !try_scenario(rt, alloc, scenario)? {
            is_well = false;
        }
    }
    Ok(is_well)
}

// Tries a scenario, and gives whether it ended as it has to.
fn try_scenario(rt: &impl Print, alloc: Global, scenario: &Scenario) -> Result<bool, Ended> {
    let are_answered = scenario.cases.is_empty() || try_answers(rt, alloc, scenario)?;
    let are_stopped = !scenario.stops && !scenario.faults || try_kinds(rt, alloc, scenario)?;
    Ok(are_answered && are_stopped)
}

fn try_answers(rt: &impl Print, alloc: Global, scenario: &Scenario) -> Result<bool, Ended> {
    let findings = try_cases(alloc, scenario)?;
    if tell_answers(rt, scenario, &findings).is_err() {
        return Err(Ended::Output);
    }
    Ok((findings.violations > 0) == scenario.violations)
}

fn try_kinds(rt: &impl Print, alloc: Global, scenario: &Scenario) -> Result<bool, Ended> {
    let right = &right_of(alloc, scenario)?;
    let mut is_well = true;
    for kind in [Kind::Stop, Kind::Fault] {
        let bench = Bench {
            alloc,
            scenario,
            right,
            kind,
        };
        if is_asked(scenario, kind) && !try_kind(rt, bench)? {
            is_well = false;
        }
    }
    Ok(is_well)
}

fn is_asked(scenario: &Scenario, kind: Kind) -> bool {
    match kind {
        Kind::Stop => scenario.stops,
        Kind::Fault => scenario.faults,
    }
}

fn try_kind(rt: &impl Print, bench: Bench) -> Result<bool, Ended> {
    let findings = try_calls(bench)?;
    if tell(rt, bench, &findings).is_err() {
        return Err(Ended::Output);
    }
    Ok((findings.violations > 0) == bench.scenario.violations)
}

// Prints the line of a scenario, and the violations.
fn tell(rt: &impl Print, bench: Bench, findings: &Findings) -> io::Result<()> {
    let name = bench.scenario.all.name.as_str();
    let word = match bench.kind {
        Kind::Stop => "stops",
        Kind::Fault => "faults",
    };
    let calls = bench.right.calls;
    let images = findings.images;
    let before = findings.before;
    let after = findings.after;
    print!(rt; "{name}: {word}, {calls} calls, {images} images, {before} before, {after} after")?;
    let reopenings = findings.reopenings;
    let violations = findings.violations;
    println!(rt; ", {reopenings} reopenings stopped, {violations} violations")?;
    tell_violations(rt, findings)
}

// Prints the line of a scenario with cases, and the violations.
fn tell_answers(rt: &impl Print, scenario: &Scenario, findings: &Findings) -> io::Result<()> {
    let name = scenario.all.name.as_str();
    let cases = scenario.cases.len();
    let runs = findings.runs;
    let violations = findings.violations;
    println!(rt; "{name}: answers, {cases} cases, {runs} runs, {violations} violations")?;
    tell_violations(rt, findings)
}

fn tell_violations(rt: &impl Print, findings: &Findings) -> io::Result<()> {
    for line in &findings.told {
        println!(rt; "  {line}")?;
    }
    Ok(())
}
