//! The text of scenarios.

use crate::answers::{Check, add_number};
use crate::disks::{put_file, remove_file, run_well, waiting};
use crate::ended::Ended;
use crate::pieces::{bytes_of, expanded, first_word, read_number};
use crate::runs::Streams;
use crate::scenario::{Case, Form, Play, Scenario, Unsettled};
use std::alloc::Global;
use vbm_memdisk::Pick;

/// Reads the scenarios of a text, and makes their files.
pub(crate) fn read_scenarios(alloc: Global, text: &str) -> Result<Vec<Scenario>, Ended> {
    let mut scenarios = Vec::new(alloc);
    let mut number = 0usize;
    for line in text.lines() {
        number = number.saturating_add(1);
        match read_line(alloc, &mut scenarios, number, line.trim()) {
            Ok(()) => {}
            Err(ended) => return Err(ended.at(number)),
        }
    }
    for scenario in &scenarios {
        if let Some((line, what)) = scenario.lack() {
            return Err(Ended::At(line, what));
        }
    }
    Ok(scenarios)
}

// Reads a line of the text, which has no space at its ends.
fn read_line(
    alloc: Global,
    scenarios: &mut Vec<Scenario>,
    number: usize,
    line: &str,
) -> Result<(), Ended> {
    if line.is_empty() || line.starts_with('#') {
        return Ok(());
    }
    let (word, rest) = first_word(line);
    let text = String::from_str(alloc, rest)?;
    if word == "scenario" {
        scenarios.push(Scenario::new(alloc, number, text)?)?;
        return Ok(());
    }
    match scenarios.last_mut() {
        Some(scenario) if word == "case" => scenario.add_case(alloc, number, text),
        Some(scenario) => read_part(alloc, scenario, word, rest),
        None => Err(Ended::Here("no scenario yet")),
    }
}

// Reads what is not said of one case.
fn read_part(alloc: Global, scenario: &mut Scenario, word: &str, rest: &str) -> Result<(), Ended> {
    match word {
        "unsettled" => read_unsettled(alloc, scenario, rest),
        "ask" => scenario.asking.add(Form::Script, script_line(alloc, rest)?),
        "ask-words" => add_words(alloc, &mut scenario.asking, rest),
        "byte" => scenario.add_byte(read_byte(rest)?),
        "stops" | "faults" | "once" | "violations" => {
            set_mark(scenario, word);
            Ok(())
        }
        _ => read_case(alloc, scenario.case_mut(), word, rest),
    }
}

fn set_mark(scenario: &mut Scenario, word: &str) {
    match word {
        "stops" => scenario.stops = true,
        "faults" => scenario.faults = true,
        "once" => scenario.once = true,
        _ => scenario.violations = true,
    }
}

// Reads what is said of a case, or of all cases of a scenario.
fn read_case(alloc: Global, case: &mut Case, word: &str, rest: &str) -> Result<(), Ended> {
    match word {
        "run" => run_well(alloc, &mut case.start, rest),
        "file" => read_file(alloc, case, rest),
        "without" => remove_file(&mut case.start, rest.as_bytes()),
        "waiting" => read_waiting(alloc, case, rest),
        "line" | "input" | "words" | "arguments" => read_tested(alloc, case, word, rest),
        "heads" => read_heads(alloc, case, rest),
        "tail" => read_tail(alloc, case, rest),
        "answer" | "each" | "status" | "calls" => read_answer(alloc, case, word, rest),
        "absent" | "bytes" | "has" | "length" | "unchanged" => {
            case.checks.push(Check::new(alloc, word, rest)?)?;
            Ok(())
        }
        _ => read_streams(alloc, case, word, rest),
    }
}

fn read_file(alloc: Global, case: &mut Case, rest: &str) -> Result<(), Ended> {
    let (name, pieces) = first_word(rest);
    put_file(alloc, &mut case.start, name.as_bytes(), pieces)
}

fn read_waiting(alloc: Global, case: &mut Case, rest: &str) -> Result<(), Ended> {
    let (pick, words) = first_word(rest);
    let pick = read_pick(pick)?;
    case.start = waiting(alloc, &case.start, pick, words)?;
    Ok(())
}

fn read_unsettled(alloc: Global, scenario: &mut Scenario, rest: &str) -> Result<(), Ended> {
    let (name, pieces) = first_word(rest);
    let bytes = bytes_of(alloc, pieces)?;
    let name = String::from_str(alloc, name)?;
    scenario.unsettled.push(Unsettled { name, bytes })?;
    Ok(())
}

// Reads what is run: a line, bytes of a script, words, or words as bytes.
fn read_tested(alloc: Global, case: &mut Case, word: &str, rest: &str) -> Result<(), Ended> {
    match word {
        "line" => case.tested.add(Form::Script, script_line(alloc, rest)?),
        "input" => case.tested.add(Form::Script, bytes_of(alloc, rest)?),
        "words" => add_words(alloc, &mut case.tested, rest),
        _ => case.tested.add(Form::Words, bytes_of(alloc, rest)?),
    }
}

fn script_line(alloc: Global, line: &str) -> Result<Vec<u8>, Ended> {
    let mut bytes = Vec::from_slice(alloc, line.as_bytes())?;
    bytes.push(b'\n')?;
    Ok(bytes)
}

fn add_words(alloc: Global, play: &mut Play, words: &str) -> Result<(), Ended> {
    play.add(Form::Words, Vec::from_slice(alloc, words.as_bytes())?)
}

fn read_heads(alloc: Global, case: &mut Case, rest: &str) -> Result<(), Ended> {
    for head in rest.split_whitespace() {
        case.heads.push(String::from_str(alloc, head)?)?;
    }
    Ok(())
}

// Adds a line for each head.
fn read_tail(alloc: Global, case: &mut Case, tail: &str) -> Result<(), Ended> {
    for head in &case.heads {
        let head = head.as_str();
        let line = format!(in alloc; "{head} {tail}")?;
        case.tested
            .add(Form::Script, script_line(alloc, line.as_str())?)?;
    }
    Ok(())
}

// Reads what is wanted in answer: of the next line, or of each that is under test.
fn read_answer(alloc: Global, case: &mut Case, word: &str, rest: &str) -> Result<(), Ended> {
    let tested = case.tested.lines.len();
    match word {
        "answer" => add_answers(alloc, case, rest, 1),
        "each" => add_answers(alloc, case, rest, tested),
        "calls" => {
            case.calls = Some(read_number(rest)?);
            Ok(())
        }
        _ => add_number(alloc, &mut case.answers, word, read_number(rest)?),
    }
}

fn add_answers(alloc: Global, case: &mut Case, text: &str, count: usize) -> Result<(), Ended> {
    let answer = expanded(alloc, text)?;
    for _ in 0..count {
        case.answers.extend_from_slice(&answer)?;
        case.answers.push(b'\n')?;
    }
    Ok(())
}

// Reads the numbers with each of which a case is run.
fn read_streams(alloc: Global, case: &mut Case, word: &str, rest: &str) -> Result<(), Ended> {
    let mut varied = Vec::new(alloc);
    for streams in &case.streams {
        for number in rest.split_whitespace() {
            varied.push(with_number(*streams, word, read_number(number)?)?)?;
        }
    }
    case.streams = varied;
    Ok(())
}

fn with_number(streams: Streams, word: &str, number: u64) -> Result<Streams, Ended> {
    let mut streams = streams;
    match word {
        "piece" => streams.piece = number,
        "source-fails-after" => streams.fails_after = Some(number),
        "sink-limit" => streams.limit = Some(number),
        "most" => streams.most = number,
        _ => return Err(Ended::Here("an unknown word")),
    }
    Ok(streams)
}

fn read_pick(word: &str) -> Result<Pick, Ended> {
    match word {
        "old" => Ok(Pick::Old),
        "new" => Ok(Pick::New),
        _ => Ok(Pick::Byte(read_byte(word)?)),
    }
}

fn read_byte(word: &str) -> Result<u8, Ended> {
    match word.parse::<u8>() {
        Ok(byte) => Ok(byte),
        Err(_) => Err(Ended::Here("no byte")),
    }
}
