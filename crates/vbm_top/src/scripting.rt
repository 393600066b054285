//! Scripts: the lines of a source, each answered before the next is read.

ghost use Rattle.std.specs.Prelude.{◌≡◌, ◌<◌, ◌^◌, ℕ, List, Ok};
ghost use Rattle.vbm_ports.specs.Counts.{IsCounted};
ghost use Rattle.vbm_ports.specs.Files.{Files};
ghost use Rattle.vbm_world.specs.Loose.{Unsettled};
ghost use Rattle.vbm_lines.specs.Lines.{Line};
ghost use Rattle.vbm_standing.specs.Stands.{Stands};
ghost use Rattle.vbm_engine.specs.Serves.{serves, IsSoundEngine, IsReady};
ghost use Rattle.vbm_lines.specs.Reader.{IsAt, left_over};
ghost use Rattle.vbm_top.specs.Statuses.{is_disk_fault};
ghost use Rattle.vbm_top.specs.Streams.{stream, streams};
ghost use Rattle.vbm_top.specs.Script.{RunsLines, RunsScript};
ghost use Rattle.vbm_top.specs.Turns.{IsRequest, IsServedRequest, Asks, asking_failed, OnRequest};

use crate::saying::write_store;
use crate::serving::{Request, Turned, answer_request, close_with, request_of};
use crate::status::Status;
use std::alloc::Global;
use vbm_engine::{Engine, Opened, open};
use vbm_lines::{Lines, Next};
use vbm_ports::{Disk, NoMemory, Sink, Source};

/// What a source asks for next.
#[derive(Drop)]
enum Asked {
    /// What a line asks for.
    Line(Request),
    /// Nothing: all lines were read.
    End,
    /// The source failed.
    Fault,
    /// The input has more bytes than lines are made of.
    TooLong,
    /// There was no memory.
    NoMemory,
}

/// Reads the next line.
fn next_request<S: Source>(alloc: Global, lines: &mut Lines, source: &mut S) -> Asked
    ensures asks { (line : Line) × OnRequest (IsRequest line) result × (S.tells → (input : List ℕ) (before : List Line)
        → IsAt lines.old input (S.rest source.old) before → Asks lines.new input (S.rest source.new) before line result) }
    ensures served { OnRequest IsServedRequest result }
    ensures less { OnRequest (λ _. left_over lines.new < left_over lines.old) result }
    ensures most { lines.new.most ≡ lines.old.most }
    ensures faults { IsCounted (asking_failed result) (S.faults source.old) (S.faults source.new) }
{
    match lines.next_line(source) {
        Ok(Next::Line(line)) => match request_of(alloc, &line) {
            Ok(request) => Asked::Line(request),
            Err(NoMemory) => Asked::NoMemory,
        },
        Ok(Next::Long) => Asked::Line(Request::Bad),
        Ok(Next::End) => Asked::End,
        Ok(Next::ReadFault) => Asked::Fault,
        Ok(Next::Spent) => Asked::TooLong,
        Err(NoMemory) => Asked::NoMemory,
    }
}

/// Answers the lines of a source in their order, each before the next is read, and closes the store.
fn run_lines<D: Disk, S: Source, K: Sink>(
    alloc: Global,
    engine: Engine,
    most: u64,
    disk: &mut D,
    source: &mut S,
    sink: &mut K,
) -> Status
    requires most { most < 2 ^ 63 }
    requires sound { IsSoundEngine engine }
    requires ready { D.tells → (u : Unsettled) → IsReady engine (D.state disk.old) u }
    ensures runs { (files : Files) → (D.tells → Stands files (Ok (serves engine (D.state disk.old).files)))
        → RunsLines D.tells most files (serves engine (D.state disk.old).files) (D.state disk.old) (D.state disk.new)
        (streams (stream S.tells S.rest S.faults source.old source.new)
        (stream K.tells K.written K.faults sink.old sink.new)) result }
    ensures faults { IsCounted (is_disk_fault result) (D.state disk.old).faults (D.state disk.new).faults }
{
    let mut lines = Lines::new(alloc, most);
    let mut engine = engine;
    let mut status = Status::Done;
    'answers: loop {
        let request = match next_request(alloc, &mut lines, source) {
            Asked::Line(request) => request,
            Asked::End => return close_with(engine, disk, status),
            Asked::Fault => return close_with(engine, disk, Status::InputFault),
            Asked::TooLong => return close_with(engine, disk, Status::InputTooLong),
            Asked::NoMemory => return close_with(engine, disk, Status::NoMemory),
        };
        match answer_request(alloc, engine, disk, sink, request) {
            Turned::Broken => return Status::DiskFault,
            Turned::Open(next, said) => {
                if said.ends_run() {
                    return close_with(next, disk, said);
                }
                engine = next;
                status = status.worse(said);
            }
        }
    }
}

/// Runs a script over the store that the disk holds.
pub(crate) fn do_script<D: Disk, S: Source, K: Sink>(
    alloc: Global,
    most: u64,
    disk: &mut D,
    source: &mut S,
    sink: &mut K,
) -> Status
    requires { most < 2 ^ 63 }
    ensures runs { RunsScript D.tells most (D.state disk.old) (D.state disk.new)
        (streams (stream S.tells S.rest S.faults source.old source.new)
        (stream K.tells K.written K.faults sink.old sink.new)) result }
    ensures faults { IsCounted (is_disk_fault result) (D.state disk.old).faults (D.state disk.new).faults }
{
    match open(alloc, disk) {
        Opened::Open(engine) => run_lines(alloc, engine, most, disk, source, sink),
        Opened::Refused(bad) => write_store(alloc, sink, &bad),
        Opened::Fault => Status::DiskFault,
        Opened::NoMemory => Status::NoMemory,
    }
}
