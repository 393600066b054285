//! Commands over an open store, each with its answer's line.

ghost use Rattle.std.specs.Prelude.{◌≡◌, IfOk};
ghost use Rattle.vbm_ports.specs.Counts.{IsCounted};
ghost use Rattle.vbm_ports.specs.Disk.{Passes};
ghost use Rattle.vbm_world.specs.World.{off};
ghost use Rattle.vbm_world.specs.Loose.{Unsettled};
ghost use Rattle.vbm_served.specs.Served.{IsServed};
ghost use Rattle.vbm_lines.specs.Lines.{Line, Short, says_nothing};
ghost use Rattle.vbm_engine.specs.Serves.{serves, IsSoundEngine, FitsDisk, IsReady};
ghost use Rattle.vbm_store.specs.Serves.{StandsLoosely};
ghost use Rattle.vbm_engine.specs.Steps.{IsInCommand};
ghost use Rattle.vbm_top.specs.Streams.{stream};
ghost use Rattle.vbm_top.specs.Run.{Closes, LeavesServed};
ghost use Rattle.vbm_top.specs.Turns.{IsRequest, IsServedRequest, IsSoundTurn, has_broken, TurnsCommand, TurnsLine, IsAtLine};

use crate::saying::write_answer;
use crate::status::Status;
use std::alloc::Global;
use vbm_engine::{Engine, Stepped};
use vbm_lines::{Words, words_of};
use vbm_ports::{Disk, Failed, NoMemory, Sink, Text};
use vbm_script::{ParseFault, parse};
use vbm_world::{Answer, Command, Refusal};

/// What a line asks for.
#[derive(Drop)]
pub(crate) enum Request {
    /// Nothing: it is empty or a comment.
    Skip,
    /// It is no command.
    Bad,
    /// A command.
    Do(Command),
}

/// What a command or a line comes to.
#[derive(Drop)]
pub(crate) enum Turned {
    /// The engine, and the status of the answer, or why it was not written.
    Open(Engine, Status),
    /// The disk failed.
    Broken,
}

/// Does a command, and writes the line of its answer.
pub(crate) fn answer_command<D: Disk, K: Sink>(
    alloc: Global,
    engine: Engine,
    disk: &mut D,
    sink: &mut K,
    command: &Command,
) -> Turned
    requires sound { IsSoundEngine engine }
    requires served { IsServed command.now }
    requires fits { D.tells → FitsDisk engine (D.state disk.old) }
    ensures turns { TurnsCommand D.tells (D.state disk.old) (D.state disk.new) engine command.now result
        (stream K.tells K.written K.faults sink.old sink.new) }
    ensures sound { IsSoundTurn result }
    ensures any_moment { D.tells → (u : Unsettled) → IsReady engine (D.state disk.old) u
        → Passes (D.state disk.old) (D.state disk.new) (IsInCommand (serves engine (D.state disk.old).files) command.now u) }
    ensures faults { IsCounted (has_broken result) (D.state disk.old).faults (D.state disk.new).faults }
{
    match engine.step(alloc, disk, command) {
        Stepped::Next(next, answer) => {
            let status = write_answer(alloc, sink, &answer);
            Turned::Open(next, status)
        }
        Stepped::NoMemory(same) => Turned::Open(same, Status::NoMemory),
        Stepped::Broken => Turned::Broken,
    }
}

/// Closes a store, and gives this status, unless the disk fails.
pub(crate) fn close_with<D: Disk>(engine: Engine, disk: &mut D, status: Status) -> Status
    requires sound { IsSoundEngine engine }
    requires fits { D.tells → FitsDisk engine (D.state disk.old) }
    ensures closes { Closes D.tells engine (D.state disk.old) (D.state disk.new) status result }
    ensures any_moment { D.tells → (u : Unsettled) → IsReady engine (D.state disk.old) u
        → Passes (D.state disk.old) (D.state disk.new) (StandsLoosely (off (serves engine (D.state disk.old).files)) u) }
    ensures images { D.tells → LeavesServed engine (D.state disk.old) (D.state disk.new) }
{
    match engine.close(disk) {
        Ok(()) => status,
        Err(Failed) => Status::DiskFault,
    }
}

/// Whether the words of a line say nothing: there are none, or they are a comment.
fn say_nothing(words: &Words) -> bool
    ensures { result ≡ says_nothing words.now }
{
    match words.as_slice() {
        [] => true,
        [word, ..] => word.bytes().starts_with(b"#"),
    }
}

/// What a line asks for that is not too long.
pub(crate) fn request_of(alloc: Global, line: &Text) -> Result<Request, NoMemory>
    ensures request { IfOk result (IsRequest (Short line.now)) }
    ensures served { IfOk result IsServedRequest }
{
    let words = words_of(alloc, line)?;
    if say_nothing(&words) {
        return Ok(Request::Skip);
    }
    match parse(alloc, &words) {
        Ok(command) => Ok(Request::Do(command)),
        Err(ParseFault::BadLine) => Ok(Request::Bad),
        Err(ParseFault::NoMemory) => Err(NoMemory),
    }
}

/// Does what a line asks for, and writes the line of its answer, if it gets one.
pub(crate) fn answer_request<D: Disk, K: Sink>(
    alloc: Global,
    engine: Engine,
    disk: &mut D,
    sink: &mut K,
    request: Request,
) -> Turned
    requires sound { IsSoundEngine engine }
    requires served { IsServedRequest request }
    requires fits { D.tells → FitsDisk engine (D.state disk.old) }
    ensures turns { (line : Line) → IsRequest line request
        → TurnsLine D.tells (D.state disk.old) (D.state disk.new) engine line result (stream K.tells K.written K.faults sink.old sink.new) }
    ensures sound { IsSoundTurn result }
    ensures any_moment { D.tells → (line : Line) → IsRequest line request → (u : Unsettled) → IsReady engine (D.state disk.old) u
        → Passes (D.state disk.old) (D.state disk.new) (IsAtLine (serves engine (D.state disk.old).files) line u) }
    ensures faults { IsCounted (has_broken result) (D.state disk.old).faults (D.state disk.new).faults }
{
    match request {
        Request::Skip => Turned::Open(engine, Status::Done),
        Request::Bad => {
            let status = write_answer(alloc, sink, &Answer::Refused(Refusal::BadLine));
            Turned::Open(engine, status)
        }
        Request::Do(command) => answer_command(alloc, engine, disk, sink, &command),
    }
}
